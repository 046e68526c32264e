// The attributes as numbers, as a record holds them; a number that no attribute has reads as the last one. A cast gives the number of a case; the
// way back is a match, since no cast makes a case of a number.
ghost use Rattle.std.specs.Prelude.{◌≡◌};
ghost use Rattle.attribute.specs.Codes.{variant_code, variant_of, accent_code, accent_of, thickness_code, thickness_of, align_code, align_of, display_code, display_of};

use crate::{Accent, ColumnAlign, DisplayStyle, LineThickness, Variant};

impl From<Variant> for u8 {
    ghost from_gives = { λ v n. n ≡ variant_code v };

    fn from(v: Variant) -> u8 {
        v as u8
    }
}

impl From<u8> for Variant {
    ghost from_gives = { λ n v. v ≡ variant_of n };

    #[tactic(auto, unfolding(crate::specs::Codes::variant_of, crate::specs::Codes::variants))]
    fn from(n: u8) -> Variant {
        match n {
            0 => Variant::Normal,
            1 => Variant::Italic,
            2 => Variant::Bold,
            3 => Variant::BoldItalic,
            4 => Variant::DoubleStruck,
            5 => Variant::BoldFraktur,
            6 => Variant::Script,
            7 => Variant::BoldScript,
            8 => Variant::Fraktur,
            9 => Variant::SansSerif,
            10 => Variant::BoldSansSerif,
            11 => Variant::SansSerifItalic,
            12 => Variant::SansSerifBoldItalic,
            _ => Variant::Monospace,
        }
    }
}

impl From<Accent> for u8 {
    ghost from_gives = { λ v n. n ≡ accent_code v };

    fn from(v: Accent) -> u8 {
        v as u8
    }
}

impl From<u8> for Accent {
    ghost from_gives = { λ n v. v ≡ accent_of n };

    #[tactic(auto, unfolding(crate::specs::Codes::accent_of))]
    fn from(n: u8) -> Accent {
        match n {
            0 => Accent::True,
            _ => Accent::False,
        }
    }
}

impl From<LineThickness> for u8 {
    ghost from_gives = { λ v n. n ≡ thickness_code v };

    fn from(v: LineThickness) -> u8 {
        v as u8
    }
}

impl From<u8> for LineThickness {
    ghost from_gives = { λ n v. v ≡ thickness_of n };

    #[tactic(auto, unfolding(crate::specs::Codes::thickness_of))]
    fn from(n: u8) -> LineThickness {
        match n {
            0 => LineThickness::Medium,
            _ => LineThickness::Zero,
        }
    }
}

impl From<ColumnAlign> for u8 {
    ghost from_gives = { λ v n. n ≡ align_code v };

    fn from(v: ColumnAlign) -> u8 {
        v as u8
    }
}

impl From<u8> for ColumnAlign {
    ghost from_gives = { λ n v. v ≡ align_of n };

    #[tactic(auto, unfolding(crate::specs::Codes::align_of))]
    fn from(n: u8) -> ColumnAlign {
        match n {
            0 => ColumnAlign::Center,
            _ => ColumnAlign::Left,
        }
    }
}

impl From<DisplayStyle> for u8 {
    ghost from_gives = { λ v n. n ≡ display_code v };

    fn from(v: DisplayStyle) -> u8 {
        v as u8
    }
}

impl From<u8> for DisplayStyle {
    ghost from_gives = { λ n v. v ≡ display_of n };

    #[tactic(auto, unfolding(crate::specs::Codes::display_of))]
    fn from(n: u8) -> DisplayStyle {
        match n {
            0 => DisplayStyle::Block,
            _ => DisplayStyle::Inline,
        }
    }
}
