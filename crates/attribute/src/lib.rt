// The attributes of MathML elements: the Rust's attribute.rs, and `DisplayStyle` of its lib.rs. Each text is an arm of a match, as there: an array
// of texts by number would say nowhere which text is whose. A text is lent as it stands, where a `Display` would write it anew.
#![tactic(auto)]

mod codes;

ghost use Rattle.std.specs.Prelude.{◌≡◌};
ghost use Rattle.text.specs.Text.{bytes};
ghost use Rattle.attribute.specs.Names.{variant, is_italic, accent, line_thickness, column_align, display_style};

// The mathvariant of a letter.
#[derive(Clone, Copy, PartialEq, Eq)]
pub enum Variant {
    Normal,
    Italic,
    Bold,
    BoldItalic,
    DoubleStruck,
    BoldFraktur,
    Script,
    BoldScript,
    Fraktur,
    SansSerif,
    BoldSansSerif,
    SansSerifItalic,
    SansSerifBoldItalic,
    Monospace,
}

#[derive(Clone, Copy)]
pub enum Accent {
    True,
    False,
}

// The thicknesses that the parser makes: `Zero` is the Rust's `Length(0)`.
#[derive(Clone, Copy)]
pub enum LineThickness {
    Medium,
    Zero,
}

// The alignments that the parser makes.
#[derive(Clone, Copy)]
pub enum ColumnAlign {
    Center,
    Left,
}

#[derive(Clone, Copy)]
pub enum DisplayStyle {
    Block,
    Inline,
}

impl Variant {
    // The name of a variant.
    pub fn name(self) -> &'static [u8]
        ensures { result.now ≡ bytes (variant self) }
    {
        match self {
            Variant::Normal => b"normal",
            Variant::Italic => b"italic",
            Variant::Bold => b"bold",
            Variant::BoldItalic => b"bold-italic",
            Variant::DoubleStruck => b"double-struck",
            Variant::BoldFraktur => b"bold-fraktur",
            Variant::Script => b"script",
            Variant::BoldScript => b"bold-script",
            Variant::Fraktur => b"fraktur",
            Variant::SansSerif => b"sans-serif",
            Variant::BoldSansSerif => b"bold-sans-serif",
            Variant::SansSerifItalic => b"sans-serif-italic",
            Variant::SansSerifBoldItalic => b"sans-serif-bold-italic",
            Variant::Monospace => b"monospace",
        }
    }

    // Italic is the variant of a letter that needs no attribute.
    pub fn is_italic(self) -> bool
        ensures { result ≡ is_italic self }
    {
        self == Variant::Italic
    }
}

impl Accent {
    // The name of an accent.
    pub fn name(self) -> &'static [u8]
        ensures { result.now ≡ bytes (accent self) }
    {
        match self {
            Accent::True => b"true",
            Accent::False => b"false",
        }
    }
}

impl LineThickness {
    // The attribute of a fraction's line.
    pub fn attribute(self) -> &'static [u8]
        ensures { result.now ≡ bytes (line_thickness self) }
    {
        match self {
            LineThickness::Medium => b"",
            LineThickness::Zero => b" linethickness=\"0\"",
        }
    }
}

impl ColumnAlign {
    // The attribute of a table's columns.
    pub fn attribute(self) -> &'static [u8]
        ensures { result.now ≡ bytes (column_align self) }
    {
        match self {
            ColumnAlign::Center => b"",
            ColumnAlign::Left => b" columnalign=left",
        }
    }
}

impl DisplayStyle {
    // The name of a display style.
    pub fn name(self) -> &'static [u8]
        ensures { result.now ≡ bytes (display_style self) }
    {
        match self {
            DisplayStyle::Block => b"block",
            DisplayStyle::Inline => b"inline",
        }
    }
}
