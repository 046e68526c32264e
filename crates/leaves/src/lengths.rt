// The lengths of what is printed: a match gives constants and the lengths of texts, and nothing is put. A record is measured by its numbers: by a
// `Shape` pages took 11 to 21 % longer, measured on an older toolchain (docs/DECISIONS.md, 74). Of the places only that under a slash changes its
// length, so `slashed` stands for `Place`: what a mark of a matrix prints in a cell is counted by `print::measure`. A leaf, a front and a
// back have lengths of their own besides, for who puts them alone: a record's says neither what stands in a cell nor where its parts stand.
ghost use Rattle.std.specs.Prelude.{◌≡◌, ◌^◌, ◌≤◌, ◌<◌, length};
ghost use Rattle.token.specs.Debug.{Inside};
ghost use Rattle.ast.specs.declared.Leaf.{Leaf};
ghost use Rattle.ast.specs.Tree.{leaf};
ghost use Rattle.ast.specs.Shape.{shape_of};
ghost use Rattle.ast.specs.Inside.{LeafInside, ShapeInside};
ghost use Rattle.markup.specs.Print.{operator_text, variant_text, letter_markup, operator_markup, undefined_markup, display_text, print_leaf, at_place};
ghost use Rattle.markup.specs.Fronts.{front_one, back_one};
ghost use Rattle.markup.specs.Own.{under, own_text, own_errors};

use crate::fronts::align_text;
use crate::leaf::{fixed_text, sized_end};
use ast::{Fields, Leaf, One, Stretched};
use attribute::{Accent, ColumnAlign, DisplayStyle, LineThickness, Variant};
use lexer::letters::letters_len;
use markup::Place;
use text::Dialect;
use text::xml::character_len;
use token::debug::debug_len;
use token::texts::width_of;
use token::{Undefined, operator_in};

// The length of a variant's attribute.
fn variant_len(v: Variant) -> usize
    ensures { result ≡ length (variant_text v) }
{
    15 + v.name().len()
}

// The length of whether a style is that of a block, as constants: the tag that has it is one text.
fn display_len(d: DisplayStyle) -> usize
    ensures { result ≡ length (display_text d) }
{
    match d {
        DisplayStyle::Block => 4,
        DisplayStyle::Inline => 5,
    }
}

// The length of the character of an operator.
fn operator_text_len(dialect: Dialect, c: u32) -> usize
    ensures { result ≡ length (operator_text dialect c) }
{
    character_len(dialect, operator_in(dialect, c))
}

// The length of a letter, which under a slash has its variant in any case.
fn letter_len(dialect: Dialect, slashed: bool, c: u32, v: Variant) -> usize
    ensures { result ≡ length (at_place dialect (under slashed) (leaf (Leaf.Letter c v)) (letter_markup dialect c v)) }
{
    if slashed {
        return 17 + variant_len(v) + character_len(dialect, c);
    }
    if v.is_italic() {
        return 9 + character_len(dialect, c);
    }
    9 + variant_len(v) + character_len(dialect, c)
}

// The length of an operator, of which the partial differential is italic where it has no slash.
fn operator_len(dialect: Dialect, slashed: bool, c: u32) -> usize
    ensures { result ≡ length (at_place dialect (under slashed) (leaf (Leaf.Operator c)) (operator_markup dialect c)) }
{
    if slashed {
        return 17 + operator_text_len(dialect, c);
    }
    if c == 0x2202 {
        return 33;
    }
    9 + operator_text_len(dialect, c)
}

// The length of the error text of a token that is no node.
fn undefined_len(dialect: Dialect, s: &[u8], u: Undefined) -> usize
    requires { Inside (length s.now) u × (length (undefined_markup dialect s.now u) < 2 ^ 64) }
    ensures { result ≡ length (undefined_markup dialect s.now u) }
{
    43 + debug_len(dialect, s, u)
}

// The length of what a record prints without its parts.
pub fn own_len(dialect: Dialect, slashed: bool, s: &[u8], f: Fields) -> usize
    requires { ShapeInside (length s.now) (shape_of f) × (length s.now ≤ 4096) }
    ensures { result ≡ length (own_text dialect (under slashed) s.now (shape_of f)) }
{
    let tag = f.tag;
    let attr = f.attr;
    let x = f.x;
    let y = f.y;
    match tag {
        0 => 9 + (y - x) as usize,
        1 => letter_len(dialect, slashed, x, Variant::from(attr)),
        2 => operator_len(dialect, slashed, x),
        3 => 9 + fixed_text(dialect, x).len(),
        4 => 9 + letters_len(dialect, &s[x as usize..y as usize]),
        5 => 20 + width_of(x).len(),
        6 => 25 + operator_text_len(dialect, x),
        7 => 25 + fixed_text(dialect, x).len(),
        8 => 9 + fixed_text(dialect, x).len(),
        9 => 32
            + fixed_text(dialect, x).len()
            + fixed_text(dialect, x).len()
            + fixed_text(dialect, y).len()
            + sized_end(dialect).len(),
        10 => 15 + letters_len(dialect, &s[x as usize..y as usize]),
        11 => 39,
        12 => 37,
        13 => undefined_len(dialect, s, Undefined::EOF),
        14 => undefined_len(dialect, s, Undefined::End),
        15 => undefined_len(dialect, s, Undefined::Right),
        16 => undefined_len(dialect, s, Undefined::RBrace),
        17 => undefined_len(dialect, s, Undefined::Underscore),
        18 => undefined_len(dialect, s, Undefined::Circumflex),
        19 => undefined_len(dialect, s, Undefined::Command(x as usize, y as usize)),
        20 => 34 + Accent::from(attr).name().len() + character_len(dialect, x),
        21 => 36 + Accent::from(attr).name().len() + character_len(dialect, x),
        22 => 15,
        23 => 92 + fixed_text(dialect, x).len() + fixed_text(dialect, y).len(),
        24 => 0,
        25 => 33 + display_len(DisplayStyle::from(attr)),
        26 => 13,
        27 => 13,
        28 => 15,
        29 => 17,
        30 => 17,
        31 => 15,
        32 => 15 + LineThickness::from(attr).attribute().len(),
        33 => 19,
        34 => 25,
        35 => 13,
        _ => 39 + align_text(dialect, ColumnAlign::from(attr)).len(),
    }
}

// One for a record that prints an error text by itself, else nothing.
pub fn own_errors(f: Fields) -> usize
    ensures { result ≡ own_errors (shape_of f) }
{
    usize::from(matches!(f.tag, 11..=19))
}

// The length of a leaf at a place.
pub fn leaf_len(dialect: Dialect, place: Place, s: &[u8], l: Leaf) -> usize
    requires { LeafInside (length s.now) l × (length (at_place dialect place (leaf l) (print_leaf dialect s.now l)) < 2 ^ 64) }
    ensures { result ≡ length (at_place dialect place (leaf l) (print_leaf dialect s.now l)) }
{
    let slashed = matches!(place, Place::Slashed);
    match l {
        Leaf::Number(a, e) => 9 + (e - a),
        Leaf::Letter(c, v) => letter_len(dialect, slashed, c, v),
        Leaf::Operator(c) => operator_len(dialect, slashed, c),
        Leaf::Function(t) => 9 + fixed_text(dialect, t).len(),
        Leaf::FunctionName(a, e) => 9 + letters_len(dialect, &s[a..e]),
        Leaf::Space(w) => 20 + width_of(w).len(),
        Leaf::StrechedOp(Stretched::Character(c)) => 25 + operator_text_len(dialect, c),
        Leaf::StrechedOp(Stretched::Fixed(t)) => 25 + fixed_text(dialect, t).len(),
        Leaf::OtherOperator(t) => 9 + fixed_text(dialect, t).len(),
        Leaf::SizedParen(z, t) => 32
            + fixed_text(dialect, z).len()
            + fixed_text(dialect, z).len()
            + fixed_text(dialect, t).len()
            + sized_end(dialect).len(),
        Leaf::Text(a, e) => 15 + letters_len(dialect, &s[a..e]),
        Leaf::Ampersand => match place {
            Place::Cell => 11,
            _ => 39,
        },
        Leaf::NewLine => match place {
            Place::Cell => 22,
            _ => 37,
        },
        Leaf::Undefined(u) => undefined_len(dialect, s, u),
    }
}

// The length of what stands before the part of a node with one part.
pub fn front_one_len(dialect: Dialect, k: One) -> usize
    ensures { result ≡ length (front_one dialect k) }
{
    match k {
        One::OverOp(_, _) => 7,
        One::UnderOp(_, _) => 8,
        One::Sqrt => 7,
        One::Fenced(t, _) => 45 + fixed_text(dialect, t).len(),
        One::Slashed => 0,
        One::Style(d) => 24 + display_len(d),
    }
}

// The length of what stands behind the part of a node with one part.
pub fn back_one_len(dialect: Dialect, k: One) -> usize
    ensures { result ≡ length (back_one dialect k) }
{
    match k {
        One::OverOp(c, a) => 27 + a.name().len() + character_len(dialect, c),
        One::UnderOp(c, a) => 28 + a.name().len() + character_len(dialect, c),
        One::Sqrt => 8,
        One::Fenced(_, u) => 47 + fixed_text(dialect, u).len(),
        One::Slashed => 0,
        One::Style(_) => 9,
    }
}
