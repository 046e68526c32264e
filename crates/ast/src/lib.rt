// The tree of a formula in records of a lent store: the Rust's ast.rs.
//
// A record is 24 bytes, numbers with the low byte first:
//
//     byte   0       the tag, which says what node it is
//     byte   1       the attribute: a variant, an accent, a style, a thickness or an alignment
//     bytes  2..4    the index of the first part, or of the first node of a row or a matrix
//     bytes  4..6    the index of the second part
//     bytes  6..8    the index of the third part
//     bytes  8..10   the index of the next node of the row or the matrix that this node is in
//     bytes 10..14   a code point, the number of a text or a width, a first place in the body, or the count of a row's or a matrix's nodes
//     bytes 14..18   the place after the last in the body, or the number of a second text
//     bytes 18..20   unused
//     bytes 20..24   kept free for a span
//
// The store is memory that C lends and there is no heap, so a record names others by their indices. Each caller lends the store on, so each
// contract says how long it is: a struct around it would be lent on just so, and be named in each contract too. An index is a usize, as a place in
// the store is reckoned from it, and a contract says where it must fit into its two bytes: as a u16 it would be widened at each use, and what
// narrows the number of the records made would owe the same bound.
#![tactic(auto)]

pub mod codes;
pub mod rows;
pub mod store;
pub mod sum;
pub mod variant;

use attribute::{Accent, ColumnAlign, DisplayStyle, LineThickness, Variant};
use token::Undefined;

// A record of the store. `Fields` are four of its fields: held as one they would put `.fields` before each tag that is asked, and spare only the
// conversion.
#[derive(Clone, Copy)]
pub struct Record {
    pub tag: u8,
    pub attr: u8,
    pub a: usize,
    pub b: usize,
    pub c: usize,
    pub next: usize,
    pub x: u32,
    pub y: u32,
}

// What a stretched operator shows: the character of an `Operator`, or the text of an `OtherOperator`.
#[derive(Clone, Copy)]
pub enum Stretched {
    Character(u32),
    Fixed(u32),
}

// The nodes with no part. A number is a code point, the number of a fixed text or of a width, since a record holds numbers; two are places in the
// body, as in a `Token`, and of a `SizedParen` the numbers of its size and of its text.
#[derive(Clone, Copy)]
pub enum Leaf {
    Number(usize, usize),
    Letter(u32, Variant),
    Operator(u32),
    Function(u32),
    FunctionName(usize, usize),
    Space(u32),
    StrechedOp(Stretched),
    OtherOperator(u32),
    SizedParen(u32, u32),
    Text(usize, usize),
    Ampersand,
    NewLine,
    Undefined(Undefined),
}

// The nodes with one part.
#[derive(Clone, Copy)]
pub enum One {
    OverOp(u32, Accent),
    UnderOp(u32, Accent),
    Sqrt,
    Fenced(u32, u32),
    Slashed,
    Style(DisplayStyle),
}

// The nodes with two parts, in the order in which they are printed: a `Root` is the Rust's `Sqrt` with a degree.
#[derive(Clone, Copy)]
pub enum Two {
    Subscript,
    Superscript,
    Overset,
    Underset,
    Under,
    Root,
    Frac(LineThickness),
}

// The nodes with three parts.
#[derive(Clone, Copy)]
pub enum Three {
    SubSup,
    UnderOver,
}

// What node a record is, with all that is not its parts: a `Row` and a `Matrix` have the number of their nodes.
#[derive(Clone, Copy)]
pub enum Shape {
    Leaf(Leaf),
    One(One),
    Two(Two),
    Three(Three),
    Row(u32),
    Matrix(ColumnAlign, u32),
}

// What `set_variant`, `\middle` and an environment ask of a node: the number of an operator, and the number of a row's nodes. A node of which none
// of them asks anything is `Other`, as in the definition: each of them has one arm for it and for the roles that it does not ask for.
#[derive(Clone, Copy)]
pub enum Role {
    Letter,
    Operator(u32),
    OtherOperator(u32),
    Row(u32),
    Other,
}

// The numbers of a record that say what node it is.
#[derive(Clone, Copy)]
pub struct Fields {
    pub tag: u8,
    pub attr: u8,
    pub x: u32,
    pub y: u32,
}

// What becomes of a record where the records are added: it adds what it is, or what it is under a slash, or the finished tree does not hold
// it.
#[derive(Clone, Copy, PartialEq, Eq)]
pub enum Fate {
    Counted,
    Slashed,
    Dropped,
}

// The ampersands and the new lines among some nodes.
#[derive(Clone, Copy, Default)]
pub struct Marks {
    pub ampersands: usize,
    pub lines: usize,
}
