// The tokens of LaTeX: the Rust's token.rs. A character is its code point, a string is the number of a fixed text, or the
// place of its first byte in the body and the place after its last. The two places are no struct: a record of the store holds them as two numbers,
// the definitions take them as two, and a `Range` is not Copy.
#![tactic(auto)]

pub mod debug;
pub mod table;
pub mod texts;

ghost use Rattle.std.specs.Prelude.{◌≡◌};
ghost use Rattle.token.specs.Command.{from_command, operator_in, acts_on_a_digit};
ghost use Rattle.token.specs.Key.{cmp};

use attribute::{Accent, DisplayStyle, Variant};
use std::cmp::Ordering;
use table::rows_of;
use text::Dialect;

// The Rust's `Token`, but for `Illegal`, which no lexer makes.
#[derive(Clone, Copy)]
pub enum Token {
    EOF,
    Begin,
    End,
    Ampersand,
    NewLine,
    Left,
    Right,
    Middle,
    Paren(u32),
    LBrace,
    RBrace,
    Frac,
    Underscore,
    Circumflex,
    Binom(Option<DisplayStyle>),
    Overset,
    Underset,
    Overbrace(u32),
    Underbrace(u32),
    Sqrt,
    Integral(u32),
    Lim(u32),
    Space(u32),
    Style(Variant),
    Big(u32),
    Over(u32, Accent),
    Under(u32, Accent),
    Operator(u32),
    BigOp(u32),
    Letter(u32, Variant),
    Number(usize, usize),
    Function(u32),
    OperatorName,
    Slashed,
    Text,
    Command(usize, usize),
}

// The tokens that begin no node, which the parser makes an `Undefined`. They have a type of their own, so that no other token can be one.
#[derive(Clone, Copy)]
pub enum Undefined {
    EOF,
    End,
    Right,
    RBrace,
    Underscore,
    Circumflex,
    Command(usize, usize),
}

// The tokens that the parser asks for by name. Each token has one mark, and one that is not asked for has `Other`, as in the definition: with an
// `Option` each mark that is asked for would be wrapped in `Some`.
#[derive(Clone, Copy, PartialEq, Eq)]
pub enum Mark {
    EOF,
    LBracket,
    RBracket,
    RBrace,
    Right,
    End,
    Underscore,
    Circumflex,
    Prime,
    Period,
    Other,
}

impl Token {
    // A digit directly after such a token is a number of one digit.
    #[tactic(auto, unfolding(crate::specs::Command::acts_on_a_digit))]
    pub fn acts_on_a_digit(self) -> bool
        ensures { result ≡ acts_on_a_digit self }
    {
        matches!(
            self,
            Token::Sqrt | Token::Frac | Token::Binom(_) | Token::Style(_)
        )
    }
}

// The order of a row's name and one that is long, which may begin as others do: std's goes by groups of bytes. Never inlined, so that `compare` can be.
#[inline(never)]
fn compare_long(row: &[u8], name: &[u8]) -> Ordering
    ensures { result ≡ cmp row.now name.now }
{
    row.cmp(name)
}

// The order of a row's name and a name. A short one differs from most in its first bytes, so these go one by one, with a branch for each answer: so the
// search runs ahead of the comparisons.
#[inline(always)]
fn compare(row: &[u8], name: &[u8]) -> Ordering
    ensures { result ≡ cmp row.now name.now }
{
    if name.len() >= 8 {
        return compare_long(row, name);
    }
    for i in 0..row.len().min(name.len()) {
        if row[i] < name[i] {
            return Ordering::Less;
        }
        if row[i] > name[i] {
            return Ordering::Greater;
        }
    }
    row.len().cmp(&name.len())
}

// The token of the command with a name, or the one given for a name that is unknown, as its definition takes one.
pub fn from_command(name: &[u8], unknown: Token) -> Token
    ensures { result ≡ from_command name.now unknown }
{
    let Some(&first) = name.first() else {
        return unknown;
    };
    let rows = rows_of(first);
    match rows.binary_search_by(
        |row| -> Ordering
            ensures { result ≡ cmp row.now.0.now name.entry.now }
        { compare(row.0.as_bytes(), name) },
    ) {
        Ok(i) => rows[i].1,
        Err(_) => unknown,
    }
}

// The character that a dialect prints for an operator's: the old one has the Rust's for `\ni`.
pub fn operator_in(dialect: Dialect, c: u32) -> u32
    ensures { result ≡ operator_in dialect c }
{
    match dialect {
        Dialect::Old => match c {
            0x220b => 0x2209, // as \notin
            _ => c,
        },
        Dialect::Strict => c,
    }
}
