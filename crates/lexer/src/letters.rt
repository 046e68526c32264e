// The letters at the head of a text, which the Rust's parse_text reads. One walk puts them and one gives their length: a walk that does either
// would be asked at each letter which it is to do. Both go from a letter's end to the next letter, as a letter has no fixed width and the lexer
// answers with places.
ghost use Rattle.std.specs.Prelude.{◌≡◌, ◌+◌, ◌^◌, ◌≤◌, ◌<◌, length, drop, get_or};
ghost use Rattle.text.specs.Put.{Room, Puts};
ghost use Rattle.text.specs.Xml.{in_text};
ghost use Rattle.lexer.specs.Lex.{is_alphabetic, run, next_token};
ghost use Rattle.lexer.specs.Letters.{letters, encode_all};
ghost use Rattle.lexer.specs.LetterAt.{LetterAt};

use crate::reader::token_from;
use crate::{Cursor, Lexeme, is_alphabetic};
use attribute::Variant;
use text::put::Output;
use text::xml::{character_len, put_character};
use text::{Dialect, code_point};
use token::Token;

// A letter's code point, and the place behind it.
#[derive(Clone, Copy)]
pub struct Letter {
    pub code: u32,
    pub end: usize,
}

// The letter at a place where a byte above 127 stands: no such byte begins a token of another kind.
fn wide_letter(s: &[u8], at: usize) -> Lexeme
    requires { (at < length s.now) × (128 ≤ get_or s.now at 0) }
    ensures { (result ≡ next_token at (drop at s.now)) × (result.end ≤ length s.now) }
{
    let p = code_point(s, at);
    Lexeme::new(Token::Letter(p.code, Variant::Normal), at, at + p.width)
}

// The token from a place on: an ASCII letter is a token of one byte, and a byte above 127 begins a letter. Neither needs the lexer.
pub fn letter_or_token(s: &[u8], at: usize) -> Lexeme
    requires { at ≤ length s.now }
    ensures { (result ≡ next_token at (drop at s.now)) × (result.end ≤ length s.now) }
{
    match s.get(at) {
        Some(&b) if is_alphabetic(b) => Lexeme::new(
            Token::Letter(u32::from(b), Variant::Italic),
            at,
            at + 1,
        ),
        Some(&b) if 0x7f < b => wide_letter(s, at),
        _ => token_from(s, at),
    }
}

// The place behind the ASCII letters from a place on, for a caller that passes them and has no use for their tokens.
pub fn past_alphabetic(s: &[u8], at: usize) -> usize
    requires { at ≤ length s.now }
    ensures { (result ≡ at + run is_alphabetic (drop at s.now)) × (result ≤ length s.now) }
{
    Cursor { at }.skip_alphabetic(s).at
}

// The letter at a place, if the next token there is one.
pub fn letter_at(t: &[u8], i: usize) -> Option<Letter>
    requires { i ≤ length t.now }
    ensures { LetterAt t.now i result }
{
    let next = letter_or_token(&t[i..], 0);
    match next.token {
        Token::Letter(code, _) => Some(Letter {
            code,
            end: i + next.end,
        }),
        _ => None,
    }
}

// Puts the characters of the letters at the head of a text, in a dialect, which is a parameter of its own, as in `text::xml`.
pub fn put_letters(dialect: Dialect, t: &[u8], out: &mut Output)
    requires { Room out.old (length (in_text dialect (encode_all (letters t.now)))) }
    ensures { Puts out.old out.new (in_text dialect (encode_all (letters t.now))) }
{
    let mut i: usize = 0;
    while let Some(letter) = letter_at(t, i) {
        put_character(dialect, letter.code, out);
        i = letter.end;
    }
}

// The length of the characters of the letters at the head of a text, in a dialect.
pub fn letters_len(dialect: Dialect, t: &[u8]) -> usize
    requires { length (in_text dialect (encode_all (letters t.now))) < 2 ^ 64 }
    ensures { result ≡ length (in_text dialect (encode_all (letters t.now))) }
{
    let mut n = 0;
    let mut i = 0;
    while let Some(letter) = letter_at(t, i) {
        n += character_len(dialect, letter.code);
        i = letter.end;
    }
    n
}
