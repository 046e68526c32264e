// The lexer: the Rust's lexer.rs, over bytes.
#![tactic(auto)]

pub mod letters;
pub mod reader;

ghost use Rattle.std.specs.Prelude.{◌≡◌, ℕ, Bool, false, ◌+◌, ◌≤◌, ◌<◌, length, drop, get_or};
ghost use Rattle.lexer.specs.Lex.{is_whitespace, is_digit, is_alphabetic, run, skip_whitespace, read_number, name_length, lexeme, read_command, number_at, assigns, token_at, next_token};

use attribute::Variant;
use text::code_point;
use token::{Token, from_command};

// A token with the place of its first byte in the body and the place after its last.
#[derive(Clone, Copy)]
pub struct Lexeme {
    pub token: Token,
    pub start: usize,
    pub end: usize,
}

// A place in the body, without the bytes. The rules of the project want such a cursor below the `Lexer` over the caller's slice (docs/DECISIONS.md,
// 58), so it holds no slice, no ghost field can bound its place, and its functions ask for that.
#[derive(Clone, Copy)]
struct Cursor {
    at: usize,
}

// The Rust's lexer skips these four: `is_ascii_whitespace` has the form feed too. Most bytes are a space or above it, so the space is asked for first, and
// one test more passes over all above it.
fn is_whitespace(b: u8) -> bool
    ensures { result ≡ is_whitespace b }
{
    b == b' ' || b < b' ' && matches!(b, b'\t' | b'\n' | b'\r')
}

// The test of std promises in its own words: here and in the next function the promise is the definition's name.
fn is_digit(b: u8) -> bool
    ensures { result ≡ is_digit b }
{
    b.is_ascii_digit()
}

pub fn is_alphabetic(b: u8) -> bool
    ensures { result ≡ is_alphabetic b }
{
    b.is_ascii_alphabetic()
}

impl Lexeme {
    fn new(token: Token, start: usize, end: usize) -> Lexeme
        ensures { result ≡ lexeme token start end }
    {
        Lexeme { token, start, end }
    }
}

impl Cursor {
    // Past the bytes that pass a test. It is a loop over places, as the answer is one, or the length; `position` would count from the cursor, and
    // want its place added and the length put for none.
    fn skip<F: Fn(u8) -> bool>(self, s: &[u8], passes: F) -> Cursor
        requires inside { self.at ≤ length s.now }
        requires callable { F.IsAlwaysCallable passes }
        ensures run { (test : ℕ → Bool) → ((b : ℕ) (r : Bool) → F.post passes b r → r ≡ test b) → result.at ≡ self.at + run test (drop self.at s.now) }
        ensures inside { result.at ≤ length s.now }
    {
        for i in self.at..s.len() {
            if !passes(s[i]) {
                return Cursor { at: i };
            }
        }
        Cursor { at: s.len() }
    }

    // Past the whitespace.
    fn skip_whitespace(self, s: &[u8]) -> Cursor
        requires { self.at ≤ length s.now }
        ensures { (result.at ≡ self.at + skip_whitespace (drop self.at s.now)) × (result.at ≤ length s.now) }
    {
        self.skip(s, is_whitespace)
    }

    // Past the ASCII letters.
    fn skip_alphabetic(self, s: &[u8]) -> Cursor
        requires { self.at ≤ length s.now }
        ensures { (result.at ≡ self.at + run is_alphabetic (drop self.at s.now)) × (result.at ≤ length s.now) }
    {
        self.skip(s, is_alphabetic)
    }

    // Past the digits of a number and at most one period. It is a loop of its own, since what a byte is depends on whether a period came before. Never
    // inlined: compiled into the choice of a token it takes ten instructions a digit in place of eight.
    #[inline(never)]
    fn skip_number(self, s: &[u8]) -> Cursor
        requires { self.at ≤ length s.now }
        ensures { (result.at ≡ self.at + read_number false (drop self.at s.now)) × (result.at ≤ length s.now) }
    {
        let mut has_period = false;
        for i in self.at..s.len() {
            let b = s[i];
            if is_digit(b) {
                continue;
            }
            if b != b'.' || has_period {
                return Cursor { at: i };
            }
            has_period = true;
        }
        Cursor { at: s.len() }
    }

    // A number from the cursor on.
    fn read_number(self, s: &[u8]) -> Lexeme
        requires { self.at ≤ length s.now }
        ensures { result ≡ number_at self.at (drop self.at s.now) }
    {
        let end = self.skip_number(s).at;
        Lexeme::new(Token::Number(self.at, end), self.at, end)
    }

    // Past the name of a command: a run of ASCII letters, or one character of any other kind.
    fn skip_name(self, s: &[u8]) -> Cursor
        requires { self.at ≤ length s.now }
        ensures { (result.at ≡ self.at + name_length (drop self.at s.now)) × (result.at ≤ length s.now) }
    {
        match s.get(self.at) {
            Some(&b) if is_alphabetic(b) => self.skip_alphabetic(s),
            _ => Cursor {
                at: self.at + code_point(s, self.at).width,
            },
        }
    }

    // A command, whose backslash is at the cursor.
    fn read_command(self, s: &[u8]) -> Lexeme
        requires { self.at < length s.now }
        ensures { result ≡ read_command self.at (drop 1 (drop self.at s.now)) }
    {
        let name = self.at + 1;
        let end = Cursor { at: name }.skip_name(s).at;
        let token = from_command(&s[name..end], Token::Command(name, end));
        Lexeme::new(token, self.at, end)
    }

    // Whether a colon and an equals sign stand at the cursor.
    fn assigns(self, s: &[u8]) -> bool
        requires { self.at ≤ length s.now }
        ensures { result ≡ assigns (drop self.at s.now) }
    {
        s[self.at..].starts_with(b":=")
    }

    // The token at the cursor: one decision over the character there. A parenthesis is the number of its fixed text, since a record of the tree holds
    // numbers.
    fn token_at(self, s: &[u8]) -> Lexeme
        requires { self.at ≤ length s.now }
        ensures { result ≡ token_at self.at (drop self.at s.now) }
    {
        let at = self.at;
        let p = code_point(s, at);
        let c = p.code;
        let end = at + p.width;
        match c {
            // ! ' * + , - . / ; < = >
            33 | 39 | 42..=47 | 59..=62 => Lexeme::new(Token::Operator(c), at, end),
            40 => Lexeme::new(Token::Paren(1), at, end), // (
            41 => Lexeme::new(Token::Paren(2), at, end), // )
            123 => Lexeme::new(Token::LBrace, at, end), // {
            125 => Lexeme::new(Token::RBrace, at, end), // }
            91 => Lexeme::new(Token::Paren(3), at, end), // [
            93 => Lexeme::new(Token::Paren(4), at, end), // ]
            124 => Lexeme::new(Token::Paren(5), at, end), // |
            95 => Lexeme::new(Token::Underscore, at, end), // _
            94 => Lexeme::new(Token::Circumflex, at, end), // ^
            38 => Lexeme::new(Token::Ampersand, at, end), // &
            0 => Lexeme::new(Token::EOF, at, end), // NUL
            // A colon looks one character ahead.
            58 => {
                if self.assigns(s) {
                    return Lexeme::new(Token::Paren(6), at, at + 2);
                }
                Lexeme::new(Token::Operator(58), at, end)
            }
            92 => self.read_command(s), // a backslash
            48..=57 => self.read_number(s),
            65..=90 | 97..=122 => Lexeme::new(Token::Letter(c, Variant::Italic), at, end),
            _ => Lexeme::new(Token::Letter(c, Variant::Normal), at, end),
        }
    }

    // The next token, from the first byte that is no whitespace.
    fn next_token(self, s: &[u8]) -> Lexeme
        requires { self.at ≤ length s.now }
        ensures { (result ≡ next_token self.at (drop self.at s.now)) × (result.end ≤ length s.now) }
    {
        let here = self.skip_whitespace(s);
        here.token_at(s)
    }
}
