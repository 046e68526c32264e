// The Rust's `Lexer`: a place in the caller's bytes, which it borrows. It leaves the work to the cursor.
// That the place is inside is asked by `next_token` and is no ghost field: a reader is made in `token_from` alone, which asks for it too, and is read
// there at once, so a field would say it a third time.
ghost use Rattle.std.specs.Prelude.{◌≡◌, ◌≤◌, length, drop};
ghost use Rattle.lexer.specs.Lex.{next_token};

use crate::{Cursor, Lexeme};

#[derive(Clone, Copy)]
pub struct Lexer<'a> {
    input: &'a [u8],
    at: usize,
}

impl<'a> Lexer<'a> {
    // The token at the place; its end is the next place.
    pub fn next_token(self) -> Lexeme
        requires { self.at ≤ length self.input.now }
        ensures { (result ≡ next_token self.entry.at (drop self.entry.at self.entry.input.now)) × (result.end ≤ length self.entry.input.now) }
    {
        Cursor { at: self.at }.next_token(self.input)
    }
}

// The token of a text from a place on, for callers that keep text and place apart.
pub fn token_from(input: &[u8], at: usize) -> Lexeme
    requires { at ≤ length input.now }
    ensures { (result ≡ next_token at (drop at input.now)) × (result.end ≤ length input.now) }
{
    Lexer { input, at }.next_token()
}
