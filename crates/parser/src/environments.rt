// The environments that `\begin` knows.
ghost use Rattle.std.specs.Prelude.{◌≡◌};
ghost use Rattle.lexer.specs.Letters.{letters};
ghost use Rattle.parser.specs.Environment.{environment, same};

use crate::Environment;
use attribute::ColumnAlign;
use lexer::letters::letter_at;

// Whether the letters at the head of a text spell a name. A letter has no fixed width, so the place goes from the end of one to the next.
fn spells(t: &[u8], name: &[u8]) -> bool
    ensures { result ≡ same (letters t.now) name.now }
{
    let mut i = 0;
    for b in name {
        match letter_at(t, i) {
            Some(letter) if letter.code == u32::from(*b) => i = letter.end,
            _ => return false,
        }
    }
    letter_at(t, i).is_none()
}

// The environment whose name the letters of a text spell, if there is one: the five tests in a row are the definition's five arms, while a loop over a
// table of the names would owe an invariant that says which arms are passed.
pub fn environment_of(t: &[u8]) -> Option<Environment>
    ensures { result ≡ environment t.now }
{
    if spells(t, b"align") {
        return Some(Environment::Bare(ColumnAlign::Left));
    }
    if spells(t, b"matrix") {
        return Some(Environment::Bare(ColumnAlign::Center));
    }
    if spells(t, b"pmatrix") {
        return Some(Environment::Between(1, 2)); // ( )
    }
    if spells(t, b"bmatrix") {
        return Some(Environment::Between(3, 4)); // [ ]
    }
    if spells(t, b"vmatrix") {
        return Some(Environment::Between(5, 5)); // |
    }
    None
}
