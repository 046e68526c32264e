// A formula's text in a dialect, and the characters that XML 1.0 forbids.
ghost use Rattle.std.specs.Prelude.{◌≡◌, length};
ghost use Rattle.text.specs.Utf8.{encode};
ghost use Rattle.text.specs.Put.{Room, Puts};
ghost use Rattle.text.specs.Xml.{allows, forbidden, in_text, Reference};

use crate::put::{Output, code_point_len};
use crate::{Dialect, code_point};

// The reference for a character that XML would read as markup.
fn xml_reference(c: u32) -> Option<&'static [u8]>
    ensures { Reference Dialect.Strict c result }
{
    match c {
        38 => Some(b"&amp;"),
        60 => Some(b"&lt;"),
        62 => Some(b"&gt;"),
        _ => None,
    }
}

// The reference that a dialect prints for a character, where the character does not stand as itself.
pub fn reference(dialect: Dialect, c: u32) -> Option<&'static [u8]>
    ensures { Reference dialect c result }
{
    match dialect {
        Dialect::Old => None,
        Dialect::Strict => xml_reference(c),
    }
}

// Puts a character of a formula's text. The dialect is read and the output is written: in one struct each contract would have to say that the dialect
// stays as it is.
pub fn put_character(dialect: Dialect, c: u32, out: &mut Output)
    requires { Room out.old (length (in_text dialect (encode c))) }
    ensures { Puts out.old out.new (in_text dialect (encode c)) }
{
    match reference(dialect, c) {
        Some(text) => out.put(text),
        None => out.put_code_point(c),
    }
}

// The number of bytes of a character of a formula's text, apart from what puts it, as in `put`.
pub fn character_len(dialect: Dialect, c: u32) -> usize
    ensures { result ≡ length (in_text dialect (encode c)) }
{
    match reference(dialect, c) {
        Some(text) => text.len(),
        None => code_point_len(c),
    }
}

// Whether XML 1.0 allows a character. Those below the space are asked for apart: in one list they would be asked for before all others.
#[tactic(auto, unfolding(crate::specs::Xml::allows))]
fn is_allowed(c: u32) -> bool
    ensures { result ≡ allows c }
{
    if c < 0x20 {
        return matches!(c, 0x9 | 0xa | 0xd);
    }
    matches!(c, 0x20..=0xd7ff | 0xe000..=0xfffd | 0x10000..=0x10ffff)
}

// Whether a body holds a character that XML 1.0 forbids. `any` over the places was tried: that what it says of its run is `forbidden` of the body
// was not proved.
pub fn is_forbidden(s: &[u8]) -> bool
    ensures { result ≡ forbidden s.now }
{
    for i in 0..s.len() {
        if !is_allowed(code_point(s, i).code) {
            return true;
        }
    }
    false
}
