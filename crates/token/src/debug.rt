// The Debug text of the tokens that become `Undefined`, escaped once more, as the error text has it, in a dialect. It is written by hand, since a
// derived Debug promises nothing of the bytes that it writes. Each text has its length from a function of its own, as in `text::put`; dialect and
// output are two parameters, since one is only read and the other written, and so are dialect and body: the struct of both, with the store, is made
// above, where there is a store.
ghost use Rattle.std.specs.Prelude.{◌≡◌, ◌^◌, ◌<◌, length};
ghost use Rattle.text.specs.Put.{Room, Puts};
ghost use Rattle.text.specs.Xml.{in_text};
ghost use Rattle.token.specs.Debug.{escapes, escape_by, escape, or_nul, variant_name, command_text, debug, Inside, Stands};

use crate::Undefined;
use text::Dialect;
use text::put::Output;
use text::xml::reference;

// What a byte of a name is after both escapes, where it does not stand as itself. Never inlined: the bytes that stand as themselves would then be looked
// for in its list as well.
#[inline(never)]
#[tactic(auto, unfolding(text::specs::Examples::text_opens, crate::specs::Debug::digit, crate::specs::Debug::hexadecimal, crate::specs::Debug::control, crate::specs::Debug::escapes, crate::specs::Debug::escape_by, crate::specs::Debug::escape))]
fn escaped_twice(b: u8) -> Option<&'static [u8]>
    ensures { Stands (escape (escape_by escapes b)) b result }
{
    match b {
        0 => Some(b"\\\\0"),
        1 => Some(b"\\\\u{1}"),
        2 => Some(b"\\\\u{2}"),
        3 => Some(b"\\\\u{3}"),
        4 => Some(b"\\\\u{4}"),
        5 => Some(b"\\\\u{5}"),
        6 => Some(b"\\\\u{6}"),
        7 => Some(b"\\\\u{7}"),
        8 => Some(b"\\\\u{8}"),
        9 => Some(b"\\\\t"),
        10 => Some(b"\\\\n"),
        11 => Some(b"\\\\u{b}"),
        12 => Some(b"\\\\u{c}"),
        13 => Some(b"\\\\r"),
        14 => Some(b"\\\\u{e}"),
        15 => Some(b"\\\\u{f}"),
        16 => Some(b"\\\\u{10}"),
        17 => Some(b"\\\\u{11}"),
        18 => Some(b"\\\\u{12}"),
        19 => Some(b"\\\\u{13}"),
        20 => Some(b"\\\\u{14}"),
        21 => Some(b"\\\\u{15}"),
        22 => Some(b"\\\\u{16}"),
        23 => Some(b"\\\\u{17}"),
        24 => Some(b"\\\\u{18}"),
        25 => Some(b"\\\\u{19}"),
        26 => Some(b"\\\\u{1a}"),
        27 => Some(b"\\\\u{1b}"),
        28 => Some(b"\\\\u{1c}"),
        29 => Some(b"\\\\u{1d}"),
        30 => Some(b"\\\\u{1e}"),
        31 => Some(b"\\\\u{1f}"),
        34 => Some(b"\\\\\\\""),
        92 => Some(b"\\\\\\\\"),
        127 => Some(b"\\\\u{7f}"),
        _ => None,
    }
}

// .. in a dialect: no escape has a byte that XML reads as markup. The bytes from the letters on that stand as themselves come first, since most
// names have no others, and what `escaped_twice` gives comes back through memory.
fn escaped_in(dialect: Dialect, b: u8) -> Option<&'static [u8]>
    ensures { Stands (in_text dialect (escape (escape_by escapes b))) b result }
{
    match b {
        65..=91 | 93..=126 | 128..=255 => None,
        38 | 60 | 62 => reference(dialect, u32::from(b)),
        _ => escaped_twice(b),
    }
}

// Puts a byte of a name, escaped twice.
fn put_byte(dialect: Dialect, b: u8, out: &mut Output)
    requires { Room out.old (length (in_text dialect (escape (escape_by escapes b)))) }
    ensures { Puts out.old out.new (in_text dialect (escape (escape_by escapes b))) }
{
    match escaped_in(dialect, b) {
        Some(text) => out.put(text),
        None => out.put(&[b]),
    }
}

// The length of a byte of a name, escaped twice.
fn byte_len(dialect: Dialect, b: u8) -> usize
    ensures { result ≡ length (in_text dialect (escape (escape_by escapes b))) }
{
    match escaped_in(dialect, b) {
        Some(text) => text.len(),
        None => 1,
    }
}

// Puts the name of a command, escaped twice: at the end of the body its name is a NUL.
fn put_name(dialect: Dialect, name: &[u8], out: &mut Output)
    requires { Room out.old (length (in_text dialect (escape (escape (or_nul name.now))))) }
    ensures { Puts out.old out.new (in_text dialect (escape (escape (or_nul name.now)))) }
{
    if name.is_empty() {
        return put_byte(dialect, 0, out);
    }
    for b in name {
        put_byte(dialect, *b, out);
    }
}

// The length of the name of a command, escaped twice. It is added in a loop: std's `sum` over a `map` would want a contract of the closure, and that every
// part of the sum is a number of the machine.
fn name_len(dialect: Dialect, name: &[u8]) -> usize
    requires { length (in_text dialect (escape (escape (or_nul name.now)))) < 2 ^ 64 }
    ensures { result ≡ length (in_text dialect (escape (escape (or_nul name.now)))) }
{
    if name.is_empty() {
        return byte_len(dialect, 0);
    }
    let mut n: usize = 0;
    for b in name {
        n += byte_len(dialect, *b);
    }
    n
}

// Puts the Debug text of an unknown command, escaped once more.
fn put_command(dialect: Dialect, name: &[u8], out: &mut Output)
    requires { Room out.old (length (command_text dialect name.now)) }
    ensures { Puts out.old out.new (command_text dialect name.now) }
{
    out.put(b"Command(\\\"");
    put_name(dialect, name, out);
    out.put(b"\\\")");
}

impl Undefined {
    // The name of a token's variant, which Debug writes.
    fn name(self) -> &'static [u8]
        ensures { result.now ≡ variant_name self }
    {
        match self {
            Undefined::EOF => b"EOF",
            Undefined::End => b"End",
            Undefined::Right => b"Right",
            Undefined::RBrace => b"RBrace",
            Undefined::Underscore => b"Underscore",
            Undefined::Circumflex => b"Circumflex",
            Undefined::Command(_, _) => b"Command",
        }
    }
}

// Puts the Debug text of a token, escaped once more.
pub fn put_debug(dialect: Dialect, s: &[u8], u: Undefined, out: &mut Output)
    requires { Inside (length s.now) u × Room out.old (length (in_text dialect (escape (debug s.now u)))) }
    ensures { Puts out.old out.new (in_text dialect (escape (debug s.now u))) }
{
    match u {
        Undefined::Command(a, e) => put_command(dialect, &s[a..e], out),
        _ => out.put(u.name()),
    }
}

// The length of the Debug text of a token, escaped once more: 13 is that of the two pieces around a name.
pub fn debug_len(dialect: Dialect, s: &[u8], u: Undefined) -> usize
    requires { Inside (length s.now) u × (length (in_text dialect (escape (debug s.now u))) < 2 ^ 64) }
    ensures { result ≡ length (in_text dialect (escape (debug s.now u))) }
{
    match u {
        Undefined::Command(a, e) => 13 + name_len(dialect, &s[a..e]),
        _ => u.name().len(),
    }
}
