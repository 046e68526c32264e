// UTF-8 text as bytes: the Rust's `Chars` and `str`.
#![tactic(auto)]

pub mod put;
pub mod xml;

ghost use Rattle.std.specs.Prelude.{◌≡◌, Bool, List, ◌∷◌, ℕ, suc, ◌≤◌, ◌<◌, length, drop};
ghost use Rattle.text.specs.Utf8.{table, follow, goes_on, well_formed, lead, replacement, code_point};
ghost use Rattle.text.specs.Follow.{pending, ranges, after, read};
ghost use Rattle.text.specs.Any.{any, contains, has_nul, is_ascii};

// How markup is printed: byte for byte as the Rust prints it, or as XML that a strict reader takes.
#[derive(Clone, Copy)]
pub enum Dialect {
    Old,
    Strict,
}

// A code point and the number of bytes that it takes.
#[derive(Clone, Copy)]
pub struct CodePoint {
    pub code: u32,
    pub width: usize,
}

// How many bytes follow, and the range of the next one. Where none follows the range means nothing: in an `Option` it would be taken apart at each byte.
#[derive(Clone, Copy)]
struct Follow {
    left: u8,
    low: u8,
    high: u8,
}

impl Follow {
    fn new(left: u8, low: u8, high: u8) -> Follow
        ensures { result ≡ record { left = left; low = low; high = high } }
    {
        Follow { left, low, high }
    }

    // What follows the byte `b` where a text is to go on so; `None` if it may not go on with `b`.
    fn step(self, b: u8) -> Option<Follow>
        ensures { (l : List ℕ) → goes_on (pending self.left self.low self.high) (b ∷ l) ≡ after (ranges result) l }
    {
        if self.left == 0 {
            return first_byte(b);
        }
        if b < self.low || self.high < b {
            return None;
        }
        Some(Follow::new(self.left - 1, 0x80, 0xbf))
    }
}

// What follows a first byte, by the rows of table 3-7; `None` for a byte that begins no row.
#[tactic(auto, unfolding(crate::specs::Utf8::table, crate::specs::Utf8::follow))]
fn first_byte(b: u8) -> Option<Follow>
    ensures { ranges result ≡ follow b table }
{
    match b {
        0x00..=0x7f => Some(Follow::new(0, 0x80, 0xbf)),
        0xc2..=0xdf => Some(Follow::new(1, 0x80, 0xbf)),
        0xe0 => Some(Follow::new(2, 0xa0, 0xbf)),
        0xe1..=0xec => Some(Follow::new(2, 0x80, 0xbf)),
        0xed => Some(Follow::new(2, 0x80, 0x9f)),
        0xee..=0xef => Some(Follow::new(2, 0x80, 0xbf)),
        0xf0 => Some(Follow::new(3, 0x90, 0xbf)),
        0xf1..=0xf3 => Some(Follow::new(3, 0x80, 0xbf)),
        0xf4 => Some(Follow::new(3, 0x80, 0x8f)),
        _ => None,
    }
}

// Whether a byte passes the test. It goes on to the end in any case, so that many bytes are tested at once: the iterators' `any` tests one at a time, and
// took several times as long (docs/DECISIONS.md, 54).
fn any<F: Fn(u8) -> bool>(s: &[u8], passes: F) -> bool
    requires { F.IsAlwaysCallable passes }
    ensures { (test : ℕ → Bool) → ((b : ℕ) (r : Bool) → F.post passes b r → r ≡ test b) → result ≡ any test s.now }
{
    let mut found = false;
    for &b in s {
        if passes(b) {
            found = true;
        }
    }
    found
}

// Whether no byte is above 127.
fn is_ascii(s: &[u8]) -> bool
    ensures { result ≡ is_ascii s.now }
{
    !any(s, |b| 0x7f < b)
}

// Whether the bytes are well-formed UTF-8; ASCII is. It goes by `first_byte`, the table by which the lexer reads: core's `from_utf8` promises a definition
// of its own, which would have to be proved to be that of this table, and the table would stay for `code_point`, so only this loop would go.
pub fn well_formed(s: &[u8]) -> bool
    ensures { result ≡ well_formed s.now }
{
    if is_ascii(s) {
        return true;
    }
    let mut next = Follow::new(0, 0x80, 0xbf);
    for &b in s {
        // `step` asks this too; where it alone does, the test for ASCII is joined with it, and the two are asked twice at each byte.
        let behind = if next.left == 0 {
            if b < 0x80 {
                continue;
            }
            first_byte(b)
        } else {
            next.step(b)
        };
        let Some(behind) = behind else {
            return false;
        };
        next = behind;
    }
    next.left == 0
}

// Whether a byte is b.
pub fn contains(s: &[u8], b: u8) -> bool
    ensures { result ≡ contains b s.now }
{
    s.contains(&b)
}

// Whether a byte is NUL.
pub fn has_nul(s: &[u8]) -> bool
    ensures { result ≡ has_nul s.now }
{
    contains(s, 0)
}

// The marking bits of a first byte that `n` bytes follow.
#[tactic(auto, unfolding(crate::specs::Utf8::lead))]
fn lead(n: u8) -> u8
    requires { n ≤ 3 }
    ensures { result ≡ lead n }
{
    match n {
        0 => 0x00,
        1 => 0xc0,
        2 => 0xe0,
        _ => 0xf0,
    }
}

// U+FFFD of one byte, for a byte that begins no code point.
fn replacement() -> CodePoint
    ensures { result ≡ replacement }
{
    CodePoint {
        code: 0xfffd,
        width: 1,
    }
}

// The code point whose first byte gave `bits` and whose other bytes, as `next` says, are to begin `rest`. It counts them and asks for each: an iterator
// over them would need a test before it that none is missing, whose answer is that for a byte out of its range once more. And `Follow::step` would ask
// at each byte whether one follows, which the count says.
fn tail(rest: &[u8], next: Follow, bits: u32) -> CodePoint
    requires { (next.left ≤ 3) × ((next.left ≡ 0 → ⊥) → 128 ≤ next.low) × (bits < 256) }
    ensures { result ≡ read (suc next.left) bits (pending next.left next.low next.high) rest.now }
{
    let mut low = next.low;
    let mut high = next.high;
    let mut value = bits;
    let count = usize::from(next.left);
    for i in 0..count {
        let Some(&b) = rest.get(i) else {
            return replacement();
        };
        if b < low || high < b {
            return replacement();
        }
        value = value * 64 + u32::from(b - 0x80);
        low = 0x80;
        high = 0xbf;
    }
    CodePoint {
        code: value,
        width: count + 1,
    }
}

// The code point whose first byte is `b`, with `rest` behind it. Compiled into `code_point` it would have registers saved there before it is known whether
// a character is ASCII.
#[inline(never)]
fn from_first(b: u8, rest: &[u8]) -> CodePoint
    ensures { result ≡ code_point (b ∷ rest.now) }
{
    let Some(next) = first_byte(b) else {
        return replacement();
    };
    let bits = u32::from(b - lead(next.left));
    tail(rest, next, bits)
}

// The code point at `at`, and the number of bytes that it takes. Where no character is left it is a NUL of no bytes and no `Option`: the Rust's
// lexer reads a NUL there, and the definition says the same.
pub fn code_point(s: &[u8], at: usize) -> CodePoint
    requires { at ≤ length s.now }
    ensures { result ≡ code_point (drop at s.now) }
{
    let Some(&b) = s.get(at) else {
        return CodePoint { code: 0, width: 0 };
    };
    if b < 0x80 {
        return CodePoint {
            code: u32::from(b),
            width: 1,
        };
    }
    from_first(b, &s[at + 1..])
}
