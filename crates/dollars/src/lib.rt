// The dollars of a document. A search is given a text and a place in it, as in `search`, so that each answer is a place of the whole text. A walk
// from mark to mark goes on behind the place that it found, so there is nothing to count, and no iterator of std knows the search.
#![tactic(auto)]

pub mod search;

ghost use Rattle.std.specs.Prelude.{◌≡◌, ◌≤◌, ltb, length};
ghost use Rattle.dollars.specs.Dollars.{dollar, two_dollars, three_dollars, mark, width, unusual, is_prose};
ghost use Rattle.dollars.specs.Places.{places, odd, Finds};

use crate::search::{next_byte, next_pair, stands_at};
use text::contains;

// What stands before and behind a formula: one dollar or two.
#[derive(Clone, Copy, PartialEq, Eq)]
pub enum Delimiter {
    Single,
    Double,
}

impl Delimiter {
    // The number of its dollars.
    pub fn width(self) -> usize
        ensures { result ≡ width self }
    {
        match self {
            Delimiter::Single => 1,
            Delimiter::Double => 2,
        }
    }
}

// Whether a byte is NUL, or not ASCII.
#[tactic(auto, unfolding(crate::specs::Dollars::unusual))]
fn is_unusual(b: u8) -> bool
    ensures { result ≡ unusual b }
{
    b == 0 || 0x7f < b
}

// Whether no byte is NUL or above 127, and none is a dollar. A flag for each test, so that many bytes are tested at once: one flag that is
// set in two places would be a branch.
pub fn is_prose(s: &[u8]) -> bool
    ensures { result ≡ is_prose s.now }
{
    let mut unusual = false;
    let mut dollar = false;
    for &b in s {
        unusual |= is_unusual(b);
        dollar |= b == b'$';
    }
    !(unusual | dollar)
}

// The place of the next mark from a place on.
pub fn next_mark(s: &[u8], from: usize, delimiter: Delimiter) -> Option<usize>
    requires { from ≤ length s.now }
    ensures { Finds (mark delimiter) s.now from result }
{
    match delimiter {
        Delimiter::Single => next_byte(s, from, b'$'),
        Delimiter::Double => next_pair(s, from, b'$'),
    }
}

// The place of the first mark; a text without dollars has none.
pub fn first_mark(s: &[u8], delimiter: Delimiter) -> Option<usize>
    ensures { Finds (mark delimiter) s.now 0 result }
{
    if !contains(s, b'$') {
        return None;
    }
    next_mark(s, 0, delimiter)
}

// Whether the number of dollars is odd. Many bytes are tested at once, as above: a walk from mark to mark, as below, takes several times as long.
fn odd_dollars(s: &[u8]) -> bool
    ensures { result ≡ odd (places dollar 0 s.now) }
{
    let mut is_odd = false;
    for &b in s {
        is_odd ^= b == b'$';
    }
    is_odd
}

// Whether the number of windows of two dollars, which may overlap, is odd.
fn odd_windows(s: &[u8]) -> bool
    ensures { result ≡ odd (places two_dollars 0 s.now) }
{
    let mut is_odd = false;
    let mut i = 0;
    while let Some(first) = next_mark(s, i, Delimiter::Double) {
        is_odd = !is_odd;
        i = first + 1; // windows may overlap
    }
    is_odd
}

// Whether the number of marks is odd.
pub fn odd_marks(s: &[u8], delimiter: Delimiter) -> bool
    ensures { result ≡ odd (places (mark delimiter) 0 s.now) }
{
    match delimiter {
        Delimiter::Single => odd_dollars(s),
        Delimiter::Double => odd_windows(s),
    }
}

// Whether three dollars stand in a row.
pub fn three_dollars(s: &[u8]) -> bool
    ensures { result ≡ ltb 0 (length (places three_dollars 0 s.now)) }
{
    let mut i = 0;
    while let Some(first) = next_mark(s, i, Delimiter::Double) {
        i = first + 1;
        if stands_at(s, first + 2, b'$') {
            return true;
        }
    }
    false
}
