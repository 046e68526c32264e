// The breaks of a document: where the next one begins, where it ends, and how many paragraphs there are between them. Each function is given the
// document and a place in it, and not what stands behind the place, so that each answer is a place of the document.
#![tactic(auto)]

ghost use Rattle.std.specs.Prelude.{◌≡◌, ◌&&◌, ◌≤◌, length};
ghost use Rattle.dollars.specs.Places.{IsNext, Finds};
ghost use Rattle.breaks.specs.Breaks.{FindsEnd, line_feed, two_line_ends, no_line_end};
ghost use Rattle.breaks.specs.Pieces.{pieces, paragraphs};

use dollars::search::next_byte;

// How many bytes the line end at a place has: 1 for LF, 2 for CR LF; none stands there at a CR alone. LF, the usual, is asked for before a second byte
// is: beside a pattern of one byte a pattern of two has the length tested twice for each LF.
#[tactic(auto, using(crate::proofs::BreakLaws::ends))]
fn line_end(s: &[u8], i: usize) -> Option<usize>
    requires { i ≤ length s.now }
    ensures { FindsEnd s.now i result }
{
    match s[i..].split_first() {
        Some((b'\n', _)) => Some(1),
        Some((b'\r', [b'\n', ..])) => Some(2),
        _ => None,
    }
}

// The place of the first line feed from a place on that a blank line follows, a line end directly behind it. What stands before a line
// feed matters at breaks alone, so it is not looked at here. Each search begins behind the line feed that the last one found, so the place is moved
// by hand. It is compiled into both callers, which then go on from where it found one or none, and make no Option to test.
#[inline(always)]
fn next_blank(s: &[u8], from: usize) -> Option<usize>
    requires { from ≤ length s.now }
    ensures { Finds (λ l. line_feed l && two_line_ends l) s.now from result }
{
    let mut i = from;
    while let Some(feed) = next_byte(s, i, b'\n') {
        i = feed + 1;
        if line_end(s, i).is_some() {
            return Some(feed);
        }
    }
    None
}

// The place of the first two line ends from a place on: the first begins at its line feed, or at a CR directly before it. Where there are
// none it is the length, since the paragraph ends there too.
pub fn next_break(s: &[u8], from: usize) -> usize
    requires { from ≤ length s.now }
    ensures { IsNext two_line_ends s.now from result }
{
    match next_blank(s, from) {
        None => s.len(),
        Some(feed) if from < feed && line_end(s, feed - 1) == Some(2) => feed - 1,
        Some(feed) => feed,
    }
}

// The first place from a place on where no line end stands, or the length, since a break ends there too. A line end has one byte or two, so the place goes
// on by its width.
pub fn break_end(s: &[u8], from: usize) -> usize
    requires { from ≤ length s.now }
    ensures { IsNext no_line_end s.now from result }
{
    let mut i = from;
    while let Some(w) = line_end(s, i) {
        i += w;
    }
    i
}

// The number of paragraphs. Where a break ends is found from its first line feed on, so where it begins is not looked for. The turns are counted by hand,
// since the next break is known only behind the last, and no iterator of std finds it.
pub fn count_paragraphs(document: &[u8]) -> usize
    ensures { result ≡ paragraphs (pieces document.now) }
{
    let mut count = 1;
    let mut from = 0;
    while let Some(feed) = next_blank(document, from) {
        count += 1;
        from = break_end(document, feed + 1);
    }
    count
}
