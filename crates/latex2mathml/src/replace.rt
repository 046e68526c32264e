// Replacement: the Rust's `replace`, in two passes over a document. The manner, the text and the buffers are handed on one by one: the work
// buffer and the draft are what one pass writes and what another reads, and the store and the output are lent anew for each body.
ghost use Rattle.std.specs.Prelude.{◌≡◌, true, ℕ, ◌+◌, ◌*◌, ◌^◌, ◌≤◌, ◌<◌, length};
ghost use Rattle.latex2mathml.specs.declared.Manner.{Manner};
ghost use Rattle.latex2mathml.specs.Replace.{translate_body, first_pass, second_pass, replacement};
ghost use Rattle.dollars.specs.Dollars.{is_prose};
ghost use Rattle.latex2mathml.specs.Written.{Free, Gives, Replaces};
ghost use Rattle.latex2mathml.specs.Laid.{Laid, Lays, RoomFor, Fits, WrittenThere, Begins, display_of, in_room, passed, growth, Passable, AtMost};

use crate::Manner;
use crate::translate::{check, math_len, put_math, read_nodes};
use attribute::DisplayStyle;
use dollars::{Delimiter, first_mark, is_prose, next_mark, odd_marks, three_dollars};
use error::Refusal;
use print::Source;
use text::put::put;

// Lays a piece at a place, or counts it where it does not fit; the answer is the place behind it. The place may lie behind the buffer's end,
// where it is only counted, so the two are no `Output` (docs/DECISIONS.md, 90).
pub fn lay(piece: &[u8], out: &mut [u8], at: usize) -> usize
    requires { at + length piece.now < 2 ^ 64 }
    ensures { (result ≡ at + length piece.now) × Laid out.old out.new at piece.now }
{
    let end = at + piece.len();
    if out.len() < end {
        end
    } else {
        put(piece, out, at)
    }
}

// Lays the markup of a body at a place, or counts it where it does not fit; what is sure to fit is not measured first. `latex_to_mathml`
// refuses what does not fit, and tests the bytes of the body, which for the bodies of a document were tested with it.
fn lay_body(
    manner: Manner,
    s: &[u8],
    display: DisplayStyle,
    store: &mut [u8],
    out: &mut [u8],
    at: usize,
    sure: bool,
) -> Result<usize, Refusal>
    requires { RoomFor (translate_body manner (length store.old) display s.now) sure out.old at }
    ensures { Lays (translate_body manner (length store.old) display s.now) out.old out.new at result }
{
    let nodes = read_nodes(manner, s, store)?;
    let source = Source {
        dialect: manner.dialect,
        body: s,
        store,
    };
    if sure {
        return Ok(put_math(&source, display, nodes, out, at));
    }
    let end = at + math_len(&source, display, nodes.made);
    if out.len() < end {
        return Ok(end);
    }
    put_math(&source, display, nodes, out, at);
    Ok(end)
}

// How the bodies of a pass are displayed; neither type is of this crate, so it is no `From`.
fn display_of(delimiter: Delimiter) -> DisplayStyle
    ensures { result ≡ display_of delimiter }
{
    match delimiter {
        Delimiter::Single => DisplayStyle::Inline,
        Delimiter::Double => DisplayStyle::Block,
    }
}

// Lays a text with the bodies between its marks translated; the marks are taken first with second, third with fourth, and the search goes on behind the
// second, so the place is moved by hand. The same marks are gone
// through where the text is measured and where it is sure to fit, so `sure` is handed on to each body: a closure for the body would take the
// store and the output at every turn.
fn substitute(
    manner: Manner,
    s: &[u8],
    delimiter: Delimiter,
    store: &mut [u8],
    out: &mut [u8],
    start: usize,
    sure: bool,
) -> Result<usize, Refusal>
    requires { Passable manner (length store.old) (display_of delimiter) delimiter s.now sure out.old start }
    ensures { Lays (passed manner (length store.old) (display_of delimiter) delimiter s.now) out.old out.new start result × AtMost (start + length s.now * growth) result }
{
    let width = delimiter.width();
    let display = display_of(delimiter);
    let mut from: usize = 0;
    let mut at = start;
    while let Some(a) = next_mark(s, from, delimiter) {
        let b = next_mark(s, a + width, delimiter).unwrap();
        at = lay(&s[from..a], out, at);
        at = lay_body(manner, &s[a + width..b], display, store, out, at, sure)?;
        from = b + width;
    }
    Ok(lay(&s[from..], out, at))
}

// Writes the text of a pass that was measured, and so is not refused; the answer is the place behind it.
fn write_pass(
    manner: Manner,
    s: &[u8],
    delimiter: Delimiter,
    store: &mut [u8],
    out: &mut [u8],
    at: usize,
) -> usize
    requires { Passable manner (length store.old) (display_of delimiter) delimiter s.now true out.old at }
    ensures { WrittenThere (passed manner (length store.old) (display_of delimiter) delimiter s.now) out.old out.new at result × (result ≤ at + length s.now * growth) }
{
    substitute(manner, s, delimiter, store, out, at, true).unwrap()
}

// Pass one, with `room` bytes for its text: it goes to a buffer if it fits there. A text without marks is looked through once for them.
fn first_pass(
    manner: Manner,
    document: &[u8],
    store: &mut [u8],
    room: usize,
    out: &mut [u8],
) -> Result<usize, Refusal>
    ensures { Lays (first_pass manner document.now (length store.old) room) out.old out.new 0 result × AtMost (length document.now * growth) result }
{
    check(document, 32768)?;
    if first_mark(document, Delimiter::Double).is_none() {
        if room < document.len() {
            return Err(Refusal::WorkTooSmall);
        }
        return Ok(lay(document, out, 0));
    }
    if odd_marks(document, Delimiter::Double) {
        return Err(Refusal::InvalidNumberOfDollarSigns);
    }
    if three_dollars(document) {
        return Err(Refusal::ThreeDollarSigns);
    }
    let n = substitute(manner, document, Delimiter::Double, store, out, 0, false)?;
    if room < n {
        return Err(Refusal::WorkTooSmall);
    }
    Ok(n)
}

// Pass two: its text goes to a place of a buffer if it fits there.
fn second_pass(
    manner: Manner,
    text: &[u8],
    store: &mut [u8],
    out: &mut [u8],
    at: usize,
) -> Result<usize, Refusal>
    requires { (at + length text.now * growth < 2 ^ 64) }
    ensures { Lays (second_pass manner (length store.old) text.now) out.old out.new at result × AtMost (at + length text.now * growth) result }
{
    if first_mark(text, Delimiter::Single).is_none() {
        return Ok(lay(text, out, at));
    }
    if odd_marks(text, Delimiter::Single) {
        return Err(Refusal::InvalidNumberOfDollarSigns);
    }
    substitute(manner, text, Delimiter::Single, store, out, at, false)
}

// Writes the text of a pass that was drafted: it is copied, or parsed again where the draft is too short for it.
fn settle(
    manner: Manner,
    s: &[u8],
    delimiter: Delimiter,
    store: &mut [u8],
    draft: &[u8],
    n: usize,
    out: &mut [u8],
) -> usize
    requires { Passable manner (length store.old) (display_of delimiter) delimiter s.now true out.old 0 × Begins (passed manner (length store.old) (display_of delimiter) delimiter s.now) draft.now n }
    ensures { WrittenThere (passed manner (length store.old) (display_of delimiter) delimiter s.now) out.old out.new 0 result }
{
    if n <= draft.len() {
        put(&draft[..n], out, 0)
    } else {
        write_pass(manner, s, delimiter, store, out, 0)
    }
}

// Pass two, drafted and then written.
fn finish(
    manner: Manner,
    text: &[u8],
    store: &mut [u8],
    out: &mut [u8],
    draft: &mut [u8],
) -> Result<usize, Refusal>
    requires { (length text.now * growth < 2 ^ 64) }
    ensures { Gives (in_room (length out.old) (second_pass manner (length store.old) text.now)) result out.old out.new }
{
    let n = second_pass(manner, text, store, draft, 0)?;
    if out.len() < n {
        return Err(Refusal::OutputTooSmall);
    }
    settle(manner, text, Delimiter::Single, store, draft, n, out);
    Ok(n)
}

// The replacement in a document, with an array for its drafts: a pass whose text fits there is parsed once.
fn replace_in(
    manner: Manner,
    document: &[u8],
    store: &mut [u8],
    work: &mut [u8],
    out: &mut [u8],
    draft: &mut [u8],
) -> Result<usize, Refusal>
    ensures { Replaces manner document.now (length store.old) result work.old work.new out.old out.new × Free store.old store.new }
{
    let n = first_pass(manner, document, store, work.len(), draft)?;
    settle(manner, document, Delimiter::Double, store, draft, n, work);
    finish(manner, &work[..n], store, out, draft)
}

// The replacement in a document, with N bytes for its drafts: fewer take less space to clear. There is no heap, so they are an array.
fn replace_within<const N: usize>(
    manner: Manner,
    document: &[u8],
    store: &mut [u8],
    work: &mut [u8],
    out: &mut [u8],
) -> Result<usize, Refusal>
    requires { N < 2 ^ 63 }
    ensures { Replaces manner document.now (length store.old) result work.old work.new out.old out.new × Free store.old store.new }
{
    let mut draft = [0u8; N];
    replace_in(manner, document, store, work, out, &mut draft)
}

// The replacement in prose, which is copied without a draft. Prose is well-formed and has no NUL, so only its length is tested.
fn replace_prose(document: &[u8], work: &mut [u8], out: &mut [u8]) -> Result<usize, Refusal>
    requires { is_prose document.now ≡ true }
    ensures { (manner : Manner) (store : ℕ) → Replaces manner document.now store result work.old work.new out.old out.new }
{
    if 32768 < document.len() {
        return Err(Refusal::TooLong);
    }
    if work.len() < document.len() {
        return Err(Refusal::WorkTooSmall);
    }
    put(document, work, 0);
    if out.len() < document.len() {
        return Err(Refusal::OutputTooSmall);
    }
    Ok(put(document, out, 0))
}

// The replacement in a document.
pub fn replace(
    manner: Manner,
    document: &[u8],
    store: &mut [u8],
    work: &mut [u8],
    out: &mut [u8],
) -> Result<usize, Refusal>
    ensures { Replaces manner document.now (length store.old) result work.old work.new out.old out.new × Free store.old store.new }
{
    if is_prose(document) {
        replace_prose(document, work, out)
    } else if document.len() < 2048 {
        replace_within::<16384>(manner, document, store, work, out)
    } else {
        replace_within::<65536>(manner, document, store, work, out)
    }
}

// Lays the replacement in a document at a place, as for an output long enough; the work buffer is left with any bytes.
pub fn lay_replacement(
    manner: Manner,
    document: &[u8],
    store: &mut [u8],
    work: &mut [u8],
    out: &mut [u8],
    at: usize,
) -> Result<usize, Refusal>
    requires { (at + length document.now * (growth * growth) < 2 ^ 63) }
    ensures { Lays (replacement manner document.now (length store.old) (length work.old)) out.old out.new at result × AtMost (at + length document.now * (growth * growth)) result }
{
    let n = first_pass(manner, document, store, work.len(), work)?;
    second_pass(manner, &work[..n], store, out, at)
}

// Writes the replacement that was measured at a place; the answer is the place behind it.
pub fn write_replacement(
    manner: Manner,
    document: &[u8],
    store: &mut [u8],
    work: &mut [u8],
    out: &mut [u8],
    at: usize,
) -> usize
    requires { Fits (replacement manner document.now (length store.old) (length work.old)) out.old at }
    ensures { WrittenThere (replacement manner document.now (length store.old) (length work.old)) out.old out.new at result }
{
    let n = write_pass(manner, document, Delimiter::Double, store, work, 0);
    write_pass(manner, &work[..n], Delimiter::Single, store, out, at)
}
