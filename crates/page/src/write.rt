// Writing a page that has been measured: each paragraph replaced or as typed, and the breaks between them.
// What is lent is handed on one by one: store and work are lent anew for each paragraph, and writing has other buffers beside them than drafting.
ghost use Rattle.std.specs.Prelude.{◌≡◌, true, length};
ghost use Rattle.text.specs.Put.{RoomAt, PutsAt};
ghost use Rattle.breaks.specs.Pieces.{pieces};
ghost use Rattle.page.specs.Page.{shown, shown_all};
ghost use Rattle.page.specs.Marks.{is_left, Marked};

use breaks::{break_end, next_break};
use latex2mathml::Manner;
use latex2mathml::replace::write_replacement;
use text::put::put;

// Writes a paragraph at a place as it comes out: replaced, or as typed, by the yes or no that drafting put down for it; an enum of the two would say no
// more than the name does.
fn write_paragraph(
    manner: Manner,
    p: &[u8],
    store: &mut [u8],
    work: &mut [u8],
    out: &mut [u8],
    at: usize,
    typed: bool,
) -> usize
    requires { (typed ≡ is_left manner (length store.old) (length work.old) p.now) × RoomAt out.old at (length (shown manner (length store.old) (length work.old) p.now)) }
    ensures { PutsAt out.old out.new at (shown manner (length store.old) (length work.old) p.now) result }
{
    if typed {
        put(p, out, at)
    } else {
        write_replacement(manner, p, store, work, out, at)
    }
}

// Writes each paragraph in turn and copies the breaks between them. Drafting has the same loop: each turn lends its own buffers, and one walk for both
// would take a closure that holds all of them, and a law for it. It is no `for`: k goes with the paragraphs, whose end is the document's.
pub fn write_page(
    manner: Manner,
    document: &[u8],
    store: &mut [u8],
    work: &mut [u8],
    out: &mut [u8],
    left: &[bool],
) -> usize
    requires { Marked manner document.now (length store.old) (length work.old) left.now × RoomAt out.old 0 (length (shown_all manner (length store.old) (length work.old) (pieces document.now))) }
    ensures { PutsAt out.old out.new 0 (shown_all manner (length store.old) (length work.old) (pieces document.now)) result }
{
    let mut from: usize = 0;
    let mut at: usize = 0;
    let mut k: usize = 0;
    loop {
        let e = next_break(document, from);
        at = write_paragraph(manner, &document[from..e], store, work, out, at, left[k]);
        if e == document.len() {
            return at;
        }
        from = break_end(document, e);
        at = put(&document[e..from], out, at);
        k += 1;
    }
}
