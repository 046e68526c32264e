// Drafting a page: how its paragraphs come out, laid one behind the other as far as there is room, and which of them stand as typed.
// What is lent is handed on one by one: store and work are lent anew for each paragraph, and drafting has other buffers beside them than writing.
ghost use Rattle.std.specs.Prelude.{◌≡◌, ◌+◌, ◌*◌, ◌^◌, ◌≤◌, ◌<◌, length};
ghost use Rattle.latex2mathml.specs.Laid.{growth};
ghost use Rattle.page.specs.Marks.{Drafted, Totalled};

use crate::Totals;
use breaks::{break_end, next_break};
use latex2mathml::Manner;
use latex2mathml::replace::{lay, lay_replacement};

// Lays a paragraph at a place as it comes out, and marks whether it is left as typed; the answer is the place behind it.
fn draft_paragraph(
    manner: Manner,
    p: &[u8],
    store: &mut [u8],
    work: &mut [u8],
    draft: &mut [u8],
    at: usize,
    left: &mut bool,
) -> usize
    requires { (at + length p.now * (growth * growth) < 2 ^ 63) }
    ensures { Drafted manner p.now (length store.old) (length work.old) draft.old draft.new at left.new result }
{
    let answer = lay_replacement(manner, p, store, work, draft, at);
    *left = answer.is_err();
    match answer {
        Ok(end) => end,
        Err(_) => lay(p, draft, at),
    }
}

// Drafts each paragraph in turn, with the breaks between them, and marks those that are left as typed. The loop is no `for` over k: to know the number of
// the paragraphs before takes a walk more.
pub fn draft_page(
    manner: Manner,
    document: &[u8],
    store: &mut [u8],
    work: &mut [u8],
    draft: &mut [u8],
    left: &mut [bool],
) -> Totals
    requires { (length document.now ≤ 32768) × (length document.now < 2 * length left.old) }
    ensures { Totalled manner document.now (length store.old) (length work.old) draft.new left.new result }
{
    let mut from: usize = 0;
    let mut at: usize = 0;
    let mut k: usize = 0;
    let mut refused: usize = 0;
    loop {
        let e = next_break(document, from);
        at = draft_paragraph(
            manner,
            &document[from..e],
            store,
            work,
            draft,
            at,
            &mut left[k],
        );
        refused += usize::from(left[k]);
        k += 1;
        if e == document.len() {
            return Totals {
                length: at,
                paragraphs: k,
                left: refused,
            };
        }
        from = break_end(document, e);
        at = lay(&document[e..from], draft, at);
    }
}
