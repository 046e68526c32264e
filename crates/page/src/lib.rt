// The page operation: each paragraph of a document is replaced, or stands as typed where the replacement refuses it.
// What is lent is handed on one by one, since store and work are lent anew for each paragraph, and drafting and writing differ in the buffers beside them.
// The document's length is tested in `page` alone: a struct around it that keeps the bound would be made for the four calls below it, so each says it.
#![tactic(auto)]

mod draft;
mod write;

ghost use Rattle.std.specs.Prelude.{◌≡◌, true, ℕ, ◌*◌, ◌^◌, ◌≤◌, ◌<◌, length};
ghost use Rattle.latex2mathml.specs.declared.Manner.{Manner};
ghost use Rattle.dollars.specs.Dollars.{is_prose};
ghost use Rattle.latex2mathml.specs.Written.{Free};
ghost use Rattle.page.specs.Run.{Pages};

use crate::draft::draft_page;
use crate::write::write_page;
use breaks::count_paragraphs;
use dollars::is_prose;
use error::Refusal;
use latex2mathml::Manner;
use text::put::put;

// What the page operation gives: the length of the output, the number of paragraphs and of those left as typed.
#[derive(Clone, Copy)]
pub struct Totals {
    pub length: usize,
    pub paragraphs: usize,
    pub left: usize,
}

// The page operation in lent arrays: a page that fits into the draft is copied from there, and only a longer one is parsed again.
fn page_in(
    manner: Manner,
    document: &[u8],
    store: &mut [u8],
    work: &mut [u8],
    out: &mut [u8],
    draft: &mut [u8],
    left: &mut [bool],
) -> Result<Totals, Refusal>
    requires { (length document.now ≤ 32768) × (length document.now < 2 * length left.old) }
    ensures { Pages manner document.now (length store.old) (length work.old) result out.old out.new × Free store.old store.new × Free work.old work.new }
{
    let totals = draft_page(manner, document, store, work, draft, left);
    let n = totals.length;
    if out.len() < n {
        return Err(Refusal::OutputTooSmall);
    }
    if n <= draft.len() {
        put(&draft[..n], out, 0);
        return Ok(totals);
    }
    write_page(manner, document, store, work, out, left);
    Ok(totals)
}

// The page operation with DRAFT bytes for the draft and as many marks as given: fewer take less space to clear. There is no heap, so both are arrays,
// with their sizes as const parameters.
fn page_within<const DRAFT: usize, const MARKS: usize>(
    manner: Manner,
    document: &[u8],
    store: &mut [u8],
    work: &mut [u8],
    out: &mut [u8],
) -> Result<Totals, Refusal>
    requires { (length document.now ≤ 32768) × (length document.now < 2 * MARKS) × (DRAFT < 2 ^ 63) × (MARKS < 2 ^ 63) }
    ensures { Pages manner document.now (length store.old) (length work.old) result out.old out.new × Free store.old store.new × Free work.old work.new }
{
    let mut draft = [0u8; DRAFT];
    let mut left = [false; MARKS];
    page_in(manner, document, store, work, out, &mut draft, &mut left)
}

// The page operation on prose that the work buffer has room for: it is copied without a draft, and no paragraph is left.
fn prose_page(document: &[u8], out: &mut [u8]) -> Result<Totals, Refusal>
    requires { (is_prose document.now ≡ true) × (length document.now ≤ 32768) }
    ensures { (manner : Manner) (store work : ℕ) → length document.now ≤ work → Pages manner document.now store work result out.old out.new }
{
    if out.len() < document.len() {
        return Err(Refusal::OutputTooSmall);
    }
    let n = put(document, out, 0);
    Ok(Totals {
        length: n,
        paragraphs: count_paragraphs(document),
        left: 0,
    })
}

// The page operation; a document of 32,768 bytes has at most 16,385 paragraphs.
pub fn page(
    manner: Manner,
    document: &[u8],
    store: &mut [u8],
    work: &mut [u8],
    out: &mut [u8],
) -> Result<Totals, Refusal>
    ensures { Pages manner document.now (length store.old) (length work.old) result out.old out.new × Free store.old store.new × Free work.old work.new }
{
    if 32768 < document.len() {
        return Err(Refusal::TooLong);
    }
    if document.len() <= work.len() && is_prose(document) {
        prose_page(document, out)
    } else if document.len() < 2048 {
        page_within::<16384, 1024>(manner, document, store, work, out)
    } else {
        page_within::<65536, 16385>(manner, document, store, work, out)
    }
}
