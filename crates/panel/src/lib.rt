// The operations as the panel's host program calls them: numbers and byte slices, and the number of a refusal, or 0, as the answer.
// The crate panel_c exports them: a crate that exports is a static library, which no crate can use, so the promises here, and the theorem about runs of them,
// have a crate of their own.
// The three names without an ending are of the old dialect. Those that end in `_in` take a yes or no for the strict one.
#![tactic(auto)]

ghost use Rattle.std.specs.Prelude.{◌≡◌, length};
ghost use Rattle.latex2mathml.specs.Manner.{old, strict};
ghost use Rattle.latex2mathml.specs.Translate.{translate};
ghost use Rattle.latex2mathml.specs.Replace.{replace};
ghost use Rattle.latex2mathml.specs.Written.{answer_number, answer_length, Free};
ghost use Rattle.page.specs.Page.{page};
ghost use Rattle.panel.specs.Calls.{style_of, manner_of, TranslateCall, ReplaceCall, PageCall};

use attribute::DisplayStyle;
use error::Refusal;
use latex2mathml::Manner;
use text::Dialect;

// The display that a yes or no asks for. It is no `From`, nor is the next: C gives a bool, and the types are of other crates, where a bool says nothing.
#[tactic(auto, unfolding(crate::specs::Calls::style_of))]
fn style_of(block: bool) -> DisplayStyle
    ensures { result ≡ style_of block }
{
    if block {
        DisplayStyle::Block
    } else {
        DisplayStyle::Inline
    }
}

// The manner that a yes or no asks for.
fn manner_of(strict: bool) -> Manner
    ensures { result ≡ manner_of strict }
{
    let dialect = if strict {
        Dialect::Strict
    } else {
        Dialect::Old
    };
    Manner { dialect }
}

// An answer in numbers; the size of the output is written on refusal too, so that the host reads no old one.
#[tactic(auto, unfolding(latex2mathml::specs::Written::answer_number, latex2mathml::specs::Written::answer_length))]
fn in_numbers(answer: Result<usize, Refusal>, size: &mut u64) -> u32
    ensures { (result ≡ answer_number answer) × (size.new ≡ answer_length answer) }
{
    match answer {
        Ok(n) => {
            *size = n as u64;
            0
        }
        Err(r) => {
            *size = 0;
            u32::from(r)
        }
    }
}

// Body translation in a dialect.
pub fn latex_to_mathml_in(
    latex: &[u8],
    block: bool,
    strict: bool,
    store: &mut [u8],
    output: &mut [u8],
    size: &mut u64,
) -> u32
    ensures { TranslateCall (translate (manner_of strict) latex.now (style_of block) (length store.old) (length output.old)) result size.new output.old output.new × Free store.old store.new }
{
    let manner = manner_of(strict);
    let display = style_of(block);
    let answer = latex2mathml::translate::latex_to_mathml(manner, latex, display, store, output);
    in_numbers(answer, size)
}

// Body translation.
pub fn latex_to_mathml(
    latex: &[u8],
    block: bool,
    store: &mut [u8],
    output: &mut [u8],
    size: &mut u64,
) -> u32
    ensures { TranslateCall (translate old latex.now (style_of block) (length store.old) (length output.old)) result size.new output.old output.new × Free store.old store.new }
{
    latex_to_mathml_in(latex, block, false, store, output, size)
}

// The converter of a body that was translated in the old dialect: it is translated again, in the strict one.
pub fn latex_convert(
    latex: &[u8],
    block: bool,
    store: &mut [u8],
    output: &mut [u8],
    size: &mut u64,
) -> u32
    ensures { TranslateCall (translate strict latex.now (style_of block) (length store.old) (length output.old)) result size.new output.old output.new × Free store.old store.new }
{
    let display = style_of(block);
    let answer = latex2mathml::translate::convert(latex, display, store, output);
    in_numbers(answer, size)
}

// Replacement in a document, in a dialect; the work buffer is lent apart, since the text of pass one stands in it afterwards.
pub fn latex_replace_in(
    document: &[u8],
    strict: bool,
    store: &mut [u8],
    work: &mut [u8],
    output: &mut [u8],
    size: &mut u64,
) -> u32
    ensures { ReplaceCall (replace (manner_of strict) document.now (length store.old) (length work.old) (length output.old)) result size.new work.old work.new output.old output.new × Free store.old store.new }
{
    let manner = manner_of(strict);
    let answer = latex2mathml::replace::replace(manner, document, store, work, output);
    in_numbers(answer, size)
}

// Replacement in a document.
pub fn latex_replace(
    document: &[u8],
    store: &mut [u8],
    work: &mut [u8],
    output: &mut [u8],
    size: &mut u64,
) -> u32
    ensures { ReplaceCall (replace old document.now (length store.old) (length work.old) (length output.old)) result size.new work.old work.new output.old output.new × Free store.old store.new }
{
    latex_replace_in(document, false, store, work, output, size)
}

// The page operation in a dialect; the counts tell the host how many paragraphs there are and how many were left as typed. They are written with the size,
// by one match: with `in_numbers` for the size the answer would be taken apart twice.
pub fn latex_page_in(
    document: &[u8],
    strict: bool,
    store: &mut [u8],
    work: &mut [u8],
    output: &mut [u8],
    size: &mut u64,
    paragraphs: &mut u64,
    refused: &mut u64,
) -> u32
    ensures { PageCall (page (manner_of strict) document.now (length store.old) (length work.old) (length output.old)) result size.new paragraphs.new refused.new output.old output.new × Free store.old store.new × Free work.old work.new }
{
    let manner = manner_of(strict);
    match page::page(manner, document, store, work, output) {
        Ok(totals) => {
            *size = totals.length as u64;
            *paragraphs = totals.paragraphs as u64;
            *refused = totals.left as u64;
            0
        }
        Err(r) => {
            *size = 0;
            *paragraphs = 0;
            *refused = 0;
            u32::from(r)
        }
    }
}

// The page operation.
pub fn latex_page(
    document: &[u8],
    store: &mut [u8],
    work: &mut [u8],
    output: &mut [u8],
    size: &mut u64,
    paragraphs: &mut u64,
    refused: &mut u64,
) -> u32
    ensures { PageCall (page old document.now (length store.old) (length work.old) (length output.old)) result size.new paragraphs.new refused.new output.old output.new × Free store.old store.new × Free work.old work.new }
{
    latex_page_in(
        document, false, store, work, output, size, paragraphs, refused,
    )
}
