// What a C caller calls: each function of the crate panel under its own name, with its promise.
#![tactic(auto)]

ghost use Rattle.std.specs.Prelude.{◌≡◌, length};
ghost use Rattle.latex2mathml.specs.Manner.{old, strict};
ghost use Rattle.latex2mathml.specs.Translate.{translate};
ghost use Rattle.latex2mathml.specs.Replace.{replace};
ghost use Rattle.latex2mathml.specs.Written.{Free};
ghost use Rattle.page.specs.Page.{page};
ghost use Rattle.panel.specs.Calls.{style_of, manner_of, TranslateCall, ReplaceCall, PageCall};

// Body translation in a dialect.
#[unsafe(no_mangle)]
pub extern "C" fn latex_to_mathml_in(
    latex: &[u8],
    block: bool,
    strict: bool,
    store: &mut [u8],
    output: &mut [u8],
    size: &mut u64,
) -> u32
    ensures { TranslateCall (translate (manner_of strict) latex.now (style_of block) (length store.old) (length output.old)) result size.new output.old output.new × Free store.old store.new }
{
    panel::latex_to_mathml_in(latex, block, strict, store, output, size)
}

// Body translation.
#[unsafe(no_mangle)]
pub extern "C" fn latex_to_mathml(
    latex: &[u8],
    block: bool,
    store: &mut [u8],
    output: &mut [u8],
    size: &mut u64,
) -> u32
    ensures { TranslateCall (translate old latex.now (style_of block) (length store.old) (length output.old)) result size.new output.old output.new × Free store.old store.new }
{
    panel::latex_to_mathml(latex, block, store, output, size)
}

// The converter of a body that was translated in the old dialect: it is translated again, in the strict one.
#[unsafe(no_mangle)]
pub extern "C" fn latex_convert(
    latex: &[u8],
    block: bool,
    store: &mut [u8],
    output: &mut [u8],
    size: &mut u64,
) -> u32
    ensures { TranslateCall (translate strict latex.now (style_of block) (length store.old) (length output.old)) result size.new output.old output.new × Free store.old store.new }
{
    panel::latex_convert(latex, block, store, output, size)
}

// Replacement in a document, in a dialect; the work buffer is lent apart, since the text of pass one stands in it afterwards.
#[unsafe(no_mangle)]
pub extern "C" fn latex_replace_in(
    document: &[u8],
    strict: bool,
    store: &mut [u8],
    work: &mut [u8],
    output: &mut [u8],
    size: &mut u64,
) -> u32
    ensures { ReplaceCall (replace (manner_of strict) document.now (length store.old) (length work.old) (length output.old)) result size.new work.old work.new output.old output.new × Free store.old store.new }
{
    panel::latex_replace_in(document, strict, store, work, output, size)
}

// Replacement in a document.
#[unsafe(no_mangle)]
pub extern "C" fn latex_replace(
    document: &[u8],
    store: &mut [u8],
    work: &mut [u8],
    output: &mut [u8],
    size: &mut u64,
) -> u32
    ensures { ReplaceCall (replace old document.now (length store.old) (length work.old) (length output.old)) result size.new work.old work.new output.old output.new × Free store.old store.new }
{
    panel::latex_replace(document, store, work, output, size)
}

// The page operation in a dialect; the counts tell the host how many paragraphs there are and how many were left as typed.
#[unsafe(no_mangle)]
pub extern "C" fn latex_page_in(
    document: &[u8],
    strict: bool,
    store: &mut [u8],
    work: &mut [u8],
    output: &mut [u8],
    size: &mut u64,
    paragraphs: &mut u64,
    refused: &mut u64,
) -> u32
    ensures { PageCall (page (manner_of strict) document.now (length store.old) (length work.old) (length output.old)) result size.new paragraphs.new refused.new output.old output.new × Free store.old store.new × Free work.old work.new }
{
    panel::latex_page_in(
        document, strict, store, work, output, size, paragraphs, refused,
    )
}

// The page operation.
#[unsafe(no_mangle)]
pub extern "C" fn latex_page(
    document: &[u8],
    store: &mut [u8],
    work: &mut [u8],
    output: &mut [u8],
    size: &mut u64,
    paragraphs: &mut u64,
    refused: &mut u64,
) -> u32
    ensures { PageCall (page old document.now (length store.old) (length work.old) (length output.old)) result size.new paragraphs.new refused.new output.old output.new × Free store.old store.new × Free work.old work.new }
{
    panel::latex_page(document, store, work, output, size, paragraphs, refused)
}
