// Body translation: the Rust's `latex_to_mathml`.
ghost use Rattle.std.specs.Prelude.{◌≡◌, ◌^◌, ◌<◌, true, ◌&&◌, [], length};
ghost use Rattle.text.specs.Put.{Room, Puts};
ghost use Rattle.text.specs.Xml.{forbidden};
ghost use Rattle.markup.specs.Print.{print_all};
ghost use Rattle.print.specs.Shown.{NodesAt};
ghost use Rattle.print.specs.Measure.{Measurable};
ghost use Rattle.latex2mathml.specs.Manner.{strict, is_strict};
ghost use Rattle.latex2mathml.specs.Translate.{in_math};
ghost use Rattle.parse.specs.Body.{BodyAnswers};
ghost use Rattle.latex2mathml.specs.Written.{Checks, read_nodes, opening, PrintableAt, PrintsAt, MathLong, Free, Translates};

use crate::Manner;
use attribute::DisplayStyle;
use error::Refusal;
use markup::Place;
use parse::ParsedNodes;
use parse::body::parse;
use print::Source;
use text::put::Output;
use text::xml::is_forbidden;
use text::{Dialect, has_nul, well_formed};

// Refuses a text that has more bytes than a limit, one that is not well-formed and one that has a NUL, in this order.
pub(crate) fn check(s: &[u8], limit: usize) -> Result<(), Refusal>
    ensures { Checks limit s.now result }
{
    if limit < s.len() {
        return Err(Refusal::TooLong);
    }
    if !well_formed(s) {
        return Err(Refusal::IllFormed);
    }
    if has_nul(s) {
        return Err(Refusal::NulByte);
    }
    Ok(())
}

// Whether the dialect refuses a body for a character that XML 1.0 forbids.
fn refuses(dialect: Dialect, s: &[u8]) -> bool
    ensures { result ≡ (is_strict dialect && forbidden s.now) }
{
    match dialect {
        Dialect::Old => false,
        Dialect::Strict => is_forbidden(s),
    }
}

// The nodes of a body, with their records in a lent store; a character that XML 1.0 forbids is looked for behind the parse.
pub(crate) fn read_nodes(manner: Manner, s: &[u8], store: &mut [u8]) -> Result<ParsedNodes, Refusal>
    ensures { BodyAnswers s.now store.new (read_nodes manner s.now (length store.old)) result }
{
    let nodes = parse(s, store, 256)?;
    if refuses(manner.dialect, s) {
        return Err(Refusal::ForbiddenCharacter);
    }
    Ok(nodes)
}

// Puts the opening tag of the wrapper, whose length stands in `wrapper_len`: one function for both would be asked at each piece which it is to do.
fn put_opening(display: DisplayStyle, out: &mut Output)
    requires { Room out.old (length (opening display)) }
    ensures { Puts out.old out.new (opening display) }
{
    out.put(b"<math xmlns=\"http://www.w3.org/1998/Math/MathML\" display=\"");
    out.put(display.name());
    out.put(b"\">");
}

// Puts the markup of the nodes of a body in its wrapper at a place, and answers the place behind it. Its callers have a buffer and a place,
// so the output is made here.
pub(crate) fn put_math(
    source: &Source,
    display: DisplayStyle,
    nodes: ParsedNodes,
    out: &mut [u8],
    at: usize,
) -> usize
    requires { (nodes.count < 2 ^ 32) × PrintableAt (NodesAt source.now.body.now source.now.store.now nodes.made nodes.first nodes.count) (λ ns. in_math display (print_all source.now.dialect source.now.body.now ns)) out.old at }
    ensures { PrintsAt (NodesAt source.now.body.now source.now.store.now nodes.made nodes.first nodes.count) (λ ns. in_math display (print_all source.now.dialect source.now.body.now ns)) out.old out.new at result }
{
    let mut output = Output::new(out, at);
    put_opening(display, &mut output);
    source.print_nodes(
        Place::Plain,
        nodes.first,
        nodes.count as u32,
        nodes.made,
        &mut output,
    );
    output.put(b"</math>");
    output.at
}

// The length of the wrapper.
fn wrapper_len(display: DisplayStyle) -> usize
    ensures { result ≡ length (in_math display []) }
{
    match display {
        DisplayStyle::Block => 72,
        DisplayStyle::Inline => 73,
    }
}

// The length of the markup of the nodes of the body that fill the first `made` records, in its wrapper.
pub(crate) fn math_len(source: &Source, display: DisplayStyle, made: usize) -> usize
    requires { Measurable source.now.body.now source.now.store.now made }
    ensures { MathLong source.now.dialect display source.now.body.now source.now.store.now made result }
{
    wrapper_len(display) + source.measure(made).length
}

// The markup of a body, with the nodes of its tree in a lent store: measured, then written.
pub fn latex_to_mathml(
    manner: Manner,
    s: &[u8],
    display: DisplayStyle,
    store: &mut [u8],
    out: &mut [u8],
) -> Result<usize, Refusal>
    ensures { Translates manner s.now display (length store.old) result out.old out.new × Free store.old store.new }
{
    check(s, 4096)?;
    let nodes = read_nodes(manner, s, store)?;
    let source = Source {
        dialect: manner.dialect,
        body: s,
        store,
    };
    let length = math_len(&source, display, nodes.made);
    if out.len() < length {
        return Err(Refusal::OutputTooSmall);
    }
    put_math(&source, display, nodes, out, 0);
    Ok(length)
}

// The strict markup of a body whose old markup is to be replaced: the body is translated again.
pub fn convert(
    s: &[u8],
    display: DisplayStyle,
    store: &mut [u8],
    out: &mut [u8],
) -> Result<usize, Refusal>
    ensures { Translates strict s.now display (length store.old) result out.old out.new × Free store.old store.new }
{
    let manner = Manner {
        dialect: Dialect::Strict,
    };
    latex_to_mathml(manner, s, display, store, out)
}
