// What is printed before the parts of a node and behind them; no `Display`, and dialect and output apart, as in `leaf`.
ghost use Rattle.std.specs.Prelude.{◌≡◌, length};
ghost use Rattle.text.specs.Put.{Room, Puts};
ghost use Rattle.markup.specs.Print.{align_text};
ghost use Rattle.markup.specs.Fronts.{accent_text, front_one, back_one, front_two, back_two, front_three, back_three};

use crate::leaf::{fixed_text, put_in};
use ast::{One, Three, Two};
use attribute::{Accent, ColumnAlign, DisplayStyle, LineThickness};
use text::Dialect;
use text::put::Output;
use text::xml::put_character;

// Puts the operator over or under a node, and the piece that closes the node.
fn put_accented(dialect: Dialect, a: Accent, c: u32, end: &[u8], out: &mut Output)
    requires { Room out.old (length (accent_text dialect a c end.now)) }
    ensures { Puts out.old out.new (accent_text dialect a c end.now) }
{
    out.put(b"<mo accent=\"");
    out.put(a.name());
    out.put(b"\">");
    put_character(dialect, c, out);
    out.put(end);
}

// Puts what stands before the part of a node with one part.
pub fn put_front_one(dialect: Dialect, k: One, out: &mut Output)
    requires { Room out.old (length (front_one dialect k)) }
    ensures { Puts out.old out.new (front_one dialect k) }
{
    match k {
        One::OverOp(_, _) => out.put(b"<mover>"),
        One::UnderOp(_, _) => out.put(b"<munder>"),
        One::Sqrt => out.put(b"<msqrt>"),
        One::Fenced(t, _) => put_in(
            b"<mrow><mo stretchy=\"true\" form=\"prefix\">",
            fixed_text(dialect, t),
            b"</mo>",
            out,
        ),
        One::Slashed => (),
        One::Style(DisplayStyle::Block) => out.put(b"<mstyle displaystyle=\"true\">"),
        One::Style(DisplayStyle::Inline) => out.put(b"<mstyle displaystyle=\"false\">"),
    }
}

// Puts what stands behind the part of a node with one part.
pub fn put_back_one(dialect: Dialect, k: One, out: &mut Output)
    requires { Room out.old (length (back_one dialect k)) }
    ensures { Puts out.old out.new (back_one dialect k) }
{
    match k {
        One::OverOp(c, a) => put_accented(dialect, a, c, b"</mo></mover>", out),
        One::UnderOp(c, a) => put_accented(dialect, a, c, b"</mo></munder>", out),
        One::Sqrt => out.put(b"</msqrt>"),
        One::Fenced(_, u) => put_in(
            b"<mo stretchy=\"true\" form=\"postfix\">",
            fixed_text(dialect, u),
            b"</mo></mrow>",
            out,
        ),
        One::Slashed => (),
        One::Style(_) => out.put(b"</mstyle>"),
    }
}

// The alignment of a matrix, in the old dialect without quotes.
pub fn align_text(dialect: Dialect, align: ColumnAlign) -> &'static [u8]
    ensures { result.now ≡ align_text dialect align }
{
    match dialect {
        Dialect::Old => align.attribute(),
        Dialect::Strict => match align {
            ColumnAlign::Center => b"",
            ColumnAlign::Left => b" columnalign=\"left\"",
        },
    }
}

// What stands before the parts of a node with two parts. The tag of a fraction without a line is written out, though `LineThickness` knows its attribute:
// what is answered is one text that is there already.
#[tactic(auto, unfolding(text::specs::Examples::text_opens, attribute::specs::Names::line_thickness, markup::specs::Fronts::front_two))]
pub fn front_two(k: Two) -> &'static [u8]
    ensures { result.now ≡ front_two k }
{
    match k {
        Two::Subscript => b"<msub>",
        Two::Superscript => b"<msup>",
        Two::Overset => b"<mover>",
        Two::Underset => b"<munder>",
        Two::Under => b"<munder>",
        Two::Root => b"<mroot>",
        Two::Frac(LineThickness::Medium) => b"<mfrac>",
        Two::Frac(LineThickness::Zero) => b"<mfrac linethickness=\"0\">",
    }
}

// What stands behind the parts of a node with two parts.
#[tactic(auto, unfolding(text::specs::Examples::text_opens, markup::specs::Fronts::back_two))]
pub fn back_two(k: Two) -> &'static [u8]
    ensures { result.now ≡ back_two k }
{
    match k {
        Two::Subscript => b"</msub>",
        Two::Superscript => b"</msup>",
        Two::Overset => b"</mover>",
        Two::Underset => b"</munder>",
        Two::Under => b"</munder>",
        Two::Root => b"</mroot>",
        Two::Frac(_) => b"</mfrac>",
    }
}

// What stands before the parts of a node with three parts.
#[tactic(auto, unfolding(text::specs::Examples::text_opens, markup::specs::Fronts::front_three))]
pub fn front_three(k: Three) -> &'static [u8]
    ensures { result.now ≡ front_three k }
{
    match k {
        Three::SubSup => b"<msubsup>",
        Three::UnderOver => b"<munderover>",
    }
}

// What stands behind the parts of a node with three parts.
#[tactic(auto, unfolding(text::specs::Examples::text_opens, markup::specs::Fronts::back_three))]
pub fn back_three(k: Three) -> &'static [u8]
    ensures { result.now ≡ back_three k }
{
    match k {
        Three::SubSup => b"</msubsup>",
        Three::UnderOver => b"</munderover>",
    }
}
