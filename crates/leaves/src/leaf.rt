// The leaves, of the Rust's `Display` for `Node`. It is no `Display`: that has no parameter for the dialect and the body, `write_str` wants a `&str`
// where a name is bytes, and what is written is promised only where the answer is Ok. The dialect is read and the output is written, so the two are no
// struct, as in `text::xml`.
ghost use Rattle.std.specs.Prelude.{◌≡◌, ◌++◌, length};
ghost use Rattle.text.specs.Text.{bytes};
ghost use Rattle.text.specs.Put.{Room, Puts};
ghost use Rattle.text.specs.Xml.{in_text};
ghost use Rattle.token.specs.Debug.{Inside};
ghost use Rattle.lexer.specs.Letters.{letters, encode_all};
ghost use Rattle.markup.specs.Print.{fixed_text, character, stretched_text, variant_text, letter_markup, operator_markup, sized_end, sized_markup, parse_error, undefined_markup, print_leaf, at_place};
ghost use Rattle.ast.specs.Tree.{leaf};
ghost use Rattle.ast.specs.Inside.{LeafInside};

use ast::{Leaf, Stretched};
use attribute::Variant;
use lexer::letters::put_letters;
use markup::Place;
use text::Dialect;
use text::put::Output;
use text::xml::put_character;
use token::debug::put_debug;
use token::texts::{text_in, text_of, width_of};
use token::{Undefined, operator_in};

// A fixed text in a dialect.
pub(crate) fn fixed_text(dialect: Dialect, t: u32) -> &'static [u8]
    ensures { result.now ≡ fixed_text dialect t }
{
    text_of(text_in(dialect, t))
}

// Puts a text between two pieces. Here and in the two below what stands between differs in kind: bytes, a character, and letters that are
// read again; the contract of a closure for it would be longer than the two lines that it spares.
pub(crate) fn put_in(front: &[u8], text: &[u8], back: &[u8], out: &mut Output)
    requires { Room out.old (length (front.now ++ text.now ++ back.now)) }
    ensures { Puts out.old out.new (front.now ++ text.now ++ back.now) }
{
    out.put(front);
    out.put(text);
    out.put(back);
}

// Puts a character between two pieces.
fn put_character_in(dialect: Dialect, front: &[u8], c: u32, back: &[u8], out: &mut Output)
    requires { Room out.old (length (front.now ++ character dialect c ++ back.now)) }
    ensures { Puts out.old out.new (front.now ++ character dialect c ++ back.now) }
{
    out.put(front);
    put_character(dialect, c, out);
    out.put(back);
}

// Puts the letters at the head of a text between two pieces.
fn put_letters_in(dialect: Dialect, front: &[u8], text: &[u8], back: &[u8], out: &mut Output)
    requires { Room out.old (length (front.now ++ in_text dialect (encode_all (letters text.now)) ++ back.now)) }
    ensures { Puts out.old out.new (front.now ++ in_text dialect (encode_all (letters text.now)) ++ back.now) }
{
    out.put(front);
    put_letters(dialect, text, out);
    out.put(back);
}

// Puts a letter with its variant, and what stands behind its character.
fn put_variant_letter(dialect: Dialect, c: u32, v: Variant, end: &[u8], out: &mut Output)
    requires { Room out.old (length (bytes "<mi" ++ variant_text v ++ bytes ">" ++ character dialect c ++ end.now)) }
    ensures { Puts out.old out.new (bytes "<mi" ++ variant_text v ++ bytes ">" ++ character dialect c ++ end.now) }
{
    out.put(b"<mi mathvariant=\"");
    out.put(v.name());
    out.put(b"\">");
    put_character(dialect, c, out);
    out.put(end);
}

// Puts a letter: italic needs no attribute.
fn put_letter(dialect: Dialect, c: u32, v: Variant, out: &mut Output)
    requires { Room out.old (length (letter_markup dialect c v)) }
    ensures { Puts out.old out.new (letter_markup dialect c v) }
{
    if v.is_italic() {
        return put_character_in(dialect, b"<mi>", c, b"</mi>", out);
    }
    put_variant_letter(dialect, c, v, b"</mi>", out);
}

// Puts a letter at a place: under a slash it has its variant in any case.
fn put_letter_at(dialect: Dialect, place: Place, c: u32, v: Variant, out: &mut Output)
    requires { Room out.old (length (at_place dialect place (leaf (Leaf.Letter c v)) (letter_markup dialect c v))) }
    ensures { Puts out.old out.new (at_place dialect place (leaf (Leaf.Letter c v)) (letter_markup dialect c v)) }
{
    match place {
        Place::Slashed => put_variant_letter(dialect, c, v, b"&#x0338;</mi>", out),
        _ => put_letter(dialect, c, v, out),
    }
}

// Puts an operator: a partial differential is italic.
fn put_operator(dialect: Dialect, c: u32, out: &mut Output)
    requires { Room out.old (length (operator_markup dialect c)) }
    ensures { Puts out.old out.new (operator_markup dialect c) }
{
    match c {
        0x2202 => out.put(b"<mo mathvariant=\"italic\">\xe2\x88\x82</mo>"),
        _ => put_character_in(dialect, b"<mo>", operator_in(dialect, c), b"</mo>", out),
    }
}

// Puts an operator at a place: under a slash a partial differential has no attribute.
fn put_operator_at(dialect: Dialect, place: Place, c: u32, out: &mut Output)
    requires { Room out.old (length (at_place dialect place (leaf (Leaf.Operator c)) (operator_markup dialect c))) }
    ensures { Puts out.old out.new (at_place dialect place (leaf (Leaf.Operator c)) (operator_markup dialect c)) }
{
    match place {
        Place::Slashed => put_character_in(
            dialect,
            b"<mo>",
            operator_in(dialect, c),
            b"&#x0338;</mo>",
            out,
        ),
        _ => put_operator(dialect, c, out),
    }
}

// Puts a stretched operator.
fn put_stretched(dialect: Dialect, o: Stretched, out: &mut Output)
    requires { Room out.old (length (bytes "<mo stretchy=\"true\">" ++ stretched_text dialect o ++ bytes "</mo>")) }
    ensures { Puts out.old out.new (bytes "<mo stretchy=\"true\">" ++ stretched_text dialect o ++ bytes "</mo>") }
{
    match o {
        Stretched::Character(c) => put_character_in(
            dialect,
            b"<mo stretchy=\"true\">",
            operator_in(dialect, c),
            b"</mo>",
            out,
        ),
        Stretched::Fixed(t) => put_in(
            b"<mo stretchy=\"true\">",
            fixed_text(dialect, t),
            b"</mo>",
            out,
        ),
    }
}

// What closes a sized parenthesis, in the old dialect as the Rust closes it.
#[tactic(auto, unfolding(text::specs::Examples::text_opens, markup::specs::Print::sized_end))]
pub(crate) fn sized_end(dialect: Dialect) -> &'static [u8]
    ensures { result.now ≡ sized_end dialect }
{
    match dialect {
        Dialect::Old => b"</mro></mrow>",
        Dialect::Strict => b"</mo></mrow>",
    }
}

// Puts a sized parenthesis.
fn put_sized_paren(dialect: Dialect, z: u32, t: u32, out: &mut Output)
    requires { Room out.old (length (sized_markup dialect z t)) }
    ensures { Puts out.old out.new (sized_markup dialect z t) }
{
    let size = fixed_text(dialect, z);
    out.put(b"<mrow><mo maxsize=\"");
    out.put(size);
    out.put(b"\" minsize=\"");
    out.put(size);
    out.put(b"\">");
    out.put(fixed_text(dialect, t));
    out.put(sized_end(dialect));
}

// Puts an ampersand, which begins a cell of a matrix. One function for it and for a new line would take the leaf and both of its texts, and
// a law that they belong together. Both take the dialect for their contracts, since the markup of a leaf is a dialect's.
fn put_ampersand(dialect: Dialect, place: Place, out: &mut Output)
    requires { Room out.old (length (at_place dialect place (leaf Leaf.Ampersand) (parse_error dialect (bytes "Ampersand")))) }
    ensures { Puts out.old out.new (at_place dialect place (leaf Leaf.Ampersand) (parse_error dialect (bytes "Ampersand"))) }
{
    match place {
        Place::Cell => out.put(b"</mtd><mtd>"),
        _ => out.put(b"<mtext>[PARSE ERROR: Ampersand]</mtext>"),
    }
}

// Puts a new line, which begins a row of a matrix.
fn put_new_line(dialect: Dialect, place: Place, out: &mut Output)
    requires { Room out.old (length (at_place dialect place (leaf Leaf.NewLine) (parse_error dialect (bytes "NewLine")))) }
    ensures { Puts out.old out.new (at_place dialect place (leaf Leaf.NewLine) (parse_error dialect (bytes "NewLine"))) }
{
    match place {
        Place::Cell => out.put(b"</mtd></mtr><mtr><mtd>"),
        _ => out.put(b"<mtext>[PARSE ERROR: NewLine]</mtext>"),
    }
}

// Puts the error text of a token that is no node.
fn put_undefined(dialect: Dialect, s: &[u8], u: Undefined, out: &mut Output)
    requires { Inside (length s.now) u × Room out.old (length (undefined_markup dialect s.now u)) }
    ensures { Puts out.old out.new (undefined_markup dialect s.now u) }
{
    out.put(b"<mtext>[PARSE ERROR: Undefined(\"");
    put_debug(dialect, s, u, out);
    out.put(b"\")]</mtext>");
}

// Puts a leaf at a place.
pub fn put_leaf(dialect: Dialect, place: Place, s: &[u8], l: Leaf, out: &mut Output)
    requires { LeafInside (length s.now) l × Room out.old (length (at_place dialect place (leaf l) (print_leaf dialect s.now l))) }
    ensures { Puts out.old out.new (at_place dialect place (leaf l) (print_leaf dialect s.now l)) }
{
    match l {
        Leaf::Number(a, e) => put_in(b"<mn>", &s[a..e], b"</mn>", out),
        Leaf::Letter(c, v) => put_letter_at(dialect, place, c, v, out),
        Leaf::Operator(c) => put_operator_at(dialect, place, c, out),
        Leaf::Function(t) => put_in(b"<mi>", fixed_text(dialect, t), b"</mi>", out),
        Leaf::FunctionName(a, e) => put_letters_in(dialect, b"<mi>", &s[a..e], b"</mi>", out),
        Leaf::Space(w) => put_in(b"<mspace width=\"", width_of(w), b"em\"/>", out),
        Leaf::StrechedOp(o) => put_stretched(dialect, o, out),
        Leaf::OtherOperator(t) => put_in(b"<mo>", fixed_text(dialect, t), b"</mo>", out),
        Leaf::SizedParen(z, t) => put_sized_paren(dialect, z, t, out),
        Leaf::Text(a, e) => put_letters_in(dialect, b"<mtext>", &s[a..e], b"</mtext>", out),
        Leaf::Ampersand => put_ampersand(dialect, place, out),
        Leaf::NewLine => put_new_line(dialect, place, out),
        Leaf::Undefined(u) => put_undefined(dialect, s, u, out),
    }
}
