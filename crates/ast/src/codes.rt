// What node a record is, to and from the numbers that it holds: a node's tag is a byte of the lent store. An enum of the tags would be read from the
// byte by one more match of 37 arms, as no cast makes a case of a number. `sum`, and `leaves::lengths` above, ask a record's tag too, and not its
// `Shape`: by `Shape` pages took 11 to 21 % longer, measured on an older toolchain (docs/DECISIONS.md, 74).
ghost use Rattle.std.specs.Prelude.{◌≡◌, ◌^◌, ◌<◌};
ghost use Rattle.ast.specs.Shape.{numbers, leaf_fields, one_fields, two_fields, three_fields, fields, shape_of, role_of, is_matrix, fields_of, Placed};

use crate::{Fields, Leaf, One, Record, Role, Shape, Stretched, Three, Two};
use attribute::{Accent, ColumnAlign, DisplayStyle, LineThickness, Variant};
use token::Undefined;

fn numbers(tag: u8, attr: u8, x: u32, y: u32) -> Fields
    ensures { result ≡ numbers tag attr x y }
{
    Fields { tag, attr, x, y }
}

// Two places of the body as numbers of a record.
fn places(tag: u8, a: usize, e: usize) -> Fields
    requires { (a < 2 ^ 32) × (e < 2 ^ 32) }
    ensures { result ≡ numbers tag 0 a e }
{
    numbers(tag, 0, a as u32, e as u32)
}

impl Leaf {
    // The numbers of a leaf, whose places have to fit: so this is no `From`.
    pub fn fields(self) -> Fields
        requires { Placed self }
        ensures { result ≡ leaf_fields self }
    {
        match self {
            Leaf::Number(a, e) => places(0, a, e),
            Leaf::Letter(c, v) => numbers(1, u8::from(v), c, 0),
            Leaf::Operator(c) => numbers(2, 0, c, 0),
            Leaf::Function(t) => numbers(3, 0, t, 0),
            Leaf::FunctionName(a, e) => places(4, a, e),
            Leaf::Space(w) => numbers(5, 0, w, 0),
            Leaf::StrechedOp(Stretched::Character(c)) => numbers(6, 0, c, 0),
            Leaf::StrechedOp(Stretched::Fixed(t)) => numbers(7, 0, t, 0),
            Leaf::OtherOperator(t) => numbers(8, 0, t, 0),
            Leaf::SizedParen(z, t) => numbers(9, 0, z, t),
            Leaf::Text(a, e) => places(10, a, e),
            Leaf::Ampersand => numbers(11, 0, 0, 0),
            Leaf::NewLine => numbers(12, 0, 0, 0),
            Leaf::Undefined(Undefined::EOF) => numbers(13, 0, 0, 0),
            Leaf::Undefined(Undefined::End) => numbers(14, 0, 0, 0),
            Leaf::Undefined(Undefined::Right) => numbers(15, 0, 0, 0),
            Leaf::Undefined(Undefined::RBrace) => numbers(16, 0, 0, 0),
            Leaf::Undefined(Undefined::Underscore) => numbers(17, 0, 0, 0),
            Leaf::Undefined(Undefined::Circumflex) => numbers(18, 0, 0, 0),
            Leaf::Undefined(Undefined::Command(a, e)) => places(19, a, e),
        }
    }
}

// The numbers of a node with one part.
impl From<One> for Fields {
    ghost from_gives = { λ k f. f ≡ one_fields k };

    fn from(k: One) -> Fields {
        match k {
            One::OverOp(c, a) => numbers(20, u8::from(a), c, 0),
            One::UnderOp(c, a) => numbers(21, u8::from(a), c, 0),
            One::Sqrt => numbers(22, 0, 0, 0),
            One::Fenced(t, u) => numbers(23, 0, t, u),
            One::Slashed => numbers(24, 0, 0, 0),
            One::Style(d) => numbers(25, u8::from(d), 0, 0),
        }
    }
}

// The numbers of a node with two parts.
impl From<Two> for Fields {
    ghost from_gives = { λ k f. f ≡ two_fields k };

    fn from(k: Two) -> Fields {
        match k {
            Two::Subscript => numbers(26, 0, 0, 0),
            Two::Superscript => numbers(27, 0, 0, 0),
            Two::Overset => numbers(28, 0, 0, 0),
            Two::Underset => numbers(29, 0, 0, 0),
            Two::Under => numbers(30, 0, 0, 0),
            Two::Root => numbers(31, 0, 0, 0),
            Two::Frac(l) => numbers(32, u8::from(l), 0, 0),
        }
    }
}

// The numbers of a node with three parts.
impl From<Three> for Fields {
    ghost from_gives = { λ k f. f ≡ three_fields k };

    fn from(k: Three) -> Fields {
        match k {
            Three::SubSup => numbers(33, 0, 0, 0),
            Three::UnderOver => numbers(34, 0, 0, 0),
        }
    }
}

impl Fields {
    // The numbers of a row of n nodes.
    pub fn row(n: u32) -> Fields
        ensures { result ≡ fields (Shape.Row n) }
    {
        numbers(35, 0, n, 0)
    }

    // The numbers of a matrix of n nodes.
    pub fn matrix(align: ColumnAlign, n: u32) -> Fields
        ensures { result ≡ fields (Shape.Matrix align n) }
    {
        numbers(36, u8::from(align), n, 0)
    }
}

// The node of a record's numbers.
impl From<Fields> for Shape {
    ghost from_gives = { λ f k. k ≡ shape_of f };

    #[tactic(auto, unfolding(crate::specs::Shape::shape_of, crate::specs::Shape::shapes))]
    fn from(f: Fields) -> Shape {
        let tag = f.tag;
        let attr = f.attr;
        let x = f.x;
        let y = f.y;
        match tag {
            0 => Shape::Leaf(Leaf::Number(x as usize, y as usize)),
            1 => Shape::Leaf(Leaf::Letter(x, Variant::from(attr))),
            2 => Shape::Leaf(Leaf::Operator(x)),
            3 => Shape::Leaf(Leaf::Function(x)),
            4 => Shape::Leaf(Leaf::FunctionName(x as usize, y as usize)),
            5 => Shape::Leaf(Leaf::Space(x)),
            6 => Shape::Leaf(Leaf::StrechedOp(Stretched::Character(x))),
            7 => Shape::Leaf(Leaf::StrechedOp(Stretched::Fixed(x))),
            8 => Shape::Leaf(Leaf::OtherOperator(x)),
            9 => Shape::Leaf(Leaf::SizedParen(x, y)),
            10 => Shape::Leaf(Leaf::Text(x as usize, y as usize)),
            11 => Shape::Leaf(Leaf::Ampersand),
            12 => Shape::Leaf(Leaf::NewLine),
            13 => Shape::Leaf(Leaf::Undefined(Undefined::EOF)),
            14 => Shape::Leaf(Leaf::Undefined(Undefined::End)),
            15 => Shape::Leaf(Leaf::Undefined(Undefined::Right)),
            16 => Shape::Leaf(Leaf::Undefined(Undefined::RBrace)),
            17 => Shape::Leaf(Leaf::Undefined(Undefined::Underscore)),
            18 => Shape::Leaf(Leaf::Undefined(Undefined::Circumflex)),
            19 => Shape::Leaf(Leaf::Undefined(Undefined::Command(x as usize, y as usize))),
            20 => Shape::One(One::OverOp(x, Accent::from(attr))),
            21 => Shape::One(One::UnderOp(x, Accent::from(attr))),
            22 => Shape::One(One::Sqrt),
            23 => Shape::One(One::Fenced(x, y)),
            24 => Shape::One(One::Slashed),
            25 => Shape::One(One::Style(DisplayStyle::from(attr))),
            26 => Shape::Two(Two::Subscript),
            27 => Shape::Two(Two::Superscript),
            28 => Shape::Two(Two::Overset),
            29 => Shape::Two(Two::Underset),
            30 => Shape::Two(Two::Under),
            31 => Shape::Two(Two::Root),
            32 => Shape::Two(Two::Frac(LineThickness::from(attr))),
            33 => Shape::Three(Three::SubSup),
            34 => Shape::Three(Three::UnderOver),
            35 => Shape::Row(x),
            _ => Shape::Matrix(ColumnAlign::from(attr), x),
        }
    }
}

// The numbers of a record that say what node it is.
impl From<Record> for Fields {
    ghost from_gives = { λ r f. f ≡ fields_of r };

    fn from(r: Record) -> Fields {
        numbers(r.tag, r.attr, r.x, r.y)
    }
}

// The node that a record is.
impl From<Record> for Shape {
    ghost from_gives = { λ r k. k ≡ shape_of (fields_of r) };

    fn from(r: Record) -> Shape {
        Shape::from(Fields::from(r))
    }
}

// The role of the node that a record is, which takes less of the record than the node does.
impl From<Record> for Role {
    ghost from_gives = { λ r k. k ≡ role_of (shape_of (fields_of r)) };

    #[tactic(auto, unfolding(crate::specs::Shape::shape_of, crate::specs::Shape::shapes))]
    fn from(r: Record) -> Role {
        let tag = r.tag;
        let x = r.x;
        match tag {
            1 => Role::Letter,
            2 => Role::Operator(x),
            8 => Role::OtherOperator(x),
            35 => Role::Row(x),
            _ => Role::Other,
        }
    }
}

// Whether a record is a matrix, by its tag alone.
pub fn is_matrix(r: Record) -> bool
    ensures { result ≡ is_matrix (shape_of (fields_of r)) }
{
    36 <= r.tag
}
