// The printer: a tree of the store is printed by recursion over its records; what it prints was measured before. It is no `Display`, as `leaves::leaf`
// says.
#![tactic(auto)]

pub mod measure;

ghost use Rattle.std.specs.Prelude.{◌≡◌, ◌++◌, length};
ghost use Rattle.text.specs.Text.{bytes};
ghost use Rattle.text.specs.Put.{Room, Puts};
ghost use Rattle.ast.specs.Tree.{Node};
ghost use Rattle.markup.specs.Print.{align_text, print};
ghost use Rattle.print.specs.Shown.{place_of, shown, shown_all, TreeAt, TwoAt, ThreeAt, NodesAt, Printable, Prints};

use ast::store::{get_next, get_record};
use ast::{One, Shape, Three, Two};
use attribute::ColumnAlign;
use leaves::fronts::{
    align_text, back_three, back_two, front_three, front_two, put_back_one, put_front_one,
};
use leaves::leaf::put_leaf;
use markup::Place;
use text::Dialect;
use text::put::Output;

// Where the part of a node with one part is printed. It says where, and turns no value into another, so it is no `From`.
fn place_of(k: One) -> Place
    ensures { result ≡ place_of k }
{
    match k {
        One::Slashed => Place::Slashed,
        _ => Place::Plain,
    }
}

// Puts what stands before the nodes of a matrix.
fn put_front_matrix(dialect: Dialect, align: ColumnAlign, out: &mut Output)
    requires { Room out.old (length (bytes "<mtable" ++ align_text dialect align ++ bytes "><mtr><mtd>")) }
    ensures { Puts out.old out.new (bytes "<mtable" ++ align_text dialect align ++ bytes "><mtr><mtd>") }
{
    out.put(b"<mtable");
    out.put(align_text(dialect, align));
    out.put(b"><mtr><mtd>");
}

// What nodes are printed from: the body whose tree the store holds, and the dialect.
#[derive(Clone, Copy)]
pub struct Source<'a> {
    pub dialect: Dialect,
    pub body: &'a [u8],
    pub store: &'a [u8],
}

impl<'a> Source<'a> {
    // Prints the node at an index below `left`. Its parts stand before it, so they are below `left - 1`.
    #[cycle(printer)]
    fn print_node(&self, place: Place, i: usize, left: usize, out: &mut Output)
        requires { Printable (TreeAt self.now.body.now self.now.store.now left i) (shown self.now.dialect place self.now.body.now) out.old }
        ensures { Prints (TreeAt self.now.body.now self.now.store.now left i) (shown self.now.dialect place self.now.body.now) out.old out.new }
    {
        let r = get_record(self.store, i);
        match Shape::from(r) {
            Shape::Leaf(l) => put_leaf(self.dialect, place, self.body, l, out),
            Shape::One(k) => self.print_one(k, r.a, left - 1, out),
            Shape::Two(k) => self.print_two(k, r.a, r.b, left - 1, out),
            Shape::Three(k) => self.print_three(k, r.a, r.b, r.c, left - 1, out),
            Shape::Row(n) => self.print_row(r.a, n, left - 1, out),
            Shape::Matrix(align, n) => self.print_matrix(align, r.a, n, left - 1, out),
        }
    }

    // Prints a node with one part, at the index a. Those with two and three parts have functions of their own, as the contracts speak of as many
    // trees as there are parts.
    #[cycle(printer)]
    fn print_one(&self, k: One, a: usize, left: usize, out: &mut Output)
        requires { Printable (TreeAt self.now.body.now self.now.store.now left a) (λ t. print self.now.dialect self.now.body.now (Node.one k t)) out.old }
        ensures { Prints (TreeAt self.now.body.now self.now.store.now left a) (λ t. print self.now.dialect self.now.body.now (Node.one k t)) out.old out.new }
    {
        put_front_one(self.dialect, k, out);
        self.print_node(place_of(k), a, left, out);
        put_back_one(self.dialect, k, out);
    }

    // Prints a node with two parts, at the indices a and b.
    #[cycle(printer)]
    fn print_two(&self, k: Two, a: usize, b: usize, left: usize, out: &mut Output)
        requires { Printable (TwoAt self.now.body.now self.now.store.now left a b) (λ t. print self.now.dialect self.now.body.now (Node.two k t.0 t.1)) out.old }
        ensures { Prints (TwoAt self.now.body.now self.now.store.now left a b) (λ t. print self.now.dialect self.now.body.now (Node.two k t.0 t.1)) out.old out.new }
    {
        out.put(front_two(k));
        self.print_node(Place::Plain, a, left, out);
        self.print_node(Place::Plain, b, left, out);
        out.put(back_two(k));
    }

    // Prints a node with three parts, at the indices a, b and c.
    #[cycle(printer)]
    fn print_three(&self, k: Three, a: usize, b: usize, c: usize, left: usize, out: &mut Output)
        requires { Printable (ThreeAt self.now.body.now self.now.store.now left a b c) (λ t. print self.now.dialect self.now.body.now (Node.three k t.0 t.1.0 t.1.1)) out.old }
        ensures { Prints (ThreeAt self.now.body.now self.now.store.now left a b c) (λ t. print self.now.dialect self.now.body.now (Node.three k t.0 t.1.0 t.1.1)) out.old out.new }
    {
        out.put(front_three(k));
        self.print_node(Place::Plain, a, left, out);
        self.print_node(Place::Plain, b, left, out);
        self.print_node(Place::Plain, c, left, out);
        out.put(back_three(k));
    }

    // Prints a row of n nodes, the first of them at the index a.
    #[cycle(printer)]
    fn print_row(&self, a: usize, n: u32, left: usize, out: &mut Output)
        requires { Printable (NodesAt self.now.body.now self.now.store.now left a n) (λ ns. print self.now.dialect self.now.body.now (Node.row ns)) out.old }
        ensures { Prints (NodesAt self.now.body.now self.now.store.now left a n) (λ ns. print self.now.dialect self.now.body.now (Node.row ns)) out.old out.new }
    {
        out.put(b"<mrow>");
        self.print_nodes(Place::Plain, a, n, left, out);
        out.put(b"</mrow>");
    }

    // Prints a matrix of n nodes, the first of them at the index a.
    #[cycle(printer)]
    fn print_matrix(&self, align: ColumnAlign, a: usize, n: u32, left: usize, out: &mut Output)
        requires { Printable (NodesAt self.now.body.now self.now.store.now left a n) (λ ns. print self.now.dialect self.now.body.now (Node.matrix align ns)) out.old }
        ensures { Prints (NodesAt self.now.body.now self.now.store.now left a n) (λ ns. print self.now.dialect self.now.body.now (Node.matrix align ns)) out.old out.new }
    {
        put_front_matrix(self.dialect, align, out);
        self.print_nodes(Place::Cell, a, n, left, out);
        out.put(b"</mtd></mtr></mtable>");
    }

    // Prints n nodes, each the next of the one before, from the index a on; all are below `left`. The records are linked and n is their number,
    // so there is no slice of them to go through.
    #[cycle(printer)]
    pub fn print_nodes(&self, place: Place, a: usize, n: u32, left: usize, out: &mut Output)
        requires { Printable (NodesAt self.now.body.now self.now.store.now left a n) (shown_all self.now.dialect place self.now.body.now) out.old }
        ensures { Prints (NodesAt self.now.body.now self.now.store.now left a n) (shown_all self.now.dialect place self.now.body.now) out.old out.new }
    {
        let mut i = a;
        for _ in 0..n {
            self.print_node(place, i, left, out);
            i = get_next(self.store, i);
        }
    }
}
