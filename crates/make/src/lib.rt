// The records that the parser makes once the operands of a node are read. Those that cannot be refused are a Result too, as their callers answer with it.
// Store and state are two parameters: the state is a value, and each caller lends the store anew, so a struct of both would be made for each call.
// An index does not know how many records are made, so each contract says of its parts that they are. What is put as an index is below 65,536, as a record
// has two bytes for it.
#![tactic(auto)]

ghost use Rattle.std.specs.Prelude.{◌≡◌, ◌+◌, ◌-◌, ◌*◌, ◌^◌, ◌≤◌, ◌<◌, length, Ok, Some};
ghost use Rattle.token.specs.Roles.{paren_of};
ghost use Rattle.ast.specs.Shape.{Placed};
ghost use Rattle.ast.specs.Store.{Put};
ghost use Rattle.ast.specs.Tree.{leaf, one, two, three};
ghost use Rattle.std.proofs.Math.Option.{none};
ghost use Rattle.ast.specs.Held.{operand_of};
ghost use Rattle.parser.specs.Parse.{build, grouped, of_pair, operator, with_below, with_above, with_both, fenced, stretch, stretched, sized, opened, in_environment, sub_sup, both_scripts};
ghost use Rattle.parser.specs.Marks.{script_of};
ghost use Rattle.parser.specs.Built.{node_record, Free, BuildsNone, BuildsLeaf, BuildsOne, BuildsTwo, BuildsBehind, BuildsThree, BuildsRow, BuildsMatrix, with_limit, with_limits};

use ast::rows::Linked;
use ast::store::{get_record, put_record};
use ast::{Fields, Leaf, One, Record, Role, Stretched, Three, Two};
use attribute::{Accent, ColumnAlign, DisplayStyle, LineThickness};
use error::Refusal;
use parser::marks::{fence_of, paren_of, script_kind, script_of};
use parser::{Environment, Limits, Pair, ParsedNode, Parser, Side};

// Puts a node of which the numbers are f, with its parts, at an index. A part that it does not have is 0, since a record has three indices in any case.
fn put_node(store: &mut [u8], i: usize, f: Fields, a: usize, b: usize, c: usize)
    requires { (i * 24 + 24 ≤ length store.old) × (a < 65536) × (b < 65536) × (c < 65536) }
    ensures { Put store.old store.new i (node_record f a b c) }
{
    put_record(
        store,
        i,
        Record {
            tag: f.tag,
            attr: f.attr,
            a,
            b,
            c,
            next: 0,
            x: f.x,
            y: f.y,
        },
    );
}

// The node that is the last of the k records made since the state p.
fn done(p: Parser, k: usize) -> Result<ParsedNode, Refusal>
    requires { (0 < k) × (p.made + k < 2 ^ 64) }
    ensures { result ≡ Ok (record { node = p.made + k - 1; after = record { cur = p.cur; peek = p.peek; made = p.made + k } }) }
{
    let mut after = p;
    after.made += k;
    Ok(ParsedNode {
        node: after.made - 1,
        after,
    })
}

// A node with no part.
pub fn make_leaf(store: &mut [u8], p: Parser, l: Leaf) -> Result<ParsedNode, Refusal>
    requires { Free store.old p 1 × Placed l }
    ensures { BuildsLeaf store.old store.new p l (build 1 (leaf l) p) result }
{
    put_node(store, p.made, l.fields(), 0, 0, 0);
    done(p, 1)
}

// A node with one part, which stands at an index. There is a function for each number of parts, as their contracts differ in the parts that they name.
pub fn make_one(store: &mut [u8], p: Parser, k: One, a: usize) -> Result<ParsedNode, Refusal>
    requires { Free store.old p 1 × (a < p.made) }
    ensures { BuildsOne store.old store.new p a (λ n. build 1 (one k n) p) result }
{
    put_node(store, p.made, Fields::from(k), a, 0, 0);
    done(p, 1)
}

// A node with two parts.
pub fn make_two(
    store: &mut [u8],
    p: Parser,
    k: Two,
    a: usize,
    b: usize,
) -> Result<ParsedNode, Refusal>
    requires { Free store.old p 1 × (a < p.made) × (b < p.made) }
    ensures { BuildsTwo store.old store.new p a b (λ m n. build 1 (two k m n) p) result }
{
    put_node(store, p.made, Fields::from(k), a, b, 0);
    done(p, 1)
}

// A node with three parts.
fn make_three(
    store: &mut [u8],
    p: Parser,
    k: Three,
    a: usize,
    b: usize,
    c: usize,
) -> Result<ParsedNode, Refusal>
    requires { Free store.old p 1 × (a < p.made) × (b < p.made) × (c < p.made) }
    ensures { BuildsThree store.old store.new p a b c (λ m n o. build 1 (three k m n o) p) result }
{
    put_node(store, p.made, Fields::from(k), a, b, c);
    done(p, 1)
}

// A base with both scripts, of which x was read first and stands above or below.
fn make_sub_sup(
    store: &mut [u8],
    p: Parser,
    side: Side,
    base: usize,
    x: usize,
    y: usize,
) -> Result<ParsedNode, Refusal>
    requires { Free store.old p 1 × (base < p.made) × (x < p.made) × (y < p.made) }
    ensures { BuildsThree store.old store.new p base x y (λ m n o. build 1 (sub_sup side m n o) p) result }
{
    match side {
        Side::Under => make_three(store, p, Three::SubSup, base, x, y),
        Side::Over => make_three(store, p, Three::SubSup, base, y, x),
    }
}

// The same, refused where a mark is next, which repeats one of the two.
pub fn make_scripts(
    store: &mut [u8],
    p: Parser,
    side: Side,
    base: usize,
    x: usize,
    y: usize,
) -> Result<ParsedNode, Refusal>
    requires { Free store.old p 1 × (base < p.made) × (x < p.made) × (y < p.made) }
    ensures { BuildsThree store.old store.new p base x y (λ m n o. both_scripts (script_of p.peek.token) (sub_sup side m n o) p) result }
{
    match script_of(p.peek.token) {
        Some(_) => Err(Refusal::RepeatedMark),
        None => make_sub_sup(store, p, side, base, x, y),
    }
}

// A node whose first part is a leaf. It is not one with the function below, since the contracts differ in the order of the parts.
pub fn make_leaf_first(
    store: &mut [u8],
    p: Parser,
    k: Two,
    l: Leaf,
    b: usize,
) -> Result<ParsedNode, Refusal>
    requires { Free store.old p 2 × Placed l × (b < p.made) × (operand_of l ≡ none) }
    ensures { BuildsOne store.old store.new p b (λ n. build 2 (two k (leaf l) n) p) result }
{
    let i = p.made;
    put_node(store, i, l.fields(), 0, 0, 0);
    put_node(store, i + 1, Fields::from(k), i, b, 0);
    done(p, 2)
}

// A node whose second part is a leaf.
pub fn make_leaf_second(
    store: &mut [u8],
    p: Parser,
    k: Two,
    a: usize,
    l: Leaf,
) -> Result<ParsedNode, Refusal>
    requires { Free store.old p 2 × Placed l × (a < p.made) × (operand_of l ≡ none) }
    ensures { BuildsOne store.old store.new p a (λ n. build 2 (two k n (leaf l)) p) result }
{
    let i = p.made;
    put_node(store, i, l.fields(), 0, 0, 0);
    put_node(store, i + 1, Fields::from(k), a, i, 0);
    done(p, 2)
}

// A fraction without a line, between parentheses; with a style it is in a row of its own. The fences are numbers of texts, as a record holds numbers.
fn make_binom(
    store: &mut [u8],
    p: Parser,
    d: Option<DisplayStyle>,
    a: usize,
    b: usize,
) -> Result<ParsedNode, Refusal>
    requires { Free store.old p 4 × (a < p.made) × (b < p.made) }
    ensures { BuildsTwo store.old store.new p a b (λ m n. of_pair (Pair.Binom d) m n p) result }
{
    let i = p.made;
    put_node(
        store,
        i,
        Fields::from(Two::Frac(LineThickness::Zero)),
        a,
        b,
        0,
    );
    put_node(store, i + 1, Fields::from(One::Fenced(1, 2)), i, 0, 0); // ( )
    match d {
        None => done(p, 2),
        Some(display) => {
            put_node(store, i + 2, Fields::row(1), i + 1, 0, 0);
            put_node(store, i + 3, Fields::from(One::Style(display)), i + 2, 0, 0);
            done(p, 4)
        }
    }
}

// The node of a command with two operands.
pub fn make_pair(
    store: &mut [u8],
    p: Parser,
    k: Pair,
    a: usize,
    b: usize,
) -> Result<ParsedNode, Refusal>
    requires { Free store.old p 4 × (a < p.made) × (b < p.made) }
    ensures { BuildsTwo store.old store.new p a b (λ m n. of_pair k m n p) result }
{
    match k {
        Pair::Frac => make_two(store, p, Two::Frac(LineThickness::Medium), a, b),
        Pair::Binom(d) => make_binom(store, p, d, a, b),
        Pair::Overset => make_two(store, p, Two::Overset, b, a),
        Pair::Underset => make_two(store, p, Two::Underset, b, a),
    }
}

// A brace over or under a target, with its explanation.
pub fn make_explained(
    store: &mut [u8],
    p: Parser,
    k: Two,
    x: u32,
    target: usize,
    expl: usize,
) -> Result<ParsedNode, Refusal>
    requires { Free store.old p 3 × (target < p.made) × (expl < p.made) }
    ensures { BuildsBehind store.old store.new p target expl (λ m n. build 3 (two k m (two k (leaf (Leaf.Operator x)) n)) p) result }
{
    let i = p.made;
    put_node(store, i, Leaf::Operator(x).fields(), 0, 0, 0);
    put_node(store, i + 1, Fields::from(k), i, expl, 0);
    put_node(store, i + 2, Fields::from(k), target, i + 1, 0);
    done(p, 3)
}

// An operator without limits.
pub fn make_alone(store: &mut [u8], p: Parser, k: Limits) -> Result<ParsedNode, Refusal>
    requires { Free store.old p 1 }
    ensures { BuildsNone store.old store.new p (build 1 (operator k) p) result }
{
    match k {
        Limits::BigOp(c) | Limits::Integral(c) => make_leaf(store, p, Leaf::Operator(c)),
    }
}

// An operator with one limit, above it or below.
#[tactic(auto, using(crate::proofs::MakeLaws::integral_limit), unfolding(parser::specs::Parse::with_below, parser::specs::Parse::with_above))]
pub fn make_limit(
    store: &mut [u8],
    p: Parser,
    k: Limits,
    side: Side,
    x: usize,
) -> Result<ParsedNode, Refusal>
    requires { Free store.old p 2 × (x < p.made) }
    ensures { BuildsOne store.old store.new p x (λ n. with_limit side k n p) result }
{
    match (k, side) {
        (Limits::BigOp(c), Side::Under) => make_leaf_first(
            store,
            p,
            Two::Under,
            Leaf::Operator(c),
            x,
        ),
        (Limits::BigOp(c), Side::Over) => make_one(store, p, One::OverOp(c, Accent::False), x),
        (Limits::Integral(c), side) => make_leaf_first(
            store,
            p,
            script_kind(side),
            Leaf::Operator(c),
            x,
        ),
    }
}

// The records of an operator with two limits.
fn make_both(
    store: &mut [u8],
    p: Parser,
    k: Three,
    c: u32,
    x: usize,
    y: usize,
) -> Result<ParsedNode, Refusal>
    requires { Free store.old p 2 × (x < p.made) × (y < p.made) }
    ensures { BuildsTwo store.old store.new p x y (λ m n. build 2 (three k (leaf (Leaf.Operator c)) m n) p) result }
{
    let i = p.made;
    put_node(store, i, Leaf::Operator(c).fields(), 0, 0, 0);
    put_node(store, i + 1, Fields::from(k), i, x, y);
    done(p, 2)
}

// An operator with both limits, of which x was read first and stands above or below.
pub fn make_limits(
    store: &mut [u8],
    p: Parser,
    k: Limits,
    side: Side,
    x: usize,
    y: usize,
) -> Result<ParsedNode, Refusal>
    requires { Free store.old p 2 × (x < p.made) × (y < p.made) }
    ensures { BuildsTwo store.old store.new p x y (λ m n. with_limits side k m n p) result }
{
    match (k, side) {
        (Limits::BigOp(c), Side::Under) => make_both(store, p, Three::UnderOver, c, x, y),
        (Limits::BigOp(c), Side::Over) => make_both(store, p, Three::UnderOver, c, y, x),
        (Limits::Integral(c), Side::Under) => make_both(store, p, Three::SubSup, c, x, y),
        (Limits::Integral(c), Side::Over) => make_both(store, p, Three::SubSup, c, y, x),
    }
}

// What `\middle` makes of its operand.
pub fn make_stretched(store: &mut [u8], p: Parser, i: usize) -> Result<ParsedNode, Refusal>
    requires { Free store.old p 1 × (i < p.made) }
    ensures { BuildsOne store.old store.new p i (λ n. stretched (stretch n) p) result }
{
    match Role::from(get_record(store, i)) {
        Role::Operator(c) => make_leaf(store, p, Leaf::StrechedOp(Stretched::Character(c))),
        Role::OtherOperator(t) => make_leaf(store, p, Leaf::StrechedOp(Stretched::Fixed(t))),
        _ => Err(Refusal::MiddleOperand),
    }
}

// A sized parenthesis, which is the current token.
pub fn make_big(store: &mut [u8], p: Parser, size: u32) -> Result<ParsedNode, Refusal>
    requires { Free store.old p 1 }
    ensures { BuildsNone store.old store.new p (sized size (paren_of p.cur.token) p) result }
{
    let t = paren_of(p.cur.token).ok_or(Refusal::UnexpectedToken)?;
    make_leaf(store, p, Leaf::SizedParen(size, t))
}

// A node between fences, of which the second is the current token.
pub fn make_fenced(
    store: &mut [u8],
    p: Parser,
    first: u32,
    content: usize,
) -> Result<ParsedNode, Refusal>
    requires { Free store.old p 1 × (content < p.made) }
    ensures { BuildsOne store.old store.new p content (λ n. fenced first n p) result }
{
    let second = fence_of(p.cur.token).ok_or(Refusal::MissingParensethis)?;
    make_one(store, p, One::Fenced(first, second), content)
}

// The nodes of a group: a row, unless there is exactly one.
pub fn make_row(store: &mut [u8], p: Parser, nodes: Linked) -> Result<ParsedNode, Refusal>
    requires { Free store.old p 1 × (nodes.first < 65536) × (nodes.count < 2 ^ 32) }
    ensures { BuildsRow store.old store.new p nodes.first nodes.count (λ ns. grouped ns p) result }
{
    if nodes.count == 1 {
        return Ok(ParsedNode {
            node: nodes.first,
            after: p,
        });
    }
    put_node(
        store,
        p.made,
        Fields::row(nodes.count as u32),
        nodes.first,
        0,
        0,
    );
    done(p, 1)
}

// A matrix of an environment, and the fences around it. Its nodes are no `Linked`: what is read back from a row's record has no last.
fn make_matrix(
    store: &mut [u8],
    p: Parser,
    env: Environment,
    first: usize,
    count: u32,
) -> Result<ParsedNode, Refusal>
    requires { Free store.old p 2 × (first < 65536) }
    ensures { BuildsMatrix store.old store.new p first count (λ ns. in_environment (Some env) ns p) result }
{
    let i = p.made;
    match env {
        Environment::Bare(align) => {
            put_node(store, i, Fields::matrix(align, count), first, 0, 0);
            done(p, 1)
        }
        Environment::Between(t, u) => {
            put_node(
                store,
                i,
                Fields::matrix(ColumnAlign::Center, count),
                first,
                0,
                0,
            );
            put_node(store, i + 1, Fields::from(One::Fenced(t, u)), i, 0, 0);
            done(p, 2)
        }
    }
}

// An environment around its content: a row is opened for its nodes. An unknown one is refused here, behind its content.
pub fn make_environment(
    store: &mut [u8],
    p: Parser,
    env: Option<Environment>,
    content: usize,
) -> Result<ParsedNode, Refusal>
    requires { Free store.old p 2 × (content < p.made) }
    ensures { BuildsOne store.old store.new p content (λ n. in_environment env (opened n) p) result }
{
    let env = env.ok_or(Refusal::UnknownEnvironment)?;
    let r = get_record(store, content);
    match Role::from(r) {
        Role::Row(n) => make_matrix(store, p, env, r.a, n),
        _ => make_matrix(store, p, env, content, 1),
    }
}
