// The parser: the functions of the Rust's parse.rs that call one another. Body, store, state and depth are handed on one by one: the state is a value
// that each call gives anew, so a struct of the four would be made anew before each call. Body and store are the same in all calls: a struct of the two
// would be lent to each call just as the store is, and each contract, which speaks of the body and of the store apart, would name both through it.
#![tactic(auto, using(crate::proofs::RoomLaws::may_next))]

pub mod body;

ghost use Rattle.std.specs.Prelude.{◌≡◌, ◌≢◌, ◌+◌, ◌*◌, ◌≤◌, ◌<◌, length};
ghost use Rattle.ast.specs.declared.Leaf.TheVariants.{FunctionName, Text};
ghost use Rattle.token.specs.declared.Mark.{Mark};
ghost use Rattle.parser.specs.Parse.{build, parse_node, parse_single_node, parse_group, parse_sqrt, parse_two, parse_one, parse_brace, parse_limits, parse_lim, parse_slashed, parse_style, parse_left, parse_middle, parse_big, parse_begin, parse_text_leaf, parse_bare, primed, parse_second, parse_scripts};
ghost use Rattle.parser.specs.Marks.{script_of};
ghost use Rattle.parser.specs.Built.{Ready, ReadyCommand, Ends, Free, Primed, Builds, BuildsOne, BuildsBehind};

use ast::rows::Linked;
use ast::variant::set_variant;
use ast::{Leaf, One, Two};
use attribute::Variant;
use error::Refusal;
use make::{
    make_alone, make_big, make_environment, make_explained, make_fenced, make_leaf,
    make_leaf_first, make_leaf_second, make_limit, make_limits, make_one, make_pair, make_row,
    make_scripts, make_stretched, make_two,
};
use parser::environments::environment_of;
use parser::marks::{
    fence_of, is_usual_operand, leaf_of, other_limit, repeats, script_kind, script_of, stands_alone,
};
use parser::{Limits, Pair, ParsedNode, Parser, Side};
use token::{Mark, Token};

// The nodes of a body: the index of the first, how many they are, linked by next, and how many records are made. The Rust's
// `Result<Vec<Node>, LatexError>` is a `Result` of them.
#[derive(Clone, Copy)]
pub struct ParsedNodes {
    pub first: usize,
    pub count: usize,
    pub made: usize,
}

// A node with the scripts behind it, which takes two calls; a token that stands alone is made a leaf without the second.
#[cycle(parser)]
fn parse_node(s: &[u8], store: &mut [u8], p: Parser, depth: usize) -> Result<ParsedNode, Refusal>
    requires { Ready s.now store.old p }
    ensures { Builds store.old store.new p.made p (parse_node depth s.now p) result }
{
    if depth < 2 {
        return Err(Refusal::TooDeep);
    }
    if stands_alone(p.cur.token, p.peek.token) {
        return make_leaf(store, p, leaf_of(p.cur.token));
    }
    let base = parse_single_node(s, store, p, depth - 1)?;
    scripts(s, store, base.after, depth - 1, base.node)
}

// A base with the scripts behind it, of which each operand is one single node. The usual operand is made a leaf at once: no second script follows it.
#[cycle(parser)]
fn scripts(
    s: &[u8],
    store: &mut [u8],
    p: Parser,
    depth: usize,
    base: usize,
) -> Result<ParsedNode, Refusal>
    requires { Ends s.now store.old p 0 × (base < p.made) × (1 ≤ depth) }
    ensures { BuildsOne store.old store.new p base (λ n. parse_scripts (λ q. parse_single_node depth s.now q) s.now (script_of p.peek.token) n p) result }
{
    let Some(side) = script_of(p.peek.token) else {
        return Ok(ParsedNode {
            node: base,
            after: p,
        });
    };
    let begin = p.next_token(s).next_token(s);
    if is_usual_operand(begin.cur.token, begin.peek.token) {
        return make_leaf_second(
            store,
            begin,
            script_kind(side),
            base,
            leaf_of(begin.cur.token),
        );
    }
    let x = parse_single_node(s, store, begin, depth)?;
    second(s, store, x.after, depth, side, base, x.node)
}

// A base with its first script x, and with the second where the other mark is next; a repeated mark is refused before its operand is read.
#[cycle(parser)]
fn second(
    s: &[u8],
    store: &mut [u8],
    p: Parser,
    depth: usize,
    side: Side,
    base: usize,
    x: usize,
) -> Result<ParsedNode, Refusal>
    requires { Ends s.now store.old p 1 × (base < p.made) × (x < p.made) }
    ensures { BuildsBehind store.old store.new p base x (λ m n. parse_second (λ q. parse_single_node depth s.now q) s.now side (script_of p.peek.token) m n p) result }
{
    let Some(again) = script_of(p.peek.token) else {
        return make_two(store, p, script_kind(side), base, x);
    };
    if repeats(side, again) {
        return Err(Refusal::RepeatedMark);
    }
    let begin = p.next_token(s).next_token(s);
    let y = parse_single_node(s, store, begin, depth)?;
    make_scripts(store, y.after, side, base, x, y.node)
}

// A node without the scripts behind it, but with a prime.
#[cycle(parser)]
fn parse_single_node(
    s: &[u8],
    store: &mut [u8],
    p: Parser,
    depth: usize,
) -> Result<ParsedNode, Refusal>
    requires { Ready s.now store.old p }
    ensures { Builds store.old store.new p.made p (parse_single_node depth s.now p) result }
{
    if depth == 0 {
        return Err(Refusal::TooDeep);
    }
    let n = parse_bare(s, store, p, depth - 1)?;
    finish_prime(s, store, n.after, n.node)
}

// A node with the prime behind it, if there is one.
fn finish_prime(s: &[u8], store: &mut [u8], p: Parser, a: usize) -> Result<ParsedNode, Refusal>
    requires { (p.peek.end ≤ length s.now) × Primed store.old p × (a < p.made) }
    ensures { BuildsOne store.old store.new p a (λ n. primed s.now n p) result }
{
    if p.peek_token_is(Mark::Prime) {
        let after = p.next_token(s);
        return make_leaf_second(store, after, Two::Superscript, a, Leaf::Operator(0x2032));
    }
    Ok(ParsedNode { node: a, after: p })
}

// A sized parenthesis.
fn parse_big(s: &[u8], store: &mut [u8], p: Parser, size: u32) -> Result<ParsedNode, Refusal>
    requires { ReadyCommand s.now store.old p }
    ensures { Builds store.old store.new p.made p (parse_big s.now size p) result }
{
    let after = p.next_token(s);
    make_big(store, after, size)
}

// A function by the name in its text.
fn parse_operator_name(s: &[u8], store: &mut [u8], p: Parser) -> Result<ParsedNode, Refusal>
    requires { ReadyCommand s.now store.old p }
    ensures { Builds store.old store.new p.made p (parse_text_leaf s.now FunctionName p) result }
{
    let begin = p.next_token(s);
    let t = begin.parse_text(s);
    make_leaf(store, t.after, Leaf::FunctionName(t.a, t.e))
}

// A text as it is read. It is a function beside the one above, since one over the leaf's constructor owes more on a closure than both say.
fn parse_text(s: &[u8], store: &mut [u8], p: Parser) -> Result<ParsedNode, Refusal>
    requires { ReadyCommand s.now store.old p }
    ensures { Builds store.old store.new p.made p (parse_text_leaf s.now Text p) result }
{
    let begin = p.next_token(s);
    let t = begin.parse_text(s);
    make_leaf(store, t.after, Leaf::Text(t.a, t.e))
}

// A node by its first token.
#[cycle(parser)]
#[tactic(auto, using(crate::proofs::RoomLaws::wide_3), unfolding(parser::specs::Sound::least))]
fn parse_bare(s: &[u8], store: &mut [u8], p: Parser, depth: usize) -> Result<ParsedNode, Refusal>
    requires { Ready s.now store.old p }
    ensures { Builds store.old store.new p.made p (parse_bare (λ q. parse_node depth s.now q) (λ q. parse_single_node depth s.now q) s.now p.cur.token p) result }
{
    match p.cur.token {
        Token::Sqrt => parse_sqrt(s, store, p, depth),
        Token::Frac => parse_two(s, store, p, depth, Pair::Frac),
        Token::Binom(d) => parse_two(s, store, p, depth, Pair::Binom(d)),
        Token::Over(c, acc) => parse_one(s, store, p, depth, One::OverOp(c, acc)),
        Token::Under(c, acc) => parse_one(s, store, p, depth, One::UnderOp(c, acc)),
        Token::Overset => parse_two(s, store, p, depth, Pair::Overset),
        Token::Underset => parse_two(s, store, p, depth, Pair::Underset),
        Token::Overbrace(x) => parse_brace(s, store, p, depth, Two::Overset, Mark::Circumflex, x),
        Token::Underbrace(x) => parse_brace(s, store, p, depth, Two::Underset, Mark::Underscore, x),
        Token::BigOp(c) => parse_limits(s, store, p, depth, Limits::BigOp(c)),
        Token::Lim(t) => parse_lim(s, store, p, depth, t),
        Token::Slashed => parse_slashed(s, store, p, depth),
        Token::Style(v) => parse_style(s, store, p, depth, v),
        Token::Integral(c) => parse_limits(s, store, p, depth, Limits::Integral(c)),
        Token::LBrace => parse_group(s, store, p, depth, Mark::RBrace),
        Token::Left => parse_left(s, store, p, depth),
        Token::Middle => parse_middle(s, store, p, depth),
        Token::Big(size) => parse_big(s, store, p, size),
        Token::Begin => parse_begin(s, store, p, depth),
        Token::OperatorName => parse_operator_name(s, store, p),
        Token::Text => parse_text(s, store, p),
        _ => make_leaf(store, p, leaf_of(p.cur.token)),
    }
}

#[cycle(parser)]
fn parse_sqrt(s: &[u8], store: &mut [u8], p: Parser, depth: usize) -> Result<ParsedNode, Refusal>
    requires { ReadyCommand s.now store.old p }
    ensures { Builds store.old store.new p.made p (parse_sqrt (λ q. parse_node depth s.now q) s.now p) result }
{
    let begin = p.next_token(s);
    if begin.cur_token_is(Mark::LBracket) {
        let degree = parse_group(s, store, begin, depth, Mark::RBracket)?;
        let after = degree.after.next_token(s);
        let content = parse_node(s, store, after, depth)?;
        return make_two(store, content.after, Two::Root, content.node, degree.node);
    }
    let content = parse_node(s, store, begin, depth)?;
    make_one(store, content.after, One::Sqrt, content.node)
}

// A command with one operand.
#[cycle(parser)]
fn parse_one(
    s: &[u8],
    store: &mut [u8],
    p: Parser,
    depth: usize,
    k: One,
) -> Result<ParsedNode, Refusal>
    requires { ReadyCommand s.now store.old p }
    ensures { Builds store.old store.new p.made p (parse_one (λ q. parse_node depth s.now q) s.now k p) result }
{
    let begin = p.next_token(s);
    let a = parse_node(s, store, begin, depth)?;
    make_one(store, a.after, k, a.node)
}

// A command with two operands.
#[cycle(parser)]
fn parse_two(
    s: &[u8],
    store: &mut [u8],
    p: Parser,
    depth: usize,
    k: Pair,
) -> Result<ParsedNode, Refusal>
    requires { ReadyCommand s.now store.old p }
    ensures { Builds store.old store.new p.made p (parse_two (λ q. parse_node depth s.now q) s.now k p) result }
{
    let begin = p.next_token(s);
    let a = parse_node(s, store, begin, depth)?;
    let after = a.after.next_token(s);
    let b = parse_node(s, store, after, depth)?;
    make_pair(store, b.after, k, a.node, b.node)
}

// A brace over or under a target, with an explanation behind the mark. Kind and mark are given as in the definition: from a `Side` both would be looked up
// again.
#[cycle(parser)]
fn parse_brace(
    s: &[u8],
    store: &mut [u8],
    p: Parser,
    depth: usize,
    k: Two,
    mark: Mark,
    x: u32,
) -> Result<ParsedNode, Refusal>
    requires { ReadyCommand s.now store.old p × (mark ≢ Mark.EOF) }
    ensures { Builds store.old store.new p.made p (parse_brace (λ q. parse_single_node depth s.now q) s.now k mark x p) result }
{
    let begin = p.next_token(s);
    let target = parse_single_node(s, store, begin, depth)?;
    if !target.after.peek_token_is(mark) {
        return make_leaf_second(store, target.after, k, target.node, Leaf::Operator(x));
    }
    let operand = target.after.next_token(s).next_token(s);
    let expl = parse_single_node(s, store, operand, depth)?;
    make_explained(store, expl.after, k, x, target.node, expl.node)
}

// An operator with what stands below and above it, in either order.
#[cycle(parser)]
fn parse_limits(
    s: &[u8],
    store: &mut [u8],
    p: Parser,
    depth: usize,
    k: Limits,
) -> Result<ParsedNode, Refusal>
    requires { ReadyCommand s.now store.old p }
    ensures { Builds store.old store.new p.made p (parse_limits (λ q. parse_single_node depth s.now q) s.now k p) result }
{
    let Some(side) = script_of(p.peek.token) else {
        return make_alone(store, p, k);
    };
    let begin = p.next_token(s).next_token(s);
    let x = parse_single_node(s, store, begin, depth)?;
    if !x.after.peek_token_is(other_limit(side)) {
        return make_limit(store, x.after, k, side, x.node);
    }
    let operand = x.after.next_token(s).next_token(s);
    let y = parse_single_node(s, store, operand, depth)?;
    make_limits(store, y.after, k, side, x.node, y.node)
}

// A limit with what stands below it.
#[cycle(parser)]
fn parse_lim(
    s: &[u8],
    store: &mut [u8],
    p: Parser,
    depth: usize,
    t: u32,
) -> Result<ParsedNode, Refusal>
    requires { ReadyCommand s.now store.old p }
    ensures { Builds store.old store.new p.made p (parse_lim (λ q. parse_single_node depth s.now q) s.now t p) result }
{
    if !p.peek_token_is(Mark::Underscore) {
        return make_leaf(store, p, Leaf::Function(t));
    }
    let begin = p.next_token(s).next_token(s);
    let under = parse_single_node(s, store, begin, depth)?;
    make_leaf_first(
        store,
        under.after,
        Two::Under,
        Leaf::Function(t),
        under.node,
    )
}

// A slashed node, whose braces are passed unseen.
#[cycle(parser)]
fn parse_slashed(s: &[u8], store: &mut [u8], p: Parser, depth: usize) -> Result<ParsedNode, Refusal>
    requires { ReadyCommand s.now store.old p }
    ensures { Builds store.old store.new p.made p (parse_slashed (λ q. parse_node depth s.now q) s.now p) result }
{
    let begin = p.next_token(s).next_token(s);
    let a = parse_node(s, store, begin, depth)?;
    let after = a.after.next_token(s);
    make_one(store, after, One::Slashed, a.node)
}

// A node whose letters get a variant.
#[cycle(parser)]
fn parse_style(
    s: &[u8],
    store: &mut [u8],
    p: Parser,
    depth: usize,
    v: Variant,
) -> Result<ParsedNode, Refusal>
    requires { ReadyCommand s.now store.old p }
    ensures { Builds store.old store.new p.made p (parse_style (λ q. parse_node depth s.now q) s.now v p) result }
{
    let begin = p.next_token(s);
    let n = parse_node(s, store, begin, depth)?;
    set_variant(store, n.node, v, n.after.made);
    Ok(n)
}

// A group between two fences.
#[cycle(parser)]
fn parse_left(s: &[u8], store: &mut [u8], p: Parser, depth: usize) -> Result<ParsedNode, Refusal>
    requires { ReadyCommand s.now store.old p }
    ensures { Builds store.old store.new p.made p (parse_left (λ q. parse_node depth s.now q) s.now p) result }
{
    let begin = p.next_token(s);
    let first = fence_of(begin.cur.token).ok_or(Refusal::MissingParensethis)?;
    let content = parse_group(s, store, begin, depth, Mark::Right)?;
    let after = content.after.next_token(s);
    make_fenced(store, after, first, content.node)
}

// A stretched operator.
#[cycle(parser)]
fn parse_middle(s: &[u8], store: &mut [u8], p: Parser, depth: usize) -> Result<ParsedNode, Refusal>
    requires { ReadyCommand s.now store.old p }
    ensures { Builds store.old store.new p.made p (parse_middle (λ q. parse_single_node depth s.now q) s.now p) result }
{
    let begin = p.next_token(s);
    let n = parse_single_node(s, store, begin, depth)?;
    make_stretched(store, n.after, n.node)
}

// An environment, which is looked up after its content is read; the name behind `\end` is passed unseen.
#[cycle(parser)]
fn parse_begin(s: &[u8], store: &mut [u8], p: Parser, depth: usize) -> Result<ParsedNode, Refusal>
    requires { ReadyCommand s.now store.old p }
    ensures { Builds store.old store.new p.made p (parse_begin (λ q. parse_node depth s.now q) s.now p) result }
{
    let begin = p.next_token(s);
    let name = begin.parse_text(s);
    let content = parse_group(s, store, name.after, depth, Mark::End)?;
    let behind = content.after.next_token(s);
    let last = behind.parse_text(s);
    let env = environment_of(&s[name.a..name.e]);
    make_environment(store, last.after, env, content.node)
}

// The nodes up to a token, as one node. The loop is a `while`, since the end is a token that is found by reading: there is nothing to count. It is not one
// with that of a whole body, which is outside the cycle, ends where this one refuses, and makes no node.
#[cycle(parser)]
fn parse_group(
    s: &[u8],
    store: &mut [u8],
    p: Parser,
    depth: usize,
    end: Mark,
) -> Result<ParsedNode, Refusal>
    requires { Ready s.now store.old p × (end ≢ Mark.EOF) }
    ensures { Builds store.old store.new p.made p (parse_group (λ q. parse_node depth s.now q) s.now end p) result }
{
    let mut q = p.next_token(s);
    let mut nodes = Linked::default();
    while !q.cur_token_is(end) {
        if q.cur_token_is(Mark::EOF) {
            return Err(Refusal::UnexpectedToken);
        }
        let n = parse_node(s, store, q, depth)?;
        nodes.push(store, n.node);
        q = n.after.next_token(s);
    }
    make_row(store, q, nodes)
}
