// What the parser asks of a token.
ghost use Rattle.std.specs.Prelude.{◌≡◌, true};
ghost use Rattle.token.specs.Roles.{paren_mark, operator_mark, mark_of, token_is, paren_of, fence_of};
ghost use Rattle.parser.specs.Marks.{script_of, script_kind, repeats, other_limit, leaf_of, is_defined, is_put_on, stands_alone};

use crate::Side;
use ast::{Leaf, Two};
use token::{Mark, Token, Undefined};

// The mark of a parenthesis, by its text. None is `Mark::Other` here and below, as the definition has it: an Option would wrap each mark that is asked for.
#[tactic(auto, unfolding(token::specs::Roles::paren_mark, token::specs::Texts::text, token::specs::Texts::texts))]
fn paren_mark(t: u32) -> Mark
    ensures { result ≡ paren_mark t }
{
    match t {
        3 => Mark::LBracket, // [
        4 => Mark::RBracket, // ]
        _ => Mark::Other,
    }
}

// The mark of an operator, by its character.
#[tactic(auto, unfolding(token::specs::Roles::operator_mark))]
fn operator_mark(c: u32) -> Mark
    ensures { result ≡ operator_mark c }
{
    match c {
        39 => Mark::Prime, // '
        46 => Mark::Period, // .
        _ => Mark::Other,
    }
}

// The mark by which a token is compared: most tokens are never asked for, and have the mark of the others.
#[tactic(auto, unfolding(token::specs::Roles::mark_of))]
fn mark_of(t: Token) -> Mark
    ensures { result ≡ mark_of t }
{
    match t {
        Token::EOF => Mark::EOF,
        Token::End => Mark::End,
        Token::Right => Mark::Right,
        Token::RBrace => Mark::RBrace,
        Token::Underscore => Mark::Underscore,
        Token::Circumflex => Mark::Circumflex,
        Token::Paren(n) => paren_mark(n),
        Token::Operator(c) => operator_mark(c),
        _ => Mark::Other,
    }
}

// The Rust's `==` of a token with one that it names.
#[tactic(auto, using(crate::proofs::MarkLaws::mark_place), unfolding(token::specs::Roles::token_is))]
pub fn token_is(t: Token, m: Mark) -> bool
    ensures { result ≡ token_is t m }
{
    mark_of(t) == m
}

// The text of a parenthesis.
#[tactic(auto, unfolding(token::specs::Roles::paren_of))]
pub fn paren_of(t: Token) -> Option<u32>
    ensures { result ≡ paren_of t }
{
    match t {
        Token::Paren(n) => Some(n),
        _ => None,
    }
}

// The number of a fence's text: a parenthesis's, or for a period 0, the empty text. A record holds the number of its text, and its printer knows no other
// case.
#[tactic(auto, using(crate::proofs::MarkLaws::fence_as))]
pub fn fence_of(t: Token) -> Option<u32>
    ensures { result ≡ fence_of t }
{
    paren_of(t).or(token_is(t, Mark::Period).then_some(0))
}

// Where the operand of a script stands, if the token is the mark of one.
#[tactic(auto, unfolding(crate::specs::Marks::script_of, token::specs::Roles::token_is, token::specs::Roles::mark_number))]
pub fn script_of(t: Token) -> Option<Side>
    ensures { result ≡ script_of t }
{
    match mark_of(t) {
        Mark::Underscore => Some(Side::Under),
        Mark::Circumflex => Some(Side::Over),
        _ => None,
    }
}

// The node of a script: not every use of a side, so no `From`.
pub fn script_kind(side: Side) -> Two
    ensures { result ≡ script_kind side }
{
    match side {
        Side::Under => Two::Subscript,
        Side::Over => Two::Superscript,
    }
}

// Whether a mark is the one before it again, both by where their operands stand. It is a function since its contract names the rule of the definition.
#[tactic(auto, using(crate::proofs::MarkLaws::sides_same))]
pub fn repeats(side: Side, again: Side) -> bool
    ensures { result ≡ repeats side again }
{
    side == again
}

// The mark of the other limit. It is no `From`, which would be read as the side's own mark.
pub fn other_limit(side: Side) -> Mark
    ensures { result ≡ other_limit side }
{
    match side {
        Side::Under => Mark::Circumflex,
        Side::Over => Mark::Underscore,
    }
}

// The leaf that a token is by itself; a token with operands is none, and any leaf will do. It is no `From`, since not every token is a leaf, and no
// `Option`, since the definition gives such a token an undefined leaf as well.
#[tactic(auto, unfolding(crate::specs::Marks::leaf_of))]
pub fn leaf_of(t: Token) -> Leaf
    ensures { result ≡ leaf_of t }
{
    match t {
        Token::Number(a, e) => Leaf::Number(a, e),
        Token::Letter(c, v) => Leaf::Letter(c, v),
        Token::Operator(c) => Leaf::Operator(c),
        Token::Function(n) => Leaf::Function(n),
        Token::Space(w) => Leaf::Space(w),
        Token::Paren(n) => Leaf::OtherOperator(n),
        Token::Ampersand => Leaf::Ampersand,
        Token::NewLine => Leaf::NewLine,
        Token::End => Leaf::Undefined(Undefined::End),
        Token::Right => Leaf::Undefined(Undefined::Right),
        Token::RBrace => Leaf::Undefined(Undefined::RBrace),
        Token::Underscore => Leaf::Undefined(Undefined::Underscore),
        Token::Circumflex => Leaf::Undefined(Undefined::Circumflex),
        Token::Command(a, e) => Leaf::Undefined(Undefined::Command(a, e)),
        _ => Leaf::Undefined(Undefined::EOF),
    }
}

// Whether a token is a leaf by itself, and not an undefined one. It stands beside `leaf_of`, as in the definition: the test is wanted first, and the leaf
// only where the answer is yes.
#[tactic(auto, unfolding(crate::specs::Marks::leaf_of, crate::specs::Marks::is_defined))]
fn is_plain(t: Token) -> bool
    ensures { result ≡ is_defined (leaf_of t) }
{
    matches!(
        t,
        Token::Number(_, _)
            | Token::Letter(_, _)
            | Token::Operator(_)
            | Token::Function(_)
            | Token::Space(_)
            | Token::Paren(_)
            | Token::Ampersand
            | Token::NewLine
    )
}

// Whether a token is put on the node before it: a prime, or a script with its operand.
#[tactic(auto, unfolding(crate::specs::Marks::is_put_on, token::specs::Roles::token_is, token::specs::Roles::mark_number))]
fn is_put_on(t: Token) -> bool
    ensures { result ≡ is_put_on t }
{
    matches!(
        mark_of(t),
        Mark::Prime | Mark::Underscore | Mark::Circumflex
    )
}

// Whether a token is a whole node: nothing is put on the leaf that it is.
#[tactic(auto, unfolding(crate::specs::Marks::stands_alone))]
pub fn stands_alone(t: Token, behind: Token) -> bool
    ensures { result ≡ stands_alone t behind }
{
    is_plain(t) && !is_put_on(behind)
}

// Whether a token is a letter or a number with nothing put on it, as the operand of a script mostly is; then it stands alone.
pub fn is_usual_operand(t: Token, behind: Token) -> bool
    ensures { result ≡ true → stands_alone t behind ≡ true }
{
    matches!(t, Token::Letter(_, _) | Token::Number(_, _)) && !is_put_on(behind)
}
