// The parser's state, and what it makes of the nodes that it has read: the Rust's parse.rs but for the calls among its functions.
#![tactic(auto)]

pub mod environments;
pub mod marks;

ghost use Rattle.std.specs.Prelude.{◌≡◌, true, ◌≤◌, length, drop};
ghost use Rattle.token.specs.Command.{acts_on_a_digit};
ghost use Rattle.parser.specs.State.{following, next, new, cur_is, peek_is, parse_text, PastLetters};
ghost use Rattle.parser.specs.Sound.{Sound};

use crate::marks::token_is;
use attribute::{ColumnAlign, DisplayStyle};
use lexer::Lexeme;
use lexer::letters::past_alphabetic;
use lexer::reader::token_from;
use token::{Mark, Token};

// The Rust's `Parser`, by value: the lexer stands at the end of `peek`, and `made` counts the records in the store, a lent slice that keeps no count.
#[derive(Clone, Copy)]
pub struct Parser {
    pub cur: Lexeme,
    pub peek: Lexeme,
    pub made: usize,
}

// A text of the body: the letters from a up to e, and the state behind them. The two are places of the body, as a record of the store holds numbers.
#[derive(Clone, Copy)]
pub struct TextRead {
    pub a: usize,
    pub e: usize,
    pub after: Parser,
}

// A node that is read, by its index, and the state behind it: the Rust's `Result<Node, LatexError>` is a `Result` of one.
#[derive(Clone, Copy)]
pub struct ParsedNode {
    pub node: usize,
    pub after: Parser,
}

// Where the operand of a script or of a limit stands.
#[derive(Clone, Copy, PartialEq, Eq)]
pub enum Side {
    Under,
    Over,
}

// The commands with two operands.
#[derive(Clone, Copy)]
pub enum Pair {
    Frac,
    Binom(Option<DisplayStyle>),
    Overset,
    Underset,
}

// The operators with limits, each with its character.
#[derive(Clone, Copy)]
pub enum Limits {
    BigOp(u32),
    Integral(u32),
}

// A matrix with its alignment, alone or between two fixed texts, by their numbers, as a record holds numbers.
#[derive(Clone, Copy)]
pub enum Environment {
    Bare(ColumnAlign),
    Between(u32, u32),
}

// The token from a place on; of a number that begins at the place itself, and not behind whitespace, the first digit alone. Body and place are two
// parameters here and below: the state keeps the place without the body, so a struct of both would be made anew for each token.
fn digit_or_token(s: &[u8], at: usize) -> Lexeme
    requires { at ≤ length s.now }
    ensures { (t : Token) → acts_on_a_digit t ≡ true → result ≡ following t at (drop at s.now) }
{
    let next = token_from(s, at);
    match next.token {
        Token::Number(begin, _) if begin == at => {
            let end = begin + 1;
            Lexeme {
                token: Token::Number(begin, end),
                start: begin,
                end,
            }
        }
        _ => next,
    }
}

// The token behind t, which ends at a place: a digit directly behind a token that acts on it is a number.
#[tactic(auto, unfolding(crate::specs::State::following))]
fn following(t: Token, s: &[u8], at: usize) -> Lexeme
    requires { at ≤ length s.now }
    ensures { result ≡ following t at (drop at s.now) }
{
    if t.acts_on_a_digit() {
        return digit_or_token(s, at);
    }
    token_from(s, at)
}

// The first token from a place on that is no letter. An ASCII letter is passed as a byte: no character is wanted here, and to make a token of each only
// to pass it takes half as much again.
fn past_letters(s: &[u8], from: usize) -> Lexeme
    requires { from ≤ length s.now }
    ensures { PastLetters s.now from result × (result.end ≤ length s.now) }
{
    let mut l = token_from(s, past_alphabetic(s, from));
    while let Token::Letter(_, _) = l.token {
        l = token_from(s, past_alphabetic(s, l.end));
    }
    l
}

impl Parser {
    // The state before the first token of a body.
    #[tactic(auto, using(crate::proofs::TextLaws::next_inside), unfolding(crate::specs::State::new))]
    pub fn new(s: &[u8]) -> Parser
        ensures { result ≡ new s.now }
    {
        let nothing = Lexeme {
            token: Token::EOF,
            start: 0,
            end: 0,
        };
        let p = Parser {
            cur: nothing,
            peek: nothing,
            made: 0,
        };
        p.next_token(s).next_token(s)
    }

    // Moves on by one token: the lexer reads from the end of `peek`.
    #[tactic(auto, unfolding(crate::specs::State::next))]
    pub fn next_token(self, s: &[u8]) -> Parser
        requires { self.peek.end ≤ length s.now }
        ensures { result ≡ next s.now self }
    {
        let cur = self.peek;
        let peek = following(cur.token, s, cur.end);
        Parser { cur, peek, ..self }
    }

    // Whether the current token is the one that a mark names.
    pub fn cur_token_is(self, m: Mark) -> bool
        ensures { result ≡ cur_is self m }
    {
        token_is(self.cur.token, m)
    }

    // Whether the token behind the current one is the one that a mark names.
    pub fn peek_token_is(self, m: Mark) -> bool
        ensures { result ≡ peek_is self m }
    {
        token_is(self.peek.token, m)
    }

    // Passes the current token unseen, and reads the letters behind it.
    pub fn parse_text(self, s: &[u8]) -> TextRead
        requires { Sound s.now self }
        ensures { result ≡ parse_text s.now self }
    {
        let begin = self.peek;
        match begin.token {
            Token::Letter(_, _) => {
                let cur = past_letters(s, begin.end);
                let peek = following(cur.token, s, cur.end);
                TextRead {
                    a: begin.start,
                    e: cur.start,
                    after: Parser { cur, peek, ..self },
                }
            }
            _ => TextRead {
                a: begin.start,
                e: begin.start,
                after: self.next_token(s),
            },
        }
    }
}
