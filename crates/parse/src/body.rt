// A whole body: the Rust's `Parser::parse`.
ghost use Rattle.std.specs.Prelude.{◌≡◌, ◌*◌, ◌≤◌, length};
ghost use Rattle.parser.specs.Parse.{parse};
ghost use Rattle.parse.specs.Body.{parse_body, BodyAnswers};

use crate::{ParsedNodes, parse_node};
use ast::rows::Linked;
use error::Refusal;
use parser::Parser;
use token::Mark;

// The nodes up to the end of a body, with depth calls open together at most. The loop is a `while`, since the end is a token that is found by reading.
fn parse_nodes(s: &[u8], store: &mut [u8], depth: usize) -> Result<ParsedNodes, Refusal>
    requires { (length s.now ≤ 4096) × (2 * length s.now * 24 ≤ length store.old) }
    ensures { BodyAnswers s.now store.new (parse depth s.now) result }
{
    let mut q = Parser::new(s);
    let mut nodes = Linked::default();
    while !q.cur_token_is(Mark::EOF) {
        let n = parse_node(s, store, q, depth)?;
        nodes.push(store, n.node);
        q = n.after.next_token(s);
    }
    Ok(ParsedNodes {
        first: nodes.first,
        count: nodes.count,
        made: q.made,
    })
}

// The nodes of a body in a lent store, which must have two records for each byte of the body.
pub fn parse(s: &[u8], store: &mut [u8], depth: usize) -> Result<ParsedNodes, Refusal>
    ensures { BodyAnswers s.now store.new (parse_body depth s.now (length store.old)) result }
{
    if 4096 < s.len() {
        return Err(Refusal::TooLong);
    }
    if store.len() / 24 < 2 * s.len() {
        return Err(Refusal::StoreTooSmall);
    }
    parse_nodes(s, store, depth)
}
