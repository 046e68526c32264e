// Replays stored answers: standard input has a case on each line, and each answer that differs from the stored one is told on a line of standard output.
//
// A line is a head, then the input, the expected output and, of a document, what the work buffer is to begin with, with a tab before
// each; a text that is missing is empty. The head is letters, some with a number behind them, in any order:
//
//   M B I D P  what is asked: a body in both displays, in block or in inline; a document; a page
//   S          in the strict dialect, and not in the old one
//   n p l      the expected number of a refusal, and a page's numbers of paragraphs and of those left as typed; 0 where it is left out
//   s w o      the lengths of the store, the work buffer and the output that are lent; 196,608, 65,536 and 131,072 where it is left out
//   !          the answer is written by hand from document 01, or put together by its rule for pages, and not the crate's own;
//              !2 where document 02 decides it, and it is written by hand or reckoned by its rules
//
// Of a body's output the wrapper is left off. In a text a backquote begins one of these: `B and `I are the opening tags of a formula in
// block and in inline, `3f is the byte with these two hexadecimal digits, and `*2,506; is 506 bytes, each a copy of the one 2 places before.
#![tactic(auto)]

mod ask;
mod case;
mod compare;
mod packed;

ghost use Rattle.std.specs.Prelude.{◌≤◌, ◌<◌, IfOk, OnSome, length, take};
ghost use Rattle.std.specs.Io.KnownBytes.{Consumes, IsAtEnd};
ghost use Rattle.vectors.specs.Counts.{AtMost, Grows};

use crate::case::{Asked, Case, Question, read_head};
use crate::compare::{Verdict, compare};
use crate::packed::Filled;
use attribute::DisplayStyle;
use input::read_full;
use std::io;
use std::io::{Print, Read};

// What was counted: cases, those of them whose answer is from the documents, answers and those of them that differ. The bound on the counts differs
// from function to function, so it stands in their contracts, and is no invariant here.
#[derive(Clone, Copy, Default)]
pub struct Tally {
    pub cases: u64,
    pub scope: u64,
    pub answers: u64,
    pub differ: u64,
}

impl Tally {
    // One case more.
    fn with_case(mut self, case: Case) -> Tally
        requires { AtMost self 2000000 }
        ensures { Grows self result 1 }
    {
        self.cases += 1;
        if case.scope {
            self.scope += 1;
        }
        self
    }

    // One answer more, told if it differs; a case that asks nothing known has no question.
    fn with_answer(mut self, rt: &impl Print, asked: Option<Question>, verdict: Verdict) -> Tally
        requires { AtMost self 2000000 }
        ensures { Grows self result 1 }
    {
        self.answers += 1;
        if let Err(number) = verdict {
            tell(rt, self.cases, asked, number);
            self.differ += 1;
        }
        self
    }
}

// Tells an answer that differs by the number of its line, the letter of what was asked, or a question mark, and the number that came; what cannot be
// written is still counted.
fn tell(rt: &impl Print, line: u64, asked: Option<Question>, number: usize) {
    let kind = match asked {
        Some(question) => question.letter(),
        None => '?',
    };
    let _ = println!(rt; "line {line}, {kind}: answered {number}, and differs");
}

// Asks a question, and counts the answer; the expected texts are left on the line. What is handed on here and below is no struct, since the tally is a
// value that each answer gives anew, and the question differs from answer to answer.
fn count_answer(
    rt: &impl Print,
    case: Case,
    question: Question,
    text: &[u8],
    line: &[u8],
    tally: Tally,
) -> Tally
    requires { AtMost tally 2000000 }
    ensures { Grows tally result 1 }
{
    let verdict = compare(case, question, text, line);
    tally.with_answer(rt, Some(question), verdict)
}

// Asks what a case says, and counts each answer; one that asks nothing known differs.
fn count_answers(rt: &impl Print, case: Case, text: &[u8], line: &[u8], tally: Tally) -> Tally
    requires { AtMost tally 1800000 }
    ensures { Grows tally result 2 }
{
    match case.asked {
        Some(Asked::BothDisplays) => {
            let block = Question::Body(DisplayStyle::Block);
            let inline = Question::Body(DisplayStyle::Inline);
            let first = count_answer(rt, case, block, text, line, tally);
            count_answer(rt, case, inline, text, line, first)
        }
        Some(Asked::One(question)) => count_answer(rt, case, question, text, line, tally),
        None => tally.with_answer(rt, None, Err(0)),
    }
}

// Replays the case of a line. The buffer comes first: behind the reading of the head it would be cleared twice.
fn replay(rt: &impl Print, mut line: &[u8], tally: Tally) -> Tally
    requires { AtMost tally 1600000 }
    ensures { Grows tally result 3 }
{
    let mut buffer = [0u8; 65536];
    let case = read_head(&mut line);
    let mut input = Filled::new(&mut buffer);
    input.unpack(&mut line);
    let counted = tally.with_case(case);
    count_answers(rt, case, input.text(), line, counted)
}

// Takes a line off the front of the list; what has no end is none.
fn next_line<'a>(list: &mut &'a [u8]) -> Option<&'a [u8]>
    ensures { OnSome result (length list.new.now < length list.old.now) }
{
    let end = list.iter().position(|b| *b == b'\n')?;
    let (line, rest) = list.split_at(end);
    *list = &rest[1..];
    Some(line)
}

// Replays the cases of all lines. A `for` over `split_inclusive` gets no proof here, by a closure or by a function: what the check states of
// its iterator has a wrong type.
fn replay_all(rt: &impl Print, list: &[u8]) -> Tally
    requires { length list.now ≤ 524288 }
{
    let mut tally = Tally::default();
    let mut rest = list;
    while let Some(line) = next_line(&mut rest) {
        tally = replay(rt, line, tally);
    }
    tally
}

// Tells what was counted.
fn conclude(rt: &impl Print, tally: Tally) -> io::Result<()> {
    let Tally {
        cases,
        scope,
        answers,
        differ,
    } = tally;
    println!(rt;
        "{cases} cases, {scope} of them from the documents: {answers} answers compared, {differ} differ"
    )
}

// Reads the list of cases. It takes the array as such, as `replay_first` does: where `main` itself lends slices of it, the check gives no verdict on
// `main`, since the prover runs out of stack there.
fn read_list<R: Read>(from: &mut R, list: &mut [u8; 524288]) -> io::Result<usize>
    ensures bound { IfOk result (λ n. n ≤ length list.new) }
    ensures bytes { IfOk result (λ n. Consumes (R.remaining from.old) (R.remaining from.new) (take n list.new)) }
    ensures end { IfOk result (λ n. n < length list.new → IsAtEnd (R.remaining from.new)) }
{
    read_full(from, list)
}

// Replays the cases of the n bytes that were read.
fn replay_first(rt: &impl Print, list: &[u8; 524288], n: usize) -> Tally
    requires { n ≤ length list.now }
{
    replay_all(rt, &list[..n])
}

fn main(rt: HostRuntime) -> io::Result<()> {
    let mut list = [0u8; 524288];
    let n = read_list(&mut rt.stdin(), &mut list)?;
    conclude(&rt, replay_first(&rt, &list, n))
}
