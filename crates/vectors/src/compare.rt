// The comparison of an answer with the stored one: numbers, counts, the output, and the bytes behind what may be written.
ghost use Rattle.std.specs.Prelude.{true, ◌≡◌, ◌≤◌, length, take};
ghost use Rattle.vectors.specs.Judged.{Agrees, Judged};

use crate::ask::ask;
use crate::case::{Case, Numbers, Question};
use crate::packed::Filled;

// Whether an answer is the stored one; where it is not, the error is the number that came, 0 for an acceptance, as in the list, and where nothing known
// was asked. The number is only told, and what was asked is told beside it, so an enum of the three would be no plainer.
pub type Verdict = Result<(), usize>;

// Whether the numbers of an answer are the stored ones.
fn agrees(case: Case, got: Numbers, length: usize) -> bool
    ensures { result ≡ true → Agrees case got length }
{
    let expected = Numbers {
        length,
        ..case.expected
    };
    got == expected
}

// Whether two buffers begin with the same n bytes. It takes n and no slices of n bytes, since either buffer may be shorter: that is tested here alone.
fn alike(a: &[u8], b: &[u8], n: usize) -> bool
    ensures { result ≡ true → take n a.now ≡ take n b.now }
{
    n <= a.len() && n <= b.len() && &a[..n] == &b[..n]
}

// Judges an answer by its numbers and by the first bytes of the output, up to an end behind its length; the promise names that end, as a number.
fn judge(case: Case, got: Numbers, length: usize, out: &[u8], want: &[u8], end: usize) -> Verdict
    ensures { Judged case got length out.now want.now end result }
{
    if agrees(case, got, length) && alike(out, want, end) {
        Ok(())
    } else {
        Err(got.number)
    }
}

// Puts what the output is to begin with: of a body the stored text in its wrapper, or nothing for a refusal.
fn put_wanted(case: Case, question: Question, line: &mut &[u8], wanted: &mut Filled) {
    match question {
        Question::Body(display) if case.expected.number == 0 => {
            wanted.put_opening(display);
            wanted.unpack(line);
            wanted.put_piece(b"</math>");
        }
        Question::Body(_) => {}
        Question::Document | Question::Page => wanted.unpack(line),
    }
}

// Compares the answer to a question, asked with a work buffer. Behind what is written 64 bytes are looked at, which stay the byte 85 that the buffers begin
// with. What is wanted of the output is taken off the line.
// Case, question and text are no struct: a case may ask two questions, and the text stands in a buffer of its own. There is no heap, so the buffers are
// arrays, here and in `main`.
fn compare_over(
    case: Case,
    question: Question,
    text: &[u8],
    line: &mut &[u8],
    work: &mut [u8],
) -> Verdict {
    let mut store = [0u8; 196608];
    let mut out = [85u8; 131072];
    let mut want = [85u8; 131072];
    let mut wanted = Filled::new(&mut want);
    put_wanted(case, question, line, &mut wanted);
    let length = wanted.end;
    let end = length.saturating_add(64).min(want.len());
    let got = ask(case, question, text, &mut store, work, &mut out);
    judge(case, got, length, &out, &want, end)
}

// Compares a document. The text behind its output is what the work buffer is to begin with; where that alone differs, the number that came is the stored
// one.
fn compare_document(case: Case, text: &[u8], mut line: &[u8]) -> Verdict {
    let mut work = [85u8; 65536];
    let mut want_work = [85u8; 65536];
    compare_over(case, Question::Document, text, &mut line, &mut work)?;
    let mut pass_one = Filled::new(&mut want_work);
    pass_one.unpack(&mut line);
    let end = pass_one.end.saturating_add(64).min(want_work.len());
    if alike(&work, &want_work, end) {
        Ok(())
    } else {
        Err(case.expected.number)
    }
}

// Compares a page; what its work buffer holds afterwards is free.
fn compare_page(case: Case, text: &[u8], mut line: &[u8]) -> Verdict {
    let mut work = [85u8; 65536];
    compare_over(case, Question::Page, text, &mut line, &mut work)
}

// Compares the answer to a question. A body wants no work buffer, and clearing one takes longer than to translate a short body, so each question has the
// buffers that it wants and no more.
pub fn compare(case: Case, question: Question, text: &[u8], mut line: &[u8]) -> Verdict {
    match question {
        Question::Body(_) => compare_over(case, question, text, &mut line, &mut []),
        Question::Document => compare_document(case, text, line),
        Question::Page => compare_page(case, text, line),
    }
}
