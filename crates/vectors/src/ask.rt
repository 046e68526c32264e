// The three operations, asked with the lengths that a case lends.

use crate::case::{Case, Numbers, Question};
use error::Refusal;
use latex2mathml::replace::replace;
use latex2mathml::translate::latex_to_mathml;
use page::{Totals, page};

// What a refusal says: its number, and no lengths. One conversion over both answers below would want one of a length and one of the totals beside it.
impl From<Refusal> for Numbers {
    fn from(r: Refusal) -> Numbers {
        Numbers {
            number: u32::from(r) as usize,
            ..Numbers::default()
        }
    }
}

impl From<Result<usize, Refusal>> for Numbers {
    fn from(answer: Result<usize, Refusal>) -> Numbers {
        match answer {
            Ok(length) => Numbers {
                length,
                ..Numbers::default()
            },
            Err(r) => r.into(),
        }
    }
}

impl From<Result<Totals, Refusal>> for Numbers {
    fn from(answer: Result<Totals, Refusal>) -> Numbers {
        match answer {
            Ok(totals) => Numbers {
                number: 0,
                length: totals.length,
                paragraphs: totals.paragraphs,
                left: totals.left,
            },
            Err(r) => r.into(),
        }
    }
}

// Asks a question of a text. A case cannot lend more than there is. The three buffers are no struct: `compare` makes those that a question wants,
// and looks at two of them by themselves afterwards.
pub fn ask(
    case: Case,
    question: Question,
    text: &[u8],
    store: &mut [u8],
    work: &mut [u8],
    out: &mut [u8],
) -> Numbers {
    let manner = case.manner;
    let records = case.store.min(store.len());
    let between = case.work.min(work.len());
    let room = case.output.min(out.len());
    let store = &mut store[..records];
    let work = &mut work[..between];
    let out = &mut out[..room];
    match question {
        Question::Body(display) => latex_to_mathml(manner, text, display, store, out).into(),
        Question::Document => replace(manner, text, store, work, out).into(),
        Question::Page => page(manner, text, store, work, out).into(),
    }
}
