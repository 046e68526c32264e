// A stored case: what is asked, with what lent, and the answer in numbers.
ghost use Rattle.std.specs.Prelude.{◌≤◌, length};

use crate::packed::decimal;
use attribute::DisplayStyle;
use latex2mathml::Manner;
use text::Dialect;

// What is asked of a text.
#[derive(Clone, Copy)]
pub enum Question {
    Body(DisplayStyle),
    Document,
    Page,
}

impl Question {
    // Its letter in the list. It is no `From`, which would not say that the letter is the list's.
    pub fn letter(self) -> char {
        match self {
            Question::Body(DisplayStyle::Block) => 'B',
            Question::Body(DisplayStyle::Inline) => 'I',
            Question::Document => 'D',
            Question::Page => 'P',
        }
    }
}

// What a case asks: one question, or a body in both displays.
#[derive(Clone, Copy)]
pub enum Asked {
    One(Question),
    BothDisplays,
}

// A letter that asks nothing known.
#[derive(Clone, Copy)]
pub struct AsksNothing;

// What a letter asks.
impl TryFrom<u8> for Asked {
    type Error = AsksNothing;

    fn try_from(letter: u8) -> Result<Asked, AsksNothing> {
        match letter {
            b'M' => Ok(Asked::BothDisplays),
            b'B' => Ok(Asked::One(Question::Body(DisplayStyle::Block))),
            b'I' => Ok(Asked::One(Question::Body(DisplayStyle::Inline))),
            b'D' => Ok(Asked::One(Question::Document)),
            b'P' => Ok(Asked::One(Question::Page)),
            _ => Err(AsksNothing),
        }
    }
}

// An answer in the numbers of the list: the number of the refusal, the length, and the counts of a page. The number is 0 for none, as in the list, so
// that one derived `==` compares a stored answer with one that came.
#[derive(Clone, Copy, Default, PartialEq)]
pub struct Numbers {
    pub number: usize,
    pub length: usize,
    pub paragraphs: usize,
    pub left: usize,
}

// What a line's head says: what is asked and how it is printed, the lengths lent, and the numbers that are expected, but for the length.
#[derive(Clone, Copy)]
pub struct Case {
    pub asked: Option<Asked>,
    pub scope: bool,
    pub manner: Manner,
    pub store: usize,
    pub work: usize,
    pub output: usize,
    pub expected: Numbers,
}

impl Default for Case {
    // The old dialect is asked and enough is lent where the head does not say otherwise, and the answer is an acceptance.
    fn default() -> Case {
        Case {
            asked: None,
            scope: false,
            manner: Manner {
                dialect: Dialect::Old,
            },
            store: 196608,
            work: 65536,
            output: 131072,
            expected: Numbers::default(),
        }
    }
}

impl Case {
    // Takes in what one letter of the head and the number behind it say; the last letter of what is asked counts.
    fn take(&mut self, letter: u8, n: usize) {
        match letter {
            b'!' => self.scope = true,
            b'S' => self.manner.dialect = Dialect::Strict,
            b's' => self.store = n,
            b'w' => self.work = n,
            b'o' => self.output = n,
            b'n' => self.expected.number = n,
            b'p' => self.expected.paragraphs = n,
            b'l' => self.expected.left = n,
            _ => self.asked = Asked::try_from(letter).ok(),
        }
    }
}

// Takes the head of a line, up to its first tab.
pub fn read_head(line: &mut &[u8]) -> Case
    ensures { length line.new.now ≤ length line.old.now }
{
    let mut case = Case::default();
    while let Some(&letter) = line.split_off_first() {
        if letter == b'\t' {
            break;
        }
        let n = decimal(line);
        case.take(letter, n);
    }
    case
}
