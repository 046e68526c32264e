// A stored line: numbers in decimal, and texts that end with a tab or with the line, in which a backquote begins what is shortened or is no plain character.
// What is read of a line is taken off its front. That a line gets no longer, and that the end of a buffer's text moves on, compares what was with what is,
// which no invariant of a type says, so each contract says it.
ghost use Rattle.std.specs.Prelude.{◌≤◌, ◌<◌, length, IfSome};

use attribute::DisplayStyle;

// The value of a digit, decimal or hexadecimal. It is no `to_digit`, which takes capital letters too, and gives a u32 where lengths are wanted.
fn digit(b: u8) -> Option<usize>
    ensures { IfSome result (λ d. d < 16) }
{
    match b {
        b'0'..=b'9' => Some(usize::from(b - b'0')),
        b'a'..=b'f' => Some(usize::from(b - b'a') + 10),
        _ => None,
    }
}

// Takes a number in decimal, up to the first byte that is no digit. Where none stands there it is 0, which the list leaves out; a letter that takes
// no number has none behind it. `parse` wants a text that ends with the number.
pub fn decimal(line: &mut &[u8]) -> usize
    ensures { (length line.new.now ≤ length line.old.now) × (result < 1000000) }
{
    let mut value: usize = 0;
    while let Some((&b, rest)) = line.split_first() {
        match digit(b) {
            Some(d) if d < 10 && value < 99999 => {
                value = value * 10 + d;
            }
            _ => break,
        }
        *line = rest;
    }
    value
}

// A buffer that is filled from its front on; what finds no room in it is left out. It is not text's `Output`, which wants the room to be shown before,
// and no `Vec`, as there is no heap.
#[derive(Drop)]
pub struct Filled<'a> {
    pub bytes: &'a mut [u8],
    pub end: usize,
    ghost inside: { end ≤ length bytes.now },
}

impl<'a> Filled<'a> {
    pub fn new(bytes: &'a mut [u8]) -> Filled<'a> {
        Filled { bytes, end: 0 }
    }

    fn put_byte(&mut self, b: u8)
        ensures { self.old.end ≤ self.new.end }
    {
        if self.end < self.bytes.len() {
            self.bytes[self.end] = b;
            self.end += 1;
        }
    }

    // Puts a piece, byte by byte, since there may be room for its front alone.
    pub fn put_piece(&mut self, piece: &[u8])
        ensures { self.old.end ≤ self.new.end }
    {
        for &b in piece {
            self.put_byte(b);
        }
    }

    // Puts the opening tag of a formula in its display. It is written out here, so that what is wanted does not come from the code that is judged.
    pub fn put_opening(&mut self, display: DisplayStyle)
        ensures { self.old.end ≤ self.new.end }
    {
        self.put_piece(b"<math xmlns=\"http://www.w3.org/1998/Math/MathML\" display=\"");
        self.put_piece(match display {
            DisplayStyle::Block => b"block\">",
            DisplayStyle::Inline => b"inline\">",
        });
    }

    // Puts as many bytes as the count says, each a copy of the one that stands so far back.
    fn put_again(&mut self, back: usize, count: usize)
        ensures { self.old.end ≤ self.new.end }
    {
        if back == 0 || self.end < back {
            return;
        }
        for _ in 0..count {
            let b = self.bytes[self.end - back];
            self.put_byte(b);
        }
    }

    // Unpacks a repetition: how far back, any one byte, how many bytes, any one byte.
    fn unpack_again(&mut self, line: &mut &[u8])
        ensures { (length line.new.now ≤ length line.old.now) × (self.old.end ≤ self.new.end) }
    {
        let back = decimal(line);
        if line.split_off_first().is_some() {
            let count = decimal(line);
            self.put_again(back, count);
            line.split_off_first();
        }
    }

    // Unpacks what a backquote begins: B and I an opening tag, a star a repetition, else a byte in hexadecimal. What is no digit counts as 16, since
    // the list has none behind a backquote, and any byte will do for it.
    fn unpack_mark(&mut self, line: &mut &[u8])
        ensures { (length line.new.now ≤ length line.old.now) × (self.old.end ≤ self.new.end) }
    {
        let [mark, next, behind @ ..] = *line else {
            *line = &[];
            return;
        };
        *line = &line[1..];
        match *mark {
            b'*' => self.unpack_again(line),
            b'B' => self.put_opening(DisplayStyle::Block),
            b'I' => self.put_opening(DisplayStyle::Inline),
            _ => {
                let value = digit(*mark).unwrap_or(16) * 16 + digit(*next).unwrap_or(16);
                self.put_byte((value % 256) as u8);
                *line = behind;
            }
        }
    }

    // Unpacks the text at the front of the line, up to a tab or the end of the line.
    pub fn unpack(&mut self, line: &mut &[u8])
        ensures { (length line.new.now ≤ length line.old.now) × (self.old.end ≤ self.new.end) }
    {
        while let Some(&b) = line.split_off_first() {
            match b {
                b'\t' => break,
                b'`' => self.unpack_mark(line),
                _ => self.put_byte(b),
            }
        }
    }

    // What was put.
    pub fn text(self) -> &'a [u8] {
        let Filled { bytes, end } = self;
        &bytes[..end]
    }
}
