// Putting pieces of text into an output. What is put has its length from a function of its own beside it: one function that does either would be
// asked a flag at every piece, and would promise two things.

ghost use Rattle.std.specs.Prelude.{◌≡◌, ◌+◌, ◌≤◌, length};
ghost use Rattle.text.specs.Utf8.{encode};
ghost use Rattle.text.specs.Put.{put, RoomAt, PutsAt, Room, Puts};

// A lent buffer that is written from a place on, and the place behind what is written.
#[derive(Drop)]
pub struct Output<'a> {
    pub bytes: &'a mut [u8],
    pub at: usize,
}

// Copies a piece to where it fits. It goes byte by byte: std's `copy_from_slice` is the C library's `memmove`, which a host would have to bring.
fn copy(piece: &[u8], place: &mut [u8])
    requires { length place.old ≡ length piece.now }
    ensures { place.new ≡ piece.now }
{
    for (i, &b) in piece.iter().enumerate() {
        place[i] = b;
    }
}

impl<'a> Output<'a> {
    // An output that is written from a place of a buffer on.
    pub fn new(bytes: &'a mut [u8], at: usize) -> Output<'a>
        ensures same { result.bytes.ghost_name ≡ bytes.entry.ghost_name }
        ensures bytes { result.bytes.now ≡ bytes.old }
        ensures place { result.at ≡ at }
    {
        Output { bytes, at }
    }

    // Puts a piece.
    pub fn put(&mut self, piece: &[u8])
        requires { Room self.old (length piece.now) }
        ensures { Puts self.old self.new piece.now }
    {
        let end = self.at + piece.len();
        copy(piece, &mut self.bytes[self.at..end]);
        self.at = end;
    }

    // Puts the bytes of a code point. Any number is taken, as records and tokens hold numbers: core's `encode_utf8` wants a `char`, which is not any.
    pub fn put_code_point(&mut self, c: u32)
        requires { Room self.old (length (encode c)) }
        ensures { Puts self.old self.new (encode c) }
    {
        if c < 0x80 {
            return self.put(&[c as u8]);
        }
        let last = (0x80 + c % 64) as u8;
        if c < 0x800 {
            return self.put(&[(0xc0 + c / 64) as u8, last]);
        }
        let third = (0x80 + c / 64 % 64) as u8;
        if c < 0x10000 {
            return self.put(&[(0xe0 + c / 4096) as u8, third, last]);
        }
        let second = (0x80 + c / 4096 % 64) as u8;
        self.put(&[(0xf0 + c / 262144 % 8) as u8, second, third, last]);
    }
}

// Puts a piece at a place of a buffer, and answers the place behind it: for callers that are lent a buffer of which they write one piece, or whose
// place may lie behind its end, where that of an output never does.
pub fn put(piece: &[u8], out: &mut [u8], at: usize) -> usize
    requires { RoomAt out.old at (length piece.now) }
    ensures { PutsAt out.old out.new at piece.now result }
{
    let mut output = Output::new(out, at);
    output.put(piece);
    output.at
}

// The number of bytes of a code point, for any number, as above: `len_utf8` wants a `char`.
pub fn code_point_len(c: u32) -> usize
    ensures { result ≡ length (encode c) }
{
    match c {
        0..=0x7f => 1,
        0x80..=0x7ff => 2,
        0x800..=0xffff => 3,
        _ => 4,
    }
}
