// The search for a byte, and for two alike, by words of eight bytes. It is given a text and a place in it, and not what stands behind the
// place, so that each answer is a place of the whole text: `position` counts from where it begins, and its caller would add that again. The crates
// use std alone, so the search by words is written here, and proved against the definition; must-fail has wrong versions of it.
ghost use Rattle.std.specs.Prelude.{◌≡◌, ◌≤◌, length, drop};
ghost use Rattle.text.specs.Any.{contains};
ghost use Rattle.text.specs.Put.{digits};
ghost use Rattle.dollars.specs.Places.{Finds, next_place};
ghost use Rattle.dollars.specs.Search.{starts_with, pair};

// Whether one of the eight bytes of a word is b. Such a byte differs from b in no bit; seven ones added to the seven low bits of what
// differs set the high bit of every other byte, and no such sum reaches the next byte.
fn has_byte(w: u64, b: u8) -> bool
    ensures { result ≡ contains b (digits 8 w) }
{
    let other = w ^ u64::from(b) * 0x0101_0101_0101_0101;
    let sum = (other & 0x7f7f_7f7f_7f7f_7f7f) + 0x7f7f_7f7f_7f7f_7f7f;
    (sum | other) & 0x8080_8080_8080_8080 != 0x8080_8080_8080_8080
}

// Past the words without a b, from a place on. The place is counted beside the words: as a sum of `from` and the number of a word it takes more registers
// and more instructions at each search. `position` over the words would ask for that sum too, and for a closure with a contract of its own.
fn past_words(s: &[u8], from: usize, b: u8) -> usize
    requires { from ≤ length s.now }
    ensures { (next_place (starts_with b) from (drop from s.now) ≡ next_place (starts_with b) result (drop result s.now)) × (from ≤ result) × (result ≤ length s.now) }
{
    let (words, _) = s[from..].as_chunks::<8>();
    let mut i = from;
    for word in words {
        if has_byte(u64::from_le_bytes(*word), b) {
            return i;
        }
        i += 8;
    }
    from + 8 * words.len()
}

// The place of the first b from a place on: words without one are passed, and the bytes left go one by one.
pub fn next_byte(s: &[u8], from: usize, b: u8) -> Option<usize>
    requires { from ≤ length s.now }
    ensures { Finds (starts_with b) s.now from result }
{
    for i in past_words(s, from, b)..s.len() {
        if s[i] == b {
            return Some(i);
        }
    }
    None
}

// Whether a byte stands at a place; behind the end none does.
pub(crate) fn stands_at(s: &[u8], i: usize, b: u8) -> bool
    ensures { result ≡ starts_with b (drop i s.now) }
{
    s.get(i) == Some(&b)
}

// The place of the first two b side by side from a place on. Each search begins behind the place that the last one found, so the place is moved by
// hand. The second b is asked of what stands from the first on: where only the place behind the first is used, the compiler counts by that one in the
// loop of `next_byte`, with one or two instructions more for each byte.
pub fn next_pair(s: &[u8], from: usize, b: u8) -> Option<usize>
    requires { from ≤ length s.now }
    ensures { Finds (pair b) s.now from result }
{
    let mut i = from;
    while let Some(first) = next_byte(s, i, b) {
        match &s[first..] {
            [_, second, ..] if *second == b => return Some(first),
            _ => i = first + 1,
        }
    }
    None
}
