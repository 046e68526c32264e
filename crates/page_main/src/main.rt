// The page program: standard input is a document, and standard output its page in the old dialect, or a line with the number of the refusal. There is no
// heap, so its buffers are arrays.
#![tactic(auto)]

ghost use Rattle.std.specs.Prelude.{◌≡◌, ◌≤◌, ◌<◌, length, take};
ghost use Rattle.text.specs.Put.{RoomAt, PutsAt, Room, Puts};
ghost use Rattle.page_main.specs.Program.{read_limit, decimal, refusal, Answers};

use error::Refusal;
use input::read_full;
use latex2mathml::Manner;
use page::page;
use std::io;
use std::io::Print;
use text::Dialect;
use text::put::Output;

// Puts a number of one or two digits, as every number of a refusal is. It is written by hand, as the line below is, since `write!` into
// a lent slice says how many bytes it wrote, but not which.
fn put_decimal(n: u32, out: &mut Output)
    requires n_bound { n < 100 }
    requires room { Room out.old (length (decimal n)) }
    ensures { Puts out.old out.new (decimal n) }
{
    let last = b'0' + (n % 10) as u8;
    if n < 10 {
        out.put(&[last]);
    } else {
        out.put(&[b'0' + (n / 10) as u8, last]);
    }
}

// Puts the line that tells a refusal, and answers its length.
fn put_refusal(r: Refusal, out: &mut [u8]) -> usize
    requires { RoomAt out.old 0 (length (refusal r)) }
    ensures { PutsAt out.old out.new 0 (refusal r) result }
{
    let mut output = Output::new(out, 0);
    output.put(b"refused ");
    put_decimal(u32::from(r), &mut output);
    output.put(b"\n");
    output.at
}

// Puts what is to be written for a document and answers its length; no contract of `io` can say what is written, so this one says it.
fn answer(document: &[u8], out: &mut [u8; 65536]) -> usize
    ensures { Answers document.now result out.new }
{
    let mut store = [0u8; 61440];
    let mut work = [0u8; 65536];
    let manner = Manner {
        dialect: Dialect::Old,
    };
    match page(manner, document, &mut store, &mut work, out) {
        Ok(totals) => totals.length,
        Err(r) => put_refusal(r, out),
    }
}

// The same for the n bytes that were read, with a place more for them than a document may have bytes. It stands beside `main`, whose contract can't name
// what is written. The array and n are two parameters, as the promise names the length of the whole array.
fn respond(input: &[u8; 32769], n: usize, out: &mut [u8; 65536]) -> usize
    requires { n ≤ length input.now }
    ensures { (length input.now ≡ read_limit) × Answers (take n input.now) result out.new }
{
    answer(&input[..n], out)
}

fn main(rt: HostRuntime) -> io::Result<()> {
    let mut input = [0u8; 32769];
    let n = read_full(&mut rt.stdin(), &mut input)?;
    let mut out = [0u8; 65536];
    let length = respond(&input, n, &mut out);
    rt.write_all(&out[..length])
}
