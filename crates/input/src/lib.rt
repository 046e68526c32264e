// What the programs read: standard input, up to the end of a buffer.
#![tactic(auto)]

ghost use Rattle.std.specs.Prelude.{◌≤◌, ◌<◌, IfOk, length, take};
ghost use Rattle.std.specs.Io.KnownBytes.{Consumes, IsAtEnd};

use std::io;
use std::io::Read;

// Reads until the buffer is full or the input ends, and answers how many bytes stand at its start. What the buffer holds after a failed read is free.
// It is a loop over `read`, since std's `read_exact` fails on a short input and says little then, and its `read_to_end` wants the heap.
pub fn read_full<R: Read>(from: &mut R, input: &mut [u8]) -> io::Result<usize>
    ensures bound { IfOk result (λ n. n ≤ length input.new) }
    ensures bytes { IfOk result (λ n. Consumes (R.remaining from.old) (R.remaining from.new) (take n input.new)) }
    ensures end { IfOk result (λ n. n < length input.new → IsAtEnd (R.remaining from.new)) }
{
    let mut done: usize = 0;
    while done < input.len() {
        let n = from.read(&mut input[done..])?;
        if n == 0 {
            break;
        }
        done += n;
    }
    Ok(done)
}
