// Reading of input, for the programs.
#![tactic(auto)]

ghost use Rattle.std.specs.Prelude.{IfOk, ◌<◌, length, take};
ghost use Rattle.std.specs.Io.{ReadsAtMost};
ghost use Rattle.std.specs.Io.KnownBytes.{Consumes, IsAtEnd};

use std::io;
use std::io::Read;

// Reads until the bytes are full or the input ends, and answers how many it put at their front.
pub fn read_full<R: Read>(input: &mut R, bytes: &mut [u8]) -> io::Result<usize>
    ensures bound { ReadsAtMost result bytes.new }
    ensures bytes { IfOk result (λ n. Consumes (R.remaining input.old) (R.remaining input.new) (take n bytes.new)) }
    ensures end { IfOk result (λ n. n < length bytes.new → IsAtEnd (R.remaining input.new)) }
{
    // No read_exact: it tells no count where the input ends before. No Vec: what the programs read has a fixed size.
    let mut done = 0;
    while done < bytes.len() {
        let read = input.read(&mut bytes[done..])?;
        if read == 0 {
            break;
        }
        done += read;
    }
    Ok(done)
}
