// Standard input as bytes.
ghost use Rattle.std.specs.Prelude.{◌≤◌, ◌<◌, length, take, IfOk};
ghost use Rattle.std.specs.Io.KnownBytes.{Consumes, IsAtEnd};

use std::io;
use std::io::Read;

// Reads until the text is full or the input ends, and says how many bytes were read, as `Read::read` does: the promises are about these. (No
// `for`: how many bytes a read brings is for the input to say.)
pub fn read_full<R: Read>(input: &mut R, text: &mut [u8]) -> io::Result<usize>
    ensures bound { IfOk result (λ n. n ≤ length text.new) }
    ensures bytes { IfOk result (λ n. Consumes (R.remaining input.old) (R.remaining input.new) (take n text.new)) }
    ensures end { IfOk result (λ n. n < length text.new → IsAtEnd (R.remaining input.new)) }
{
    let mut n = 0;
    while n < text.len() {
        let more = input.read(&mut text[n..])?;
        if more == 0 {
            return Ok(n);
        }
        n += more;
    }
    Ok(n)
}
