// The program: four lines of hex on standard input (key, IV, associated data, text), and on standard output the ciphertext and the tag, or a
// refusal.
#![tactic(auto)]

ghost use Rattle.std.specs.Prelude.{length, IfOk};
ghost use Rattle.seal.specs.Reading.{Counted, Took, Answers};

use scope::Refusal;
use std::io;
use std::io::{Read, Write};

// One byte more than the longest input that can be well formed: a full buffer is malformed whatever follows.
const BUFFER: usize = command::MOST_INPUT + 1;

// Reads until the input ends or the buffer is full. How many bytes a read gives is not known before it, so the loop is no `for`.
fn read_all<R: Read>(from: &mut R, buf: &mut [u8]) -> io::Result<usize>
    ensures counted { Counted buf.new result }
    ensures took { Took (R.remaining from.old) buf.new result }
{
    let mut done = 0;
    while done < buf.len() {
        let n = from.read(&mut buf[done..])?;
        if n == 0 {
            return Ok(done);
        }
        done += n;
    }
    Ok(done)
}

// Reads an input and writes its answer, and says how many bytes it took of the input. One that cannot be read to its end is malformed.
fn run<R: Read, W: Write>(from: &mut R, to: &mut W) -> io::Result<Option<usize>>
    ensures { IfOk result (λ input. Answers (R.remaining from.old) input (W.contents to.old) (W.contents to.new)) }
{
    // No memory is claimed.
    let mut buf = [0u8; BUFFER];
    let mut out = [0u8; command::MOST_OUTPUT];
    let Ok(n) = read_all(from, &mut buf) else {
        let k = command::refusal(Refusal::Malformed.number(), &mut out);
        to.write_all(&out[..k])?;
        return Ok(None);
    };
    let k = command::answer(&buf[..n], &mut out);
    to.write_all(&out[..k])?;
    Ok(Some(n))
}

// What cannot be written is lost without a word: the program's answer is its output.
fn main(rt: HostRuntime) {
    let _ = run(&mut rt.stdin(), &mut rt.stdout());
}
