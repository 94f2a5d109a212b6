// Who comes next, and turns with a piece of the due length. Beside the scheduler stands how far the texts are sealed: for each IV, by its first byte, the byte with which the
// rest of the text begins.
ghost use Rattle.std.specs.Prelude.{◌≤◌};

use crate::report::Hex;
use crate::stays;
use scheduler::Turned;
use std::io;

pub fn next(rt: &impl Print, s: &[u8; 8208]) -> io::Result<()> {
    match scheduler::next(s) {
        Ok(Some(stay)) => {
            let iv = stay.iv;
            let first = iv[0];
            let due = stay.due;
            println!(rt; "next: IV {first} due {due}")
        }
        _ => println!(rt; "next: nobody"),
    }
}

fn at_most(most: usize, n: u64) -> usize
    ensures { result ≤ most }
{
    n.min(most as u64) as usize
}

// A numbered turn: whom it served, whether that stay has left, the front of what was written, and the tag of one that has left.
fn numbered(rt: &impl Print, t: Turned, out: &[u8; 4096], length: u64) -> io::Result<()> {
    let turn = t.turn;
    let iv = t.iv;
    let first = iv[0];
    let done = u8::from(t.tag.is_some());
    let n = at_most(8, length);
    print!(rt; "turn {turn}: IV {first} done {done} {}", Hex(&out[0..n]))?;
    if let Some(tag) = t.tag {
        print!(rt; " tag {}", Hex(&tag))?;
    }
    println!(rt)
}

pub fn turn(rt: &impl Print, s: &mut [u8; 8208], rests: &mut [u8; 256]) -> io::Result<()> {
    let (first, due) = match scheduler::next(s) {
        Ok(Some(stay)) => (stay.iv[0], stay.due),
        _ => (0, 0),
    };
    let i = first as usize;
    let text = stays::text(rests[i]);
    let n = at_most(4096, due);
    let mut out = [0u8; 4096];
    match scheduler::turn(s, &text[0..n], &mut out) {
        Ok(Some(t)) => {
            rests[i] = text[n];
            numbered(rt, t, &out, due)
        }
        Ok(None) => println!(rt; "turn: nobody"),
        Err(e) => println!(rt; "turn: {}", e.number()),
    }
}
