// A call on a state, with a line of what it answers and what it leaves.
ghost use Rattle.std.specs.Prelude.{◌≡◌, length};

use crate::report::{Answer, Hex, Traced};
use crate::{lent, vector};
use cipher::State;
use std::io;

// What an output is filled with before it is lent, so that a byte written to it shows.
pub const MARK: u8 = 0x5a;

// Whether no byte of a marked output was changed.
fn unwritten(out: &[u8]) -> bool {
    out.iter().all(|b| *b == MARK)
}

// Which way a call goes.
pub fn way(back: bool) -> &'static str {
    if back { "back" } else { "forward" }
}

// A run, with the length of the part that it hands back. The answer lent is none that a run gives.
pub fn run(rt: &impl Print, s: State, out: &mut [u8], n: usize, back: bool) -> io::Result<State>
    ensures { length out.new ≡ length out.old }
{
    let way = way(back);
    let len = out.len();
    print!(rt;
        "run of {n} {way} at count {}, output of {len} bytes: ",
        s.count
    )?;
    let mut answer: u64 = 255;
    let mut t = s;
    let wrote = lent::measured(&mut t, &mut answer, out, n, back);
    print!(rt; "{}, part of {wrote} bytes, ", Answer(answer))?;
    if s == t && unwritten(out) {
        println!(rt; "state and output as they were")?;
    } else {
        println!(rt; "count {}", t.count)?;
    }
    Ok(t)
}

// A run with room for one block, or for none if it draws none.
pub fn short_run(rt: &impl Print, s: State, n: usize, back: bool) -> io::Result<()> {
    let mut out = [MARK; 16];
    if n == 0 {
        run(rt, s, &mut out[..0], n, back)?;
    } else {
        run(rt, s, &mut out, n, back)?;
    }
    Ok(())
}

pub fn step(rt: &impl Print, s: State, back: bool) -> io::Result<()> {
    print!(rt; "step {} at count {}: ", way(back), s.count)?;
    let mut t = s;
    match vector::step(&mut t, back) {
        Ok(z) => print!(rt; "block {}, ", Hex(z))?,
        Err(e) => print!(rt; "{e}, ")?,
    }
    if s == t {
        println!(rt; "state as it was")
    } else {
        println!(rt; "count {}", t.count)
    }
}

pub fn trace(rt: &impl Print, s: State, key: &[u8]) -> io::Result<()> {
    let len = key.len();
    let traced = Traced(start::trace(s, key));
    println!(rt; "trace, key of {len} bytes, count {}: {traced}", s.count)
}
