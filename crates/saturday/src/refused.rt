// Turns that are refused, and the last number of a turn.
ghost use Rattle.std.specs.Prelude.{◌<◌, ◌≤◌, length};

use crate::{calls, stays};
use std::convert::AsSlice;
use std::io;

// A copy of a scheduler that has done so many turns.
pub fn at(s: [u8; 8208], turns: u64) -> [u8; 8208] {
    let mut copy = s;
    fields::put(&mut copy, 0, 8, turns);
    copy
}

// What a turn is answered with so many bytes of a scheduler, and a piece and an output of these lengths.
pub fn with<T: AsSlice<u8> + Drop>(
    rt: &impl Print,
    label: T,
    s: &mut [u8],
    n: usize,
    piece: usize,
    out: usize,
) -> io::Result<()>
    requires { (n ≤ length s.old) × (piece ≤ 4097) × (out ≤ 4097) }
{
    let text = stays::text(0);
    let mut room = [0u8; 4097];
    let answer = scheduler::turn(&mut s[0..n], &text[0..piece], &mut room[0..out]).map(|_| ());
    print!(rt; "turn with ")?;
    rt.write_all(label.as_slice())?;
    println!(rt; ": {}", scope::number(answer))
}

// A turn past 2^62.
fn late(rt: &impl Print, label: &str, s: [u8; 8208], piece: usize) -> io::Result<()>
    requires { piece ≤ 4097 }
{
    let mut copy = at(s, scope::MOST_TURNS);
    with(rt, label, &mut copy, 8208, piece, piece)
}

// Where a piece of so many bytes is due. Each for one reason, and then for two: the first in the order 8, 9, 3, 4 is what is answered.
pub fn turns(rt: &impl Print, s: &mut [u8; 8208], due: usize) -> io::Result<()>
    requires { (0 < due) × (due ≤ 4096) }
{
    with(rt, "8207 bytes of a scheduler", s, 8207, due, due)?;
    late(rt, "2^62 turns done", *s, due)?;
    with(rt, "a byte more", s, 8208, due + 1, due + 1)?;
    with(rt, "a byte less", s, 8208, due - 1, due)?;
    with(rt, "a short output", s, 8208, due, due - 1)?;
    late(rt, "2^62 turns done and a byte more", *s, due + 1)?;
    with(
        rt,
        "a byte more and a short output",
        s,
        8208,
        due + 1,
        due - 1,
    )
}

// The turn 2^62, and one behind it.
pub fn last(rt: &impl Print, s: [u8; 8208], rests: [u8; 256]) -> io::Result<()> {
    let mut copy = at(s, scope::MOST_TURNS - 1);
    let mut texts = rests;
    calls::calls(rt, &mut copy, &mut texts, b"tt")
}
