// A changeover Saturday: 33 stays come to a scheduler and are sealed in turns until all have left, with two more that come under numbers which have left, and calls that are
// refused. Prints what each call answers.
// The file `stdout` has what it must write.
#![tactic(auto)]

mod calls;
mod joins;
mod made_up;
mod refused;
mod report;
mod stays;
mod turns;

use report::Hex;
use std::io;

// What has left has left no byte behind the head.
fn left_behind(rt: &impl Print, s: [u8; 8208]) -> io::Result<()> {
    println!(rt; "head: {}", Hex(&s[0..16]))?;
    let rest = if fields::all_zero(&s, 16, 8192) {
        "0"
    } else {
        "some"
    };
    println!(rt; "not zero behind it: {rest}")
}

// At an empty scheduler again, and at a copy that has done all its turns.
fn afterwards(rt: &impl Print, s: [u8; 8208], rests: [u8; 256]) -> io::Result<()> {
    let mut copy = s;
    let mut texts = rests;
    calls::calls(rt, &mut copy, &mut texts, b"nt")?;
    let mut last = refused::at(copy, scope::MOST_TURNS);
    calls::calls(rt, &mut last, &mut texts, b"t")?;
    left_behind(rt, copy)
}

fn main(rt: HostRuntime) -> io::Result<()> {
    let mut s = [0xa5u8; 8208];
    let mut rests = [0u8; 256];
    // Not refused: the buffer has room.
    let _ = scheduler::empty(&mut s);
    calls::calls(&rt, &mut s, &mut rests, b"nt")?;
    joins::refused(&rt, &mut s)?;
    calls::calls(
        &rt,
        &mut s,
        &mut rests,
        b"\x00\x01\x02\x03\x04\x05\x06\x07\x08\x09\x0a\x0b\x0c\x0d\x0e\x0f\x10\x11\x12\x13\x14\x15\x16\x17\x18\x19\x1a\x1b\x1c\x1d\x1e\x1f\x20\x05",
    )?;
    joins::without_text(&rt, &mut s)?;
    calls::calls(&rt, &mut s, &mut rests, b"n")?;
    refused::turns(&rt, &mut s, 1)?;
    calls::calls(&rt, &mut s, &mut rests, b"t\x05\x20\x21n")?;
    refused::turns(&rt, &mut s, 4096)?;
    calls::calls(&rt, &mut s, &mut rests, b"t\x21")?;
    refused::last(&rt, s, rests)?;
    calls::calls(
        &rt,
        &mut s,
        &mut rests,
        b"tttttttttttttttttttttttttttttttttttttt\x23ttttttttttttttttttttttttttttttttttttttt",
    )?;
    afterwards(&rt, s, rests)?;
    made_up::lines(&rt)
}
