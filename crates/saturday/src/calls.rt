// Calls in a row.
use crate::{joins, turns};
use std::io;

// A letter is who comes next or a turn, and any other byte is a stay that joins.
fn call(rt: &impl Print, s: &mut [u8; 8208], rests: &mut [u8; 256], c: u8) -> io::Result<()> {
    match c {
        b'n' => turns::next(rt, s),
        b't' => turns::turn(rt, s, rests),
        i => joins::join(rt, s, rests, i),
    }
}

pub fn calls(
    rt: &impl Print,
    s: &mut [u8; 8208],
    rests: &mut [u8; 256],
    row: &[u8],
) -> io::Result<()> {
    for c in row {
        call(rt, s, rests, *c)?;
    }
    Ok(())
}
