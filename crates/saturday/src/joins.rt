// Joins, and those that are refused for a length.
ghost use Rattle.std.specs.Prelude.{◌≤◌, length};

use crate::stays;
use scope::Refusal;
use std::convert::AsSlice;
use std::io;

// Stay i joins, with so many bytes of a scheduler, of its key and of its IV.
fn call(s: &mut [u8], n: usize, i: u8, key: usize, iv: usize, text: u64) -> Result<(), Refusal>
    requires { (n ≤ length s.old) × (key ≤ 33) × (iv ≤ 17) }
{
    let k = stays::key(i);
    let v = stays::iv(i);
    scheduler::join(&mut s[0..n], &k[0..key], &v[0..iv], text)
}

// A text begins with the first byte of the IV.
pub fn join(rt: &impl Print, s: &mut [u8; 8208], rests: &mut [u8; 256], i: u8) -> io::Result<()> {
    let text = stays::length(i);
    let answer = call(s, 8208, i, 32, 16, text);
    if answer.is_ok() {
        let first = i % 33;
        rests[first as usize] = first;
    }
    println!(rt; "join {i} of {text}: {}", scope::number(answer))
}

// What stay 32 is answered.
pub fn with<T: AsSlice<u8> + Drop>(
    rt: &impl Print,
    label: T,
    s: &mut [u8],
    n: usize,
    key: usize,
    iv: usize,
    text: u64,
) -> io::Result<()>
    requires { (n ≤ length s.old) × (key ≤ 33) × (iv ≤ 17) }
{
    let answer = call(s, n, 32, key, iv, text);
    print!(rt; "join with ")?;
    rt.write_all(label.as_slice())?;
    println!(rt; ": {}", scope::number(answer))
}

pub fn without_text(rt: &impl Print, s: &mut [u8; 8208]) -> io::Result<()> {
    with(rt, "no text", s, 8208, 32, 16, 0)
}

// Each for one length, and then for more: the first in the order 8, 1, 2, 3 is what is answered.
pub fn refused(rt: &impl Print, s: &mut [u8; 8208]) -> io::Result<()> {
    with(rt, "8207 bytes of a scheduler", s, 8207, 32, 16, 1)?;
    with(rt, "a key of 31 bytes", s, 8208, 31, 16, 1)?;
    with(rt, "a key of 33 bytes", s, 8208, 33, 16, 1)?;
    with(rt, "an IV of 15 bytes", s, 8208, 32, 15, 1)?;
    with(rt, "an IV of 17 bytes", s, 8208, 32, 17, 1)?;
    without_text(rt, s)?;
    with(rt, "a text of 1048577 bytes", s, 8208, 32, 16, 1048577)?;
    with(rt, "all four", s, 8207, 31, 15, 0)?;
    with(rt, "the last three", s, 8208, 31, 15, 0)?;
    with(rt, "the last two", s, 8208, 32, 15, 0)
}
