// What the calls answer, each on a copy of a store, of which it is given the first bytes: storing a number that the season's store has no block for, and
// fetching and erasing one that it holds.
ghost use Rattle.std.specs.Prelude.{◌≤◌};

use crate::{calls, report};
use std::convert::AsSlice;
use std::io;

pub fn store(
    rt: &impl Print,
    key: usize,
    iv: usize,
    stay_key: usize,
    kept: [u8; 2048],
    length: usize,
) -> io::Result<()>
    requires { (key ≤ 32) × (iv ≤ 16) × (stay_key ≤ 32) × (length ≤ 2048) }
{
    let mut copy = kept;
    let answer = calls::store(5, key, iv, stay_key, &mut copy[0..length]);
    print!(rt; "store {}", report::number(answer))
}

pub fn fetch(
    rt: &impl Print,
    key: usize,
    iv: usize,
    kept: [u8; 2048],
    length: usize,
) -> io::Result<()>
    requires { (key ≤ 32) × (iv ≤ 16) × (length ≤ 2048) }
{
    let answer = calls::fetch(1, key, iv, &kept[0..length]);
    print!(rt; " fetch {}", report::number(answer))
}

pub fn erase(rt: &impl Print, iv: usize, kept: [u8; 2048], length: usize) -> io::Result<()>
    requires { (iv ≤ 16) × (length ≤ 2048) }
{
    let mut copy = kept;
    let answer = calls::erase(1, iv, &mut copy[0..length]);
    print!(rt; " erase {}", report::number(answer))
}

pub fn line<T: AsSlice<u8> + Drop>(
    rt: &impl Print,
    label: T,
    kept: [u8; 2048],
    length: usize,
) -> io::Result<()>
    requires { length ≤ 2048 }
{
    rt.write_all(label.as_slice())?;
    print!(rt; ": ")?;
    store(rt, 32, 16, 32, kept, length)?;
    fetch(rt, 32, 16, kept, length)?;
    erase(rt, 16, kept, length)?;
    println!(rt)
}
