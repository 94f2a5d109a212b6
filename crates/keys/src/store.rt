// The season's calls on a store of four blocks, and the store that they leave.
ghost use Rattle.std.specs.Prelude.{◌<◌};

use crate::{calls, report, season};
use std::io;

fn store(rt: &impl Print, n: u8, kept: &mut [u8]) -> io::Result<()> {
    let answer = calls::store(n, 32, 16, 32, kept);
    println!(rt; "store {n}: {}", report::number(answer))
}

fn fetch(rt: &impl Print, n: u8, kept: &[u8]) -> io::Result<()> {
    let answer = calls::fetch(n, 32, 16, kept);
    print!(rt; "fetch {n}: {}", report::number(answer))?;
    if let Ok(key) = answer {
        print!(rt; " ")?;
        report::hex(rt, &key)?;
    }
    println!(rt)
}

fn fetch_under_another_key(rt: &impl Print, kept: &[u8]) -> io::Result<()> {
    let key = season::OTHER_KEY;
    let iv = season::iv(2);
    let answer = key_store::fetch(&key, &iv, kept);
    println!(rt; "fetch 2 under another key: {}", report::number(answer))
}

fn erase(rt: &impl Print, n: u8, kept: &mut [u8]) -> io::Result<()> {
    let answer = calls::erase(n, 16, kept);
    println!(rt; "erase {n}: {}", report::number(answer))
}

// Three keys, and one that is there already.
fn stores(rt: &impl Print, kept: &mut [u8]) -> io::Result<()> {
    store(rt, 1, kept)?;
    store(rt, 2, kept)?;
    store(rt, 3, kept)?;
    store(rt, 1, kept)
}

fn fetches(rt: &impl Print, kept: &[u8]) -> io::Result<()> {
    fetch(rt, 1, kept)?;
    fetch_under_another_key(rt, kept)?;
    fetch(rt, 4, kept)
}

// An erased key is gone, and its number stays taken.
fn erases(rt: &impl Print, kept: &mut [u8]) -> io::Result<()> {
    erase(rt, 2, kept)?;
    erase(rt, 2, kept)?;
    fetch(rt, 2, kept)?;
    store(rt, 2, kept)?;
    fetch(rt, 3, kept)
}

// The season's store, from zeros, full at the end.
pub fn season(rt: &impl Print) -> io::Result<[u8; 2048]> {
    let mut kept = [0u8; 2048];
    stores(rt, &mut kept)?;
    fetches(rt, &kept)?;
    erases(rt, &mut kept)?;
    store(rt, 4, &mut kept)?;
    store(rt, 5, &mut kept)?;
    Ok(kept)
}

// A block's bytes, without the zeros between the tag and the check.
fn block(rt: &impl Print, kept: [u8; 2048], j: usize) -> io::Result<()>
    requires { j < 4 }
{
    let at = 512 * j;
    print!(rt; "block {j}: ")?;
    report::hex(rt, &kept[at..at + 80])?;
    print!(rt; " ")?;
    report::hex(rt, &kept[at + 508..at + 512])?;
    println!(rt)
}

pub fn print(rt: &impl Print, kept: [u8; 2048]) -> io::Result<()> {
    for j in 0..4 {
        block(rt, kept, j)?;
    }
    Ok(())
}
