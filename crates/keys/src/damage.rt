// Copies of the season's store, each damaged in one way. Its number 2, in block 1, is erased.
ghost use Rattle.std.specs.Prelude.{◌<◌};

use crate::{copies, season};
use std::io;

// A store with another byte, and every check as it was.
fn changed(kept: [u8; 2048], at: usize, byte: u8) -> [u8; 2048]
    requires { at < 2048 }
{
    let mut k = kept;
    k[at] = byte;
    k
}

// A store with number 1 in another block, and every check as it was.
fn numbered(kept: [u8; 2048], block: usize) -> [u8; 2048]
    requires { block < 4 }
{
    let mut k = kept;
    let iv = season::iv(1);
    words::store(&mut k, 512 * block + 16, words::load(&iv, 0));
    k
}

// A line about a store with the check of a block made anew, so that no other rule is broken than the one that is meant.
fn checked(rt: &impl Print, label: &str, kept: [u8; 2048], block: usize) -> io::Result<()>
    requires { block < 4 }
{
    let mut k = kept;
    let at = 512 * block;
    fields::put_check(&mut k[at..at + 512]);
    copies::line(rt, label, k, 2048)
}

// Of block 0, which holds number 1.
fn held(rt: &impl Print, kept: [u8; 2048]) -> io::Result<()> {
    checked(rt, "mark 3", changed(kept, 0, 3), 0)?;
    checked(rt, "mark 0", changed(kept, 0, 0), 0)?;
    checked(rt, "byte 1", changed(kept, 1, 1), 0)?;
    checked(rt, "byte 15", changed(kept, 15, 1), 0)?;
    checked(rt, "byte 80", changed(kept, 80, 1), 0)?;
    checked(rt, "byte 507", changed(kept, 507, 1), 0)
}

// What no layout rule shuts out, and only the tag shows.
fn sealed(rt: &impl Print, kept: [u8; 2048]) -> io::Result<()> {
    let b = kept[32];
    checked(rt, "sealed key", changed(kept, 32, b ^ 1), 0)?;
    let c = kept[79];
    checked(rt, "tag", changed(kept, 79, c ^ 1), 0)
}

pub fn lines(rt: &impl Print, kept: [u8; 2048]) -> io::Result<()> {
    copies::line(rt, "length 2047", kept, 2047)?;
    held(rt, kept)?;
    let b = kept[508];
    copies::line(rt, "check", changed(kept, 508, b.wrapping_add(1)), 2048)?;
    checked(rt, "erased with a key", changed(kept, 512 + 32, 1), 1)?;
    checked(rt, "erased with a tag", changed(kept, 512 + 79, 1), 1)?;
    checked(rt, "number twice", numbered(kept, 2), 2)?;
    checked(rt, "number twice, once erased", numbered(kept, 1), 1)?;
    copies::line(rt, "last block", changed(kept, 3 * 512 + 100, 1), 2048)?;
    sealed(rt, kept)
}
