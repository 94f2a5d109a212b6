// What made-up bytes are answered: 32 stays, and more turns done than there are.
use crate::{joins, refused, turns};
use std::io;

pub fn lines(rt: &impl Print) -> io::Result<()> {
    let mut s = [0xffu8; 8208];
    turns::next(rt, &s)?;
    joins::with(rt, "made-up bytes", &mut s, 8208, 32, 16, 1)?;
    refused::with(rt, "made-up bytes", &mut s, 8208, 4096, 4096)?;
    let mut copy = refused::at(s, 0);
    refused::with(rt, "a made-up session", &mut copy, 8208, 4096, 4096)
}
