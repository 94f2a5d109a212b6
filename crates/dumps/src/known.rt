// Dumps of states that the key leads to, at known counts.
use crate::{dump, ranges};
use start::Mode;
use std::io;

// A dump of count 100 in ranges that begin before it, at it and behind it, that end there or before it, and in a range of one.
fn hundred(rt: &impl Print, label: &str, d: [u8; 112]) -> io::Result<()> {
    ranges::line(rt, label, &d, 0, 200)?;
    ranges::line(rt, label, &d, 90, 110)?;
    ranges::line(rt, label, &d, 100, 110)?;
    ranges::line(rt, label, &d, 90, 100)?;
    ranges::line(rt, label, &d, 100, 100)?;
    ranges::line(rt, label, &d, 90, 99)?;
    ranges::line(rt, label, &d, 101, 110)
}

// At the start, and a block behind it.
fn first(rt: &impl Print) -> io::Result<()> {
    let d = dump::at(Mode::Plain, 0);
    ranges::line(rt, "plain mode at 0", &d, 0, 0)?;
    ranges::line(rt, "plain mode at 0", &d, 1, 3)?;
    let e = dump::at(Mode::Plain, 1);
    ranges::line(rt, "plain mode at 1", &e, 0, 1)?;
    ranges::line(rt, "plain mode at 1", &e, 0, 0)
}

// At the greatest count.
fn last(rt: &impl Print) -> io::Result<()> {
    let d = dump::at(Mode::Sealed, 65538);
    ranges::line(rt, "sealed mode at 65538", &d, 65538, 65538)?;
    ranges::line(rt, "sealed mode at 65538", &d, 65530, 65538)?;
    ranges::line(rt, "sealed mode at 65538", &d, 65530, 65537)
}

fn of_session(rt: &impl Print) -> io::Result<()> {
    let block = dump::suspended_block();
    ranges::line(rt, "suspended block at 4", &block[16..128], 0, 65538)?;
    ranges::line(rt, "suspended block at 4", &block[16..128], 5, 10)
}

pub fn lines(rt: &impl Print) -> io::Result<()> {
    hundred(rt, "plain mode at 100", dump::at(Mode::Plain, 100))?;
    hundred(rt, "sealed mode at 100", dump::at(Mode::Sealed, 100))?;
    first(rt)?;
    last(rt)?;
    of_session(rt)
}
