// Dumps that no IV and mode lead to at any count of the range: the steps are those of the whole range.
use crate::{dump, ranges};
use start::Mode;
use std::io;

fn changed(rt: &impl Print, d: [u8; 112]) -> io::Result<()> {
    let mut e = d;
    e[77] ^= 0x40;
    ranges::line(rt, "a bit changed", &e, 90, 110)
}

fn under_another_key(rt: &impl Print, d: [u8; 112]) -> io::Result<()> {
    let key = dump::OTHER_KEY;
    ranges::under(rt, "under another key", &d, &key, 90, 110)
}

pub fn lines(rt: &impl Print) -> io::Result<()> {
    let f = dump::FOREIGN;
    ranges::line(rt, "foreign", &f, 0, 65538)?;
    let d = dump::at(Mode::Plain, 100);
    changed(rt, d)?;
    under_another_key(rt, d)
}
