// What a search refuses before it walks, of a dump that it would find.
use crate::{dump, ranges};
use start::Mode;
use std::io;

fn short_key(
    rt: &impl Print,
    label: &str,
    bytes: &[u8],
    lowest: u64,
    highest: u64,
) -> io::Result<()> {
    let key = dump::KEY;
    ranges::under(rt, label, bytes, &key[0..31], lowest, highest)
}

fn by_lengths(rt: &impl Print, d: [u8; 113]) -> io::Result<()> {
    short_key(rt, "key of 31 bytes", &d[0..112], 90, 110)?;
    ranges::line(rt, "dump of 0 bytes", &d[0..0], 90, 110)?;
    ranges::line(rt, "dump of 111 bytes", &d[0..111], 90, 110)?;
    ranges::line(rt, "dump of 113 bytes", &d, 90, 110)
}

fn by_range(rt: &impl Print, d: [u8; 113]) -> io::Result<()> {
    ranges::line(rt, "past the limit", &d[0..112], 90, 65539)?;
    ranges::line(rt, "past the limit", &d[0..112], 90, 0xffffffffffffffff)?;
    ranges::line(rt, "out of order", &d[0..112], 101, 100)?;
    ranges::line(rt, "out of order", &d[0..112], 0xffffffffffffffff, 65538)
}

// The first in the order 1, 8, 9, 18, 6 is what is answered.
fn key_first(rt: &impl Print, d: [u8; 113]) -> io::Result<()> {
    short_key(rt, "key of 31 bytes, dump of 111", &d[0..111], 90, 110)?;
    short_key(rt, "key of 31 bytes, past the limit", &d[0..112], 90, 65539)?;
    short_key(rt, "key of 31 bytes, out of order", &d[0..112], 101, 100)
}

fn others_first(rt: &impl Print, d: [u8; 113]) -> io::Result<()> {
    ranges::line(
        rt,
        "dump of 111 bytes, past the limit",
        &d[0..111],
        90,
        65539,
    )?;
    ranges::line(rt, "dump of 111 bytes, out of order", &d[0..111], 101, 100)?;
    ranges::line(rt, "past the limit, out of order", &d[0..112], 65540, 65539)?;
    let f = dump::FOREIGN;
    ranges::line(rt, "foreign, out of order", &f, 101, 100)
}

pub fn lines(rt: &impl Print) -> io::Result<()> {
    let d = dump::longer(Mode::Plain, 100);
    by_lengths(rt, d)?;
    by_range(rt, d)?;
    key_first(rt, d)?;
    others_first(rt, d)?;
    short_key(rt, "all four", &d[0..111], 65540, 65539)
}
