// A search of a dump in a range, with a line of what it answers.
use crate::dump;
use crate::report::Answer;
use std::convert::AsSlice;
use std::io;

pub fn under<T: AsSlice<u8> + Drop>(
    rt: &impl Print,
    label: T,
    bytes: &[u8],
    key: &[u8],
    lowest: u64,
    highest: u64,
) -> io::Result<()> {
    let answer = Answer(search::search(bytes, key, lowest, highest));
    rt.write_all(label.as_slice())?;
    println!(rt; ", {lowest} to {highest}: {answer}")
}

pub fn line<T: AsSlice<u8> + Drop>(
    rt: &impl Print,
    label: T,
    bytes: &[u8],
    lowest: u64,
    highest: u64,
) -> io::Result<()> {
    let key = dump::KEY;
    under(rt, label, bytes, &key, lowest, highest)
}
