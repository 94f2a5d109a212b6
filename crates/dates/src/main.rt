// Prints the dates of days and the days of those dates, dates that are refused, and until when pages are kept whose departure is at either end of a month.
// The file `stdout` has what it must write.
#![tactic(auto)]

mod days;
mod keeping;

use std::io;

fn main(rt: HostRuntime) -> io::Result<()> {
    days::spread(&rt)?;
    days::edges(&rt)?;
    days::refusals(&rt)?;
    keeping::years(&rt)?;
    keeping::refusals(&rt)
}
