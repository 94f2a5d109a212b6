// Searches dumps of states at known counts in ranges that begin before, at and behind them, and a foreign dump over all counts; then prints what a search
// refuses, for one reason and for more. The file `stdout` has what it must write.
#![tactic(auto)]

mod dump;
mod known;
mod ranges;
mod refused;
mod report;
mod unknown;

use std::io;

fn main(rt: HostRuntime) -> io::Result<()> {
    known::lines(&rt)?;
    unknown::lines(&rt)?;
    refused::lines(&rt)
}
