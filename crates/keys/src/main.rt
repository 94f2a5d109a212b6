// Stores, fetches and erases the keys of a season's stays, prints the store, and prints what the calls answer on it damaged in one way at a time, and where a
// key, a number or the store is of another length.
// The file `stdout` has what it must write.
#![tactic(auto)]

mod calls;
mod copies;
mod damage;
mod lengths;
mod report;
mod season;
mod store;

use std::io;

fn main(rt: HostRuntime) -> io::Result<()> {
    let kept = store::season(&rt)?;
    store::print(&rt, kept)?;
    damage::lines(&rt, kept)?;
    lengths::lines(&rt, kept)
}
