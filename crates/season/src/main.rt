// Seals a season's pages into a file, prints the file, opens its pages, and prints what opening says of it whole and damaged, what is refused, and
// what is sealed all the same.
// The file `stdout` has what it must write.
#![tactic(auto)]

mod accepted;
mod damage;
mod pages;
mod refusals;
mod report;
mod roll;
mod season;

use std::io;

fn main(rt: HostRuntime) -> io::Result<()> {
    let file = pages::sealed(&rt)?;
    pages::print(&rt, file)?;
    pages::opens(&rt, file)?;
    roll::roll_call(&rt, "season", &file)?;
    damage::every_byte(&rt, file)?;
    damage::roll_calls(&rt, file)?;
    refusals::opens(&rt, file)?;
    refusals::seals(&rt, file)?;
    accepted::seals(&rt, file)
}
