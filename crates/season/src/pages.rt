// The season's pages: each sealed into its place, printed, and opened.
ghost use Rattle.std.specs.Prelude.{◌<◌};

use crate::{report, roll, season};
use std::io;

fn seal(rt: &impl Print, file: &mut [u8], place: u64) -> io::Result<()> {
    let p = season::at(place);
    print!(rt; "seal {place}: ")?;
    report::answer(rt, season::seal(p, season::departure(p.stay), file, place))?;
    println!(rt)
}

// The season's file, from zeros.
pub fn sealed(rt: &impl Print) -> io::Result<[u8; 3584]> {
    let mut file = [0u8; 3584];
    for place in 0..6 {
        seal(rt, &mut file, place)?;
    }
    Ok(file)
}

fn page(rt: &impl Print, file: [u8; 3584], place: usize) -> io::Result<()>
    requires { place < 7 }
{
    let start = 512 * place;
    print!(rt; "page {place}: ")?;
    report::hex(rt, &file[start..start + 512])?;
    println!(rt)
}

pub fn print(rt: &impl Print, file: [u8; 3584]) -> io::Result<()> {
    for place in 0..7 {
        page(rt, file, place)?;
    }
    Ok(())
}

// What an open of n bytes wrote.
fn written(rt: &impl Print, out: [u8; 480], n: usize) -> io::Result<()> {
    print!(rt; "written {n} ")?;
    if n <= 480 {
        report::hex(rt, &out[0..n])?;
    }
    Ok(())
}

fn open(rt: &impl Print, file: [u8; 3584], place: u64) -> io::Result<()> {
    let p = season::at(place);
    let key = season::key();
    let stay = season::stay(p.stay);
    let mut out = roll::fresh();
    print!(rt; "open {}.{}: ", p.stay, p.n)?;
    match page_file::open(&key, &stay, p.n, &file, &mut out) {
        Ok(n) => written(rt, out, n),
        Err(e) => print!(rt; "{e}"),
    }?;
    println!(rt)
}

pub fn opens(rt: &impl Print, file: [u8; 3584]) -> io::Result<()> {
    for place in 0..6 {
        open(rt, file, place)?;
    }
    Ok(())
}
