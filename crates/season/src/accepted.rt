// Seals that are accepted beside what an open refuses, and of pages that the season has not.
ghost use Rattle.std.specs.Prelude.{◌≤◌};

use crate::season::Page;
use crate::{damage, report, roll, season};
use std::io;

// The answer of a seal into a place, and a look at the page.
fn seal_and_look(
    rt: &impl Print,
    label: &str,
    p: Page,
    file: [u8; 3584],
    place: u64,
) -> io::Result<()>
    requires { p.length ≤ 475 }
{
    let mut f = file;
    print!(rt; "{label}: ")?;
    report::answer(
        rt,
        season::seal(p, season::departure(p.stay), &mut f, place),
    )?;
    print!(rt; " and ")?;
    roll::look(rt, p, &f)?;
    println!(rt)
}

// A page number whose highest byte is not zero.
fn far_page(rt: &impl Print, file: [u8; 3584]) -> io::Result<()> {
    let mut f = file;
    let p = season::page_of(2, 16909060, 16);
    print!(rt; "page 16909060 of stay 2: ")?;
    report::answer(rt, season::seal(p, season::departure(2), &mut f, 6))?;
    print!(rt; " and bytes 12 to 15 are ")?;
    report::hex(rt, &f[3084..3088])?;
    println!(rt)
}

pub fn seals(rt: &impl Print, file: [u8; 3584]) -> io::Result<()> {
    let long = damage::length_475(file);
    seal_and_look(rt, "sealed beside a length of 475", season::at(2), long, 2)?;
    far_page(rt, file)?;
    seal_and_look(rt, "a fourth page", season::page_of(1, 3, 16), file, 6)
}
