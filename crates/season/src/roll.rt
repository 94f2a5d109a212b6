// What an open gives and leaves. A look says it in a word, and a roll call is a line of looks at every page of the season.
ghost use Rattle.std.specs.Prelude.{◌≤◌};

use crate::season;
use crate::season::Page;
use scope::Refusal;
use std::convert::AsSlice;
use std::io;

// What stands at each place of an output before a call.
const BEFORE: u8 = 0xa5;

pub fn fresh() -> [u8; 480] {
    [BEFORE; 480]
}

fn expected(p: Page, n: usize, i: usize) -> u8 {
    if i < n { season::byte(p, i) } else { BEFORE }
}

// Whether an output has n bytes of a page's text at its front, and behind them what stood there before.
fn holds(out: [u8; 480], p: Page, n: usize) -> bool {
    out.iter().enumerate().all(|(i, b)| *b == expected(p, n, i))
}

fn accepted(rt: &impl Print, out: [u8; 480], p: Page, n: usize) -> io::Result<()> {
    if n == p.length && holds(out, p, n) {
        print!(rt; "ok")
    } else {
        print!(rt; "wrong")
    }
}

fn refused(rt: &impl Print, out: [u8; 480], p: Page, e: Refusal) -> io::Result<()> {
    if holds(out, p, 0) {
        print!(rt; "{}", e.number())
    } else {
        print!(rt; "wrong")
    }
}

// A look at a page, with a key, a stay and room for so many bytes: `ok` for its text, or the refusal's number.
pub fn look_with(
    rt: &impl Print,
    key: &[u8],
    stay: &[u8],
    p: Page,
    file: &[u8],
    room: usize,
) -> io::Result<()>
    requires { room ≤ 480 }
{
    let mut out = fresh();
    match page_file::open(key, stay, p.n, file, &mut out[0..room]) {
        Ok(n) => accepted(rt, out, p, n),
        Err(e) => refused(rt, out, p, e),
    }
}

pub fn look(rt: &impl Print, p: Page, file: &[u8]) -> io::Result<()> {
    let key = season::key();
    let stay = season::stay(p.stay);
    look_with(rt, &key, &stay, p, file, 480)
}

pub fn roll_call<T: AsSlice<u8> + Drop>(rt: &impl Print, label: T, file: &[u8]) -> io::Result<()> {
    rt.write_all(label.as_slice())?;
    print!(rt; ":")?;
    for place in 0..7 {
        print!(rt; " ")?;
        look(rt, season::at(place), file)?;
    }
    println!(rt)
}
