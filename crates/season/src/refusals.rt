// Opens and seals on the season's file that are refused, or all but refused, for what is asked of them.
ghost use Rattle.std.specs.Prelude.{◌≤◌, ◌≡◌};

use crate::season::Page;
use crate::{damage, report, roll, season};
use std::io;

// A look at a page of stay 1 with so many bytes of the key and of the stay, and room for so many.
fn open_line(
    rt: &impl Print,
    label: &str,
    key: usize,
    stay: usize,
    p: Page,
    file: &[u8],
    room: usize,
) -> io::Result<()>
    requires { (key ≤ 32) × (stay ≤ 12) × (room ≤ 480) }
{
    let k = season::key();
    let s = season::stay(1);
    print!(rt; "{label}: ")?;
    roll::look_with(rt, &k[0..key], &s[0..stay], p, file, room)?;
    println!(rt)
}

// A look at a page of stay 1 that the season has not.
fn lacking_line(rt: &impl Print, label: &str, n: u32, file: &[u8], room: usize) -> io::Result<()>
    requires { room ≤ 480 }
{
    open_line(
        rt,
        label,
        32,
        12,
        season::page_of(1, n, season::NO_TEXT),
        file,
        room,
    )
}

fn bad_names(rt: &impl Print, file: &[u8]) -> io::Result<()> {
    let p = season::at(2);
    open_line(rt, "key of 31 bytes", 31, 12, p, file, 480)?;
    open_line(rt, "stay of 11 bytes", 32, 11, p, file, 480)?;
    lacking_line(rt, "page 3", 3, file, 480)?;
    lacking_line(rt, "page 4294967295", 4294967295, file, 480)
}

fn small_outputs(rt: &impl Print, file: [u8; 3584]) -> io::Result<()> {
    let p = season::at(2);
    open_line(rt, "output of 15 bytes", 32, 12, p, &file, 15)?;
    open_line(rt, "output of 16 bytes", 32, 12, p, &file, 16)?;
    let broken = damage::flipped(file, 511);
    open_line(rt, "output of 15 bytes, tag broken", 32, 12, p, &broken, 15)?;
    let padded = damage::padded(file);
    open_line(rt, "padding, output of 15 bytes", 32, 12, p, &padded, 15)
}

// Several refusals at once, of which the first in the order is the answer: for what is asked, then for the file.
fn open_orders(rt: &impl Print, file: [u8; 3584]) -> io::Result<()> {
    let p = season::at(2);
    open_line(
        rt,
        "key of 31 bytes, stay of 11 bytes",
        31,
        11,
        p,
        &file,
        480,
    )?;
    open_line(
        rt,
        "stay of 11 bytes, 511 bytes",
        32,
        11,
        p,
        &file[0..511],
        480,
    )?;
    lacking_line(rt, "page 3, output of 0 bytes", 3, &file, 0)
}

fn damage_orders(rt: &impl Print, file: [u8; 3584]) -> io::Result<()> {
    let p = season::at(2);
    let long = damage::length_475(damage::days_differ(file));
    open_line(rt, "days differ, length 475", 32, 12, p, &long, 480)?;
    let broken = damage::flipped(damage::padded(file), 511);
    open_line(
        rt,
        "padding, tag broken, output of 15 bytes",
        32,
        12,
        p,
        &broken,
        15,
    )
}

pub fn opens(rt: &impl Print, file: [u8; 3584]) -> io::Result<()> {
    bad_names(rt, &file)?;
    small_outputs(rt, file)?;
    // A number taken modulo 65,536 would find page 1.
    lacking_line(rt, "page 65537", 65537, &file, 480)?;
    open_orders(rt, file)?;
    damage_orders(rt, file)
}

// What a seal of page 1 of stay 1 is given: how many bytes of the key, of the stay, of text and of the file, the day and the place.
#[derive(Clone, Copy)]
struct Call {
    key: usize,
    stay: usize,
    text: usize,
    day: u64,
    file: usize,
    place: u64,
}

const SEASON_CALL: Call = Call {
    key: 32,
    stay: 12,
    text: 16,
    day: 9000,
    file: 3584,
    place: 2,
};

fn seal_line(rt: &impl Print, label: &str, c: Call, file: [u8; 3584]) -> io::Result<()>
    requires { (c.key ≤ 32) × (c.stay ≤ 12) × (c.text ≤ 475) × (c.file ≤ 3584) }
{
    let key = season::key();
    let stay = season::stay(1);
    let text = season::text(season::page_of(1, 1, 475));
    let mut f = file;
    let answer = page_file::seal(
        &key[0..c.key],
        &stay[0..c.stay],
        1,
        c.day,
        &text[0..c.text],
        &mut f[0..c.file],
        c.place,
    );
    print!(rt; "{label}: ")?;
    report::answer(rt, answer)?;
    if f == file {
        println!(rt; " and the file stays")
    } else {
        println!(rt; " and the file changed")
    }
}

fn bad_arguments(rt: &impl Print, file: [u8; 3584]) -> io::Result<()> {
    let key = Call {
        key: 31,
        ..SEASON_CALL
    };
    seal_line(rt, "seal with a key of 31 bytes", key, file)?;
    let stay = Call {
        stay: 11,
        ..SEASON_CALL
    };
    seal_line(rt, "seal with a stay of 11 bytes", stay, file)?;
    let text = Call {
        text: 475,
        ..SEASON_CALL
    };
    seal_line(rt, "seal 475 bytes", text, file)?;
    let day = Call {
        day: 73049,
        ..SEASON_CALL
    };
    seal_line(rt, "seal on day 73049", day, file)
}

fn bad_places(rt: &impl Print, file: [u8; 3584]) -> io::Result<()> {
    let behind = Call {
        place: 7,
        ..SEASON_CALL
    };
    seal_line(rt, "seal at place 7", behind, file)?;
    let wrapping = Call {
        place: 36028797018963968,
        ..SEASON_CALL
    };
    seal_line(rt, "seal at place 36028797018963968", wrapping, file)?;
    let last = Call {
        place: 18446744073709551615,
        ..SEASON_CALL
    };
    seal_line(rt, "seal at place 18446744073709551615", last, file)?;
    let short = Call {
        file: 511,
        place: 0,
        ..SEASON_CALL
    };
    seal_line(rt, "seal into 511 bytes", short, file)?;
    let none = Call {
        file: 0,
        place: 0,
        ..SEASON_CALL
    };
    seal_line(rt, "seal into 0 bytes", none, file)
}

// Several refusals of sealing at once.
fn orders(rt: &impl Print, file: [u8; 3584]) -> io::Result<()> {
    let late = Call {
        day: 73049,
        place: 7,
        ..SEASON_CALL
    };
    let long = Call { text: 475, ..late };
    seal_line(
        rt,
        "seal 475 bytes with a stay of 11 bytes on day 73049 at place 7",
        Call { stay: 11, ..long },
        file,
    )?;
    seal_line(rt, "seal 475 bytes on day 73049 at place 7", long, file)?;
    seal_line(rt, "seal on day 73049 at place 7", late, file)
}

fn cut_and_short(rt: &impl Print, file: [u8; 3584]) -> io::Result<()> {
    let cut = Call {
        file: 3583,
        ..SEASON_CALL
    };
    seal_line(rt, "seal into 3583 bytes", cut, file)?;
    let short = Call {
        key: 31,
        stay: 11,
        ..SEASON_CALL
    };
    seal_line(
        rt,
        "seal with a key of 31 bytes and a stay of 11 bytes",
        short,
        file,
    )
}

pub fn seals(rt: &impl Print, file: [u8; 3584]) -> io::Result<()> {
    bad_arguments(rt, file)?;
    bad_places(rt, file)?;
    orders(rt, file)?;
    cut_and_short(rt, file)
}
