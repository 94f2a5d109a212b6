// Copies of the season's file, each damaged in one way, and a roll call of each.
ghost use Rattle.std.specs.Prelude.{◌<◌};

use crate::{roll, season};
use std::io;

// A file with the page at a place that another file has at one.
fn with_page(file: [u8; 3584], place: usize, other: [u8; 3584], from: usize) -> [u8; 3584]
    requires { (place < 7) × (from < 7) }
{
    let mut f = file;
    f[512 * place..512 * place + 512].copy_from_slice(&other[512 * from..512 * from + 512]);
    f
}

fn swapped(file: [u8; 3584], a: usize, b: usize) -> [u8; 3584]
    requires { (a < 7) × (b < 7) }
{
    with_page(with_page(file, a, file, b), b, file, a)
}

fn dropped(rt: &impl Print, file: [u8; 3584]) -> io::Result<()> {
    let mut f = file;
    for place in 2..6 {
        f = with_page(f, place, file, place + 1);
    }
    roll::roll_call(rt, "dropped", &f[0..3072])
}

fn moved(rt: &impl Print, file: [u8; 3584]) -> io::Result<()> {
    let own = swapped(file, 0, 2);
    roll::roll_call(rt, "swapped", &own)?;
    let foreign = swapped(file, 0, 1);
    roll::roll_call(rt, "swapped with another stay's", &foreign)?;
    let doubled = with_page(file, 6, file, 0);
    roll::roll_call(rt, "doubled", &doubled)
}

// Page 1 of stay 1 on another day than the stay's other pages.
pub fn days_differ(file: [u8; 3584]) -> [u8; 3584] {
    let mut f = file;
    let _sealed = season::seal(season::at(2), 9001, &mut f, 2);
    f
}

// A stored length that no page may have, in the page of stay 3.
pub fn length_475(file: [u8; 3584]) -> [u8; 3584] {
    let mut f = file;
    fields::put(&mut f, 1556, 2, 475);
    f
}

fn headers(rt: &impl Print, file: [u8; 3584]) -> io::Result<()> {
    let days = days_differ(file);
    roll::roll_call(rt, "days differ", &days)?;
    let long = length_475(file);
    roll::roll_call(rt, "length 475", &long)?;
    let mut late = file;
    fields::put(&mut late, 3088, 4, 73049);
    roll::roll_call(rt, "day 73049", &late)
}

// A file with this tag in page 1 of stay 1.
fn with_tag(file: [u8; 3584], tag: [u8; 16]) -> [u8; 3584] {
    let mut f = file;
    words::store(&mut f, 1520, words::load(&tag, 0));
    f
}

// A file with 474 bytes sealed into page 1 of stay 1, under the header that stands there.
fn resealed(file: [u8; 3584], text: [u8; 475]) -> [u8; 3584] {
    let key = season::key();
    let mut f = file;
    let header = &file[1024..1046];
    let tag = page::seal(
        &key,
        &header[0..16],
        header,
        &text[0..474],
        &mut f[1046..1520],
    )
    .unwrap_or([0; 16]);
    with_tag(f, tag)
}

// Page 1 of stay 1 with padding that is not zero, under the tag of that padding.
pub fn padded(file: [u8; 3584]) -> [u8; 3584] {
    let mut text = season::text(season::at(2));
    text[473] = 1;
    resealed(file, text)
}

// A file with a bit of a byte of page 1 of stay 1 flipped.
pub fn flipped(file: [u8; 3584], b: usize) -> [u8; 3584]
    requires { b < 512 }
{
    let mut f = file;
    f[1024 + b] = f[1024 + b] ^ 1;
    f
}

fn padding(rt: &impl Print, file: [u8; 3584]) -> io::Result<()> {
    let p = padded(file);
    roll::roll_call(rt, "padding", &p)?;
    let q = flipped(p, 511);
    roll::roll_call(rt, "padding, tag broken", &q)
}

fn shortened(rt: &impl Print, file: [u8; 3584]) -> io::Result<()> {
    roll::roll_call(rt, "511 bytes", &file[0..511])?;
    roll::roll_call(rt, "0 bytes", &[])
}

pub fn roll_calls(rt: &impl Print, file: [u8; 3584]) -> io::Result<()> {
    dropped(rt, file)?;
    moved(rt, file)?;
    headers(rt, file)?;
    padding(rt, file)?;
    shortened(rt, file)
}

fn look_flipped(rt: &impl Print, file: [u8; 3584], b: usize) -> io::Result<()>
    requires { b < 512 }
{
    let f = flipped(file, b);
    roll::look(rt, season::at(2), &f)?;
    if b % 32 == 31 {
        println!(rt)
    } else {
        print!(rt; " ")
    }
}

// Each byte of page 1 of stay 1 in turn, 32 to a line.
pub fn every_byte(rt: &impl Print, file: [u8; 3584]) -> io::Result<()> {
    println!(rt; "each byte of page 1.1 flipped:")?;
    for b in 0..512 {
        look_flipped(rt, file, b)?;
    }
    Ok(())
}
