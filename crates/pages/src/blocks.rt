// Blocks that resume refuses: with one layout rule broken and all others kept, and with a state that no stay of the key leads to.
ghost use Rattle.std.specs.Prelude.{◌≡◌, ◌+◌, ◌≤◌, length};

use crate::report;
use cipher::Registers;
use scope::Refusal;
use session::Session;
use start::Mode;
use std::io;

// A session with 20 bytes of data, and one with 5 bytes of text behind them.
fn with_data(key: &[u8], iv: &[u8]) -> Result<Session, Refusal> {
    let mut s = session::begin(key, iv)?;
    session::data(&mut s, b"arrival 2026-07-03, ")?;
    Ok(s)
}

fn with_text(key: &[u8], iv: &[u8]) -> Result<Session, Refusal> {
    let mut s = with_data(key, iv)?;
    let mut out = [0; 5];
    session::text(&mut s, b"adult", &mut out)?;
    Ok(s)
}

fn block_of(s: &Session) -> Result<[u8; 512], Refusal> {
    let mut block = [0; 512];
    suspend::suspend(s, &mut block)?;
    Ok(block)
}

// Resume's answer for bytes with this check.
fn checked(key: &[u8], block: &mut [u8]) -> Result<Session, Refusal>
    requires { length block.old ≡ 512 }
{
    fields::put_check(block);
    suspend::resume(key, block)
}

// Resume's answer for a session's block with the number n of k bytes at a place, and its check.
fn with_number(
    key: &[u8],
    s: Result<Session, Refusal>,
    at: usize,
    k: usize,
    n: u64,
) -> Result<Session, Refusal>
    requires { at + k ≤ 512 }
{
    let mut block = block_of(&s?)?;
    fields::put(&mut block, at, k, n);
    checked(key, &mut block)
}

fn line(rt: &impl Print, name: &str, answer: Result<Session, Refusal>) -> io::Result<()> {
    report::verdict(rt, name, answer)?;
    Ok(())
}

fn broken(
    rt: &impl Print,
    name: &str,
    key: &[u8],
    s: Result<Session, Refusal>,
    at: usize,
    k: usize,
    n: u64,
) -> io::Result<()>
    requires { at + k ≤ 512 }
{
    line(rt, name, with_number(key, s, at, k, n))
}

// Resume's answer for a session's block cut to n bytes, or with a zero behind it.
fn of_length(key: &[u8], s: Result<Session, Refusal>, n: usize) -> Result<Session, Refusal>
    requires { n ≤ 513 }
{
    let mut long = [0; 513];
    suspend::suspend(&s?, &mut long)?;
    suspend::resume(key, &long[..n])
}

fn check_changed(key: &[u8], s: Result<Session, Refusal>) -> Result<Session, Refusal> {
    let mut block = block_of(&s?)?;
    block[508] ^= 1;
    suspend::resume(key, &block)
}

pub fn rules(rt: &impl Print, key: &[u8], iv: &[u8]) -> io::Result<()> {
    let data = with_data(key, iv);
    let text = with_text(key, iv);
    broken(rt, "block of a session in its data", key, data, 0, 1, 0)?;
    broken(rt, "block of a session in its text", key, text, 0, 1, 1)?;
    line(rt, "block of 513 bytes", of_length(key, text, 513))?;
    line(rt, "block of 511 bytes", of_length(key, text, 511))?;
    broken(rt, "phase 2", key, text, 0, 1, 2)?;
    broken(rt, "data length 65536", key, text, 4, 4, 65536)?;
    broken(rt, "text length 1048581", key, text, 8, 4, 1048581)?;
    broken(rt, "text length 1 in phase 0", key, data, 8, 4, 1)?;
    broken(
        rt,
        "byte 148 not zero at 20 bytes of data",
        key,
        data,
        148,
        1,
        1,
    )?;
    broken(
        rt,
        "byte 149 not zero at 5 bytes of text",
        key,
        text,
        149,
        1,
        1,
    )?;
    broken(rt, "byte 1 not zero", key, text, 1, 1, 1)?;
    broken(rt, "byte 12 not zero", key, text, 12, 1, 1)?;
    broken(rt, "byte 160 not zero", key, text, 160, 1, 1)?;
    broken(rt, "byte 507 not zero", key, text, 507, 1, 1)?;
    line(rt, "check changed", check_changed(key, text))
}

// The registers in plain mode at the count of a session in its data, 2 blocks.
fn plain(key: &[u8], iv: &[u8]) -> Result<Registers, Refusal> {
    let s = start::start(key, iv, Mode::Plain)?;
    let mut out = [0; 32];
    let t = cipher::run_core(s, &mut out, 2, false)?;
    Ok(t.registers)
}

fn plain_state(key: &[u8], iv: &[u8]) -> Result<Session, Refusal> {
    let mut block = block_of(&with_data(key, iv)?)?;
    suspended::put_registers(&mut block, 16, plain(key, iv)?);
    checked(key, &mut block)
}

fn foreign_key(key: &[u8], iv: &[u8]) -> Result<Session, Refusal> {
    let block = block_of(&with_data(key, iv)?)?;
    let mut other = [0; 32];
    other[0] = 1;
    suspend::resume(&other, &block)
}

pub fn states(rt: &impl Print, key: &[u8], iv: &[u8]) -> io::Result<()> {
    line(rt, "state of plain mode", plain_state(key, iv))?;
    line(rt, "another key", foreign_key(key, iv))?;
    let text = with_text(key, iv);
    broken(
        rt,
        "state drawn at random",
        key,
        text,
        16,
        8,
        0x8f1bbcdc5a827999,
    )
}
