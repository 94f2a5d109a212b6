// The greatest count of blocks, 65,538: by one run, by two and by single steps, forward from the start and from there back; and what is refused at that
// count, at 0 and past the greatest.
ghost use Rattle.std.specs.Prelude.{◌≡◌, ◌+◌, ◌*◌, ◌≤◌, length};

use crate::keystream::{FIRST_SEALED, IV_3, KEY_3, KEYSTREAM_3, LAST_PLAIN, LAST_SEALED};
use crate::report::{self, Hex};
use crate::{call, vector};
use cipher::State;
use start::Mode;
use std::io;
use words::Block;

// Room for a block more than a run ever draws.
fn room() -> [u8; 16 * 65539]
    ensures { 16 * 65539 ≡ length result }
{
    [call::MARK; 16 * 65539]
}

// The last of 65,538 blocks in an output.
fn last(rt: &impl Print, out: &[u8], expected: Block) -> io::Result<()>
    requires { 16 * 65538 ≤ length out.now }
{
    let z = words::load(out, 16 * 65537);
    print!(rt; "last block made: {}, ", Hex(z))?;
    if z == expected {
        println!(rt; "agrees")
    } else {
        println!(rt; "expected {}", Hex(expected))
    }
}

// The registers of a state, with another count beside them.
fn at_count(s: State, count: u64) -> State {
    let mut t = s;
    t.count = count;
    t
}

// The state after 65,538 blocks, traced: at its own count, past the greatest, a block too low, and under 31 bytes of the key.
fn traces(rt: &impl Print, s: State) -> io::Result<()> {
    let key = KEY_3;
    call::trace(rt, s, &key)?;
    call::trace(rt, at_count(s, 65539), &key)?;
    call::trace(rt, at_count(s, 65537), &key)?;
    call::trace(rt, s, &key[..31])
}

// 65,538 steps one by one, each block held to the one that stands in an output.
fn single_steps(rt: &impl Print, s: State, out: &[u8], back: bool) -> io::Result<State>
    requires { 16 * 65538 ≤ length out.now }
{
    let mut t = s;
    let mut agreed: u64 = 0;
    for i in 0..65538 {
        let z = vector::block(vector::step(&mut t, back));
        if z == words::load(out, 16 * i) {
            agreed += 1;
        }
    }
    let way = call::way(back);
    println!(rt;
        "single steps {way} at count {}: {agreed} of 65538 blocks as in the output, count {}",
        s.count, t.count
    )?;
    Ok(t)
}

// A run that is lent the places of n blocks of the output.
fn run(
    rt: &impl Print,
    s: State,
    out: &mut [u8],
    first: usize,
    n: usize,
    back: bool,
) -> io::Result<State>
    requires { 16 * (first + n) ≤ length out.old }
    ensures { length out.new ≡ length out.old }
{
    call::run(rt, s, &mut out[16 * first..16 * (first + n)], n, back)
}

fn two_runs(rt: &impl Print, s: State, out: &mut [u8]) -> io::Result<State>
    requires { 16 * 65538 ≤ length out.old }
    ensures { length out.new ≡ length out.old }
{
    let t = run(rt, s, out, 0, 40000, false)?;
    run(rt, t, out, 40000, 25538, false)
}

// As far as a run goes, and a block more, which leaves the state as it is.
fn farthest(
    rt: &impl Print,
    s: State,
    out: &mut [u8],
    back: bool,
    expected: Block,
) -> io::Result<State>
    requires { 16 * 65538 ≤ length out.old }
    ensures { length out.new ≡ length out.old }
{
    let t = run(rt, s, out, 0, 65538, back)?;
    last(rt, out, expected)?;
    call::short_run(rt, t, 1, back)?;
    Ok(t)
}

fn compared(rt: &impl Print, names: &str, s: State, t: State, u: State) -> io::Result<()> {
    if s == t && s == u {
        println!(rt; "{names}: the same registers and count")
    } else {
        println!(rt; "{names}: different")
    }
}

fn forward(rt: &impl Print, s: State, out: &mut [u8], expected: Block) -> io::Result<State>
    requires { 16 * 65538 ≤ length out.old }
    ensures { length out.new ≡ length out.old }
{
    let t = two_runs(rt, s, out)?;
    let u = single_steps(rt, s, out, false)?;
    let e = farthest(rt, s, out, false, expected)?;
    compared(rt, "one run, two runs and single steps", e, t, u)?;
    Ok(e)
}

// From the end e back to the start s.
fn back(rt: &impl Print, s: State, e: State, out: &mut [u8], expected: Block) -> io::Result<()>
    requires { 16 * 65538 ≤ length out.old }
{
    let t = farthest(rt, e, out, true, expected)?;
    let u = single_steps(rt, e, out, true)?;
    compared(rt, "start, one run back and single steps back", s, t, u)
}

// Under key and IV 3: a run back that is too long and goes past the start, though it has room; then forward to the last block, and from there back to
// the first. The state after the last block comes back.
fn both_ways(
    rt: &impl Print,
    mode: Mode,
    first_block: Block,
    last_block: Block,
) -> io::Result<State> {
    println!(rt; "SNOW-V 3 in {}", report::mode(mode))?;
    let s = started(mode);
    let mut out = room();
    call::run(rt, s, &mut out, 65539, true)?;
    let e = forward(rt, s, &mut out, last_block)?;
    traces(rt, e)?;
    back(rt, s, e, &mut out, first_block)?;
    Ok(e)
}

fn started(mode: Mode) -> State {
    let key = KEY_3;
    let iv = IV_3;
    vector::started(&key, &iv, mode)
}

// A run of n with room for one block, both ways.
fn short_runs(rt: &impl Print, s: State, n: usize) -> io::Result<()> {
    call::short_run(rt, s, n, false)?;
    call::short_run(rt, s, n, true)
}

// Every call on a state. Of two blocks and more the output is too short, so that a run that is refused for its count breaks a later rule too.
fn calls(rt: &impl Print, s: State) -> io::Result<()> {
    let key = KEY_3;
    call::step(rt, s, false)?;
    call::step(rt, s, true)?;
    short_runs(rt, s, 0)?;
    short_runs(rt, s, 1)?;
    short_runs(rt, s, 2)?;
    short_runs(rt, s, 65539)?;
    call::trace(rt, s, &key)
}

pub fn plain(rt: &impl Print) -> io::Result<()> {
    let first_blocks = KEYSTREAM_3;
    let last_block = LAST_PLAIN;
    let e = both_ways(
        rt,
        Mode::Plain,
        words::load(&first_blocks, 0),
        words::load(&last_block, 0),
    )?;
    calls(rt, started(Mode::Plain))?;
    calls(rt, e)?;
    calls(rt, at_count(e, 65539))?;
    calls(rt, at_count(e, 0xffffffffffffffff))
}

pub fn sealed(rt: &impl Print) -> io::Result<()> {
    let first_block = FIRST_SEALED;
    let last_block = LAST_SEALED;
    both_ways(
        rt,
        Mode::Sealed,
        words::load(&first_block, 0),
        words::load(&last_block, 0),
    )?;
    Ok(())
}
