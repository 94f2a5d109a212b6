// A vector of the paper: the blocks of the start and of the keystream, forward and back, held to those that it prints.
ghost use Rattle.std.specs.Prelude.{◌≡◌, ◌*◌, ◌≤◌, ◌<◌, length};

use crate::lent;
use crate::report::Hex;
use cipher::{Registers, State};
use scope::Refusal;
use start::Mode;
use std::io;
use words::Block;

#[derive(Clone, Copy)]
enum Part {
    Initialisation,
    Keystream,
    Back,
}

fn name(p: Part) -> &'static str {
    match p {
        Part::Initialisation => "initialisation",
        Part::Keystream => "keystream",
        Part::Back => "keystream back",
    }
}

fn difference(
    rt: &impl Print,
    v: u64,
    p: Part,
    i: usize,
    got: Block,
    expected: Block,
) -> io::Result<()> {
    let name = name(p);
    let got = Hex(got);
    let expected = Hex(expected);
    println!(rt; "SNOW-V {v} {name}, block {i}: got {got}, expected {expected}")
}

// Which block of n stands at place i: on the way back they come in the opposite order.
fn place(p: Part, i: usize, n: usize) -> usize
    requires { i < n }
    ensures { result < n }
{
    match p {
        Part::Back => n - 1 - i,
        Part::Initialisation | Part::Keystream => i,
    }
}

// How many of n blocks agree. A line is written for each that does not, with its number in the order made.
fn agreeing(
    rt: &impl Print,
    v: u64,
    p: Part,
    got: &[u8],
    expected: &[u8],
    n: usize,
) -> io::Result<u64>
    requires { (16 * n ≤ length got.now) × (16 * n ≤ length expected.now) }
{
    let mut agreed: u64 = 0;
    for i in 0..n {
        let x = words::load(got, 16 * i);
        let y = words::load(expected, 16 * place(p, i, n));
        if x == y {
            agreed += 1;
        } else {
            difference(rt, v, p, i + 1, x, y)?;
        }
    }
    Ok(agreed)
}

// The key's first half goes into R1 at the end of step 15 of a start.
fn after_step(s: Registers, low: Block, step: usize) -> Registers {
    if step == 15 {
        return start::into_r1(s, low);
    }
    s
}

// The z of a step forward from these registers, as at a start's count.
fn first_block(s: Registers) -> Block {
    let mut t = State {
        registers: s,
        count: 0,
    };
    block(step(&mut t, false))
}

// The z of each of the 16 steps of a start in plain mode, from the registers that the start's own loop leads to, one step at a time.
fn initialisation(key: [u8; 32], iv: [u8; 16]) -> [u8; 256] {
    let rounds = wide_round::table();
    let low = words::load(&key, 0);
    let high = words::load(&key, 16);
    let mut out = [0u8; 256];
    let mut s = start::load(low, high, words::load(&iv, 0), Mode::Plain);
    for i in 0..16 {
        words::store(&mut out, 16 * i, first_block(s));
        s = after_step(start::initials(s, 1, &rounds), low, i + 1);
    }
    out
}

pub fn started(key: &[u8; 32], iv: &[u8; 16], mode: Mode) -> State {
    start::start(key, iv, mode).unwrap()
}

// Eight blocks by a run that fills the output.
fn run(s: State, out: &mut [u8], back: bool) -> State
    requires { length out.old ≡ 128 }
    ensures { length out.new ≡ length out.old }
{
    let mut answer: u64 = 0;
    let mut t = s;
    lent::measured(&mut t, &mut answer, out, 8, back);
    t
}

// One step either way: forward the state is lent to the cipher, back it goes by value.
pub fn step(s: &mut State, back: bool) -> Result<Block, Refusal> {
    if back {
        let w = cipher::back_by_value(*s)?;
        *s = w.state;
        return Ok(w.z);
    }
    cipher::step(s)
}

// The block that a step answers with. For a refusal one that none of the blocks compared is.
pub fn block<E: Drop>(d: Result<Block, E>) -> Block {
    d.unwrap_or(Block {
        w0: 1,
        w1: 0,
        w2: 0,
        w3: 0,
    })
}

// Eight blocks by single steps.
fn steps(s: State, out: &mut [u8], back: bool) -> State
    requires { length out.old ≡ 128 }
    ensures { length out.new ≡ length out.old }
{
    let mut t = s;
    for i in 0..8 {
        words::store(out, 16 * i, block(step(&mut t, back)));
    }
    t
}

// Eight blocks either way, by a run or step by step.
fn eight(s: State, out: &mut [u8], back: bool, stepwise: bool) -> State
    requires { length out.old ≡ 128 }
    ensures { length out.new ≡ length out.old }
{
    if stepwise {
        return steps(s, out, back);
    }
    run(s, out, back)
}

// How many blocks agree, forward and back.
#[derive(Clone, Copy)]
struct Agreed {
    forward: u64,
    back: u64,
}

// Eight blocks forward, and from there back.
fn keystream(
    rt: &impl Print,
    v: u64,
    key: [u8; 32],
    iv: [u8; 16],
    expected: &[u8],
    stepwise: bool,
) -> io::Result<Agreed>
    requires { 128 ≤ length expected.now }
{
    let mut out = [0u8; 128];
    let e = eight(started(&key, &iv, Mode::Plain), &mut out, false, stepwise);
    let forward = agreeing(rt, v, Part::Keystream, &out, expected, 8)?;
    eight(e, &mut out, true, stepwise);
    let back = agreeing(rt, v, Part::Back, &out, expected, 8)?;
    Ok(Agreed { forward, back })
}

// Vector number v: three lines, below one for each block that differs.
pub fn vector(
    rt: &impl Print,
    v: u64,
    key: [u8; 32],
    iv: [u8; 16],
    initial: [u8; 256],
    blocks: [u8; 128],
) -> io::Result<()> {
    let got = initialisation(key, iv);
    let agreed = agreeing(rt, v, Part::Initialisation, &got, &initial, 16)?;
    let r = keystream(rt, v, key, iv, &blocks, false)?;
    let w = keystream(rt, v, key, iv, &blocks, true)?;
    println!(rt;
        "SNOW-V {v}: {agreed} of 16 initialisation blocks agree, {} of 8 keystream blocks agree",
        r.forward
    )?;
    println!(rt;
        "SNOW-V {v} back: {} of 8 keystream blocks agree, in the opposite order",
        r.back
    )?;
    println!(rt;
        "SNOW-V {v} step by step: {} of 8 keystream blocks agree, back {} of 8",
        w.forward, w.back
    )
}
