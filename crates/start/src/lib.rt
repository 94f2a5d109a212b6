// Start in plain and in sealed mode, and trace: from a state back to the IV and mode that lead to it.
#![tactic(auto)]

ghost use Rattle.std.specs.Prelude.{◌≡◌, ◌++◌, ◌+◌, ◌^◌, ◌≤◌, ◌<◌, Ok};
ghost use Rattle.words.specs.Bytes.{littles, numbers};
ghost use Rattle.words.specs.Machine.{bytes_of};
ghost use Rattle.aes.specs.Unround.{unsub};
ghost use Rattle.aes.specs.Tables.{Holds};
ghost use Rattle.wide_round.specs.Wide.{wide};
ghost use Rattle.lfsr.specs.Machine.{lfsr_of};
ghost use Rattle.cipher.specs.Run.{backward, moves};
ghost use Rattle.cipher.specs.Machine.{registers_of, state_of};
ghost use Rattle.start.specs.Start;
ghost use Rattle.scope.specs.Machine.{answer_number};
ghost use Rattle.start.specs.Start.{mode_cells, start_number};
ghost use Rattle.start.specs.Leads;
ghost use Rattle.start.specs.Leads.{Traces};
ghost use Rattle.start.specs.Trace;
ghost use Rattle.start.specs.Machine.{mode_of, Starts, traced_of};
ghost use Rattle.start.specs.Inner;
ghost use Rattle.start.specs.Inner.{walk_number, Walks};

use cipher::{Registers, State, lanes};
use lfsr::Lfsr;
use scope::Refusal;
use words::Block;

#[derive(Clone, Copy)]
pub enum Mode {
    Plain,
    Sealed,
}

// Eight words of each block, low byte first: the lower half of a register and the upper.
fn cells(lo: Block, hi: Block) -> [u16; 16]
    ensures { result ≡ numbers 2 8 (bytes_of lo) ++ numbers 2 8 (bytes_of hi) }
{
    [
        (lo.w0 % 0x10000) as u16,
        (lo.w0 / 0x10000) as u16,
        (lo.w1 % 0x10000) as u16,
        (lo.w1 / 0x10000) as u16,
        (lo.w2 % 0x10000) as u16,
        (lo.w2 / 0x10000) as u16,
        (lo.w3 % 0x10000) as u16,
        (lo.w3 / 0x10000) as u16,
        (hi.w0 % 0x10000) as u16,
        (hi.w0 / 0x10000) as u16,
        (hi.w1 % 0x10000) as u16,
        (hi.w1 / 0x10000) as u16,
        (hi.w2 % 0x10000) as u16,
        (hi.w2 / 0x10000) as u16,
        (hi.w3 % 0x10000) as u16,
        (hi.w3 / 0x10000) as u16,
    ]
}

// What b0 to b7 are loaded with.
fn mode_block(mode: Mode) -> Block
    ensures { bytes_of result ≡ littles 2 (mode_cells (mode_of mode)) }
{
    match mode {
        Mode::Plain => words::zero(),
        Mode::Sealed => Block {
            w0: 0x78656c41,
            w1: 0x20646b45,
            w2: 0x676e694a,
            w3: 0x6d6f6854,
        },
    }
}

// The registers loaded with the two halves of the key and the IV.
pub fn load(low: Block, high: Block, iv: Block, mode: Mode) -> Registers
    ensures { registers_of result ≡ Start.load (bytes_of low ++ bytes_of high) (bytes_of iv) (mode_of mode) }
{
    let a = cells(iv, low);
    let b = cells(mode_block(mode), high);
    let l = Lfsr { a: a, b: b };
    let zero = words::zero();
    Registers {
        lfsr: l,
        r1: zero,
        r2: zero,
        r3: zero,
    }
}

// A block xored into a8 to a15.
fn fed(l: Lfsr, x: Block) -> Lfsr
    ensures { lfsr_of result ≡ Inner.fed (bytes_of x) (lfsr_of l) }
{
    let a = l.a;
    let b = l.b;
    let n = cells(cipher::low_half(a), words::xor(cipher::high_half(a), x));
    Lfsr { a: n, b: b }
}

// The same of registers.
fn into_a(s: Registers, x: Block) -> Registers
    ensures { registers_of result ≡ Start.into_a (bytes_of x) (registers_of s) }
{
    let l = s.lfsr;
    let m = fed(l, x);
    let mut r = s;
    r.lfsr = m;
    r
}

// A block xored into R1.
pub fn into_r1(s: Registers, x: Block) -> Registers
    ensures { registers_of result ≡ Start.into_r1 (bytes_of x) (registers_of s) }
{
    let r1 = s.r1;
    let n = words::xor(r1, x);
    let mut r = s;
    r.r1 = n;
    r
}

// At most 16 steps of a start, R1 and R2 in lanes as in `lanes::batch`. Register A takes every z in, so that A and B go step by step too.
pub fn initials(s: Registers, n: usize, rounds: &[u32; 256]) -> Registers
    requires { (n ≤ 16) × Holds wide rounds.now }
    ensures { registers_of result ≡ Start.initials n (registers_of s) }
{
    let r1 = s.r1;
    let r2 = s.r2;
    let mut r3 = s.r3;
    let mut l = s.lfsr;
    let mut t1 = [0u16; 128];
    let mut t2 = [0u16; 128];
    let mut l1 = [0u8; 272];
    let mut l2 = [0u8; 272];
    words::store(&mut l1, 0, r1);
    words::store(&mut l2, 0, r2);
    for i in 0..n {
        let at = 16 * i;
        let next = at + 16;
        let m = lanes::taps(l, &mut t1, &mut t2, 1);
        let n1 = lanes::next_r1(&l2, at, r3, lanes::tap(&t2, 0));
        words::store(&mut l1, next, n1);
        let n2 = wide_round::round_at(&l1, at, rounds);
        let n3 = wide_round::round_at(&l2, at, rounds);
        words::store(&mut l2, next, n2);
        r3 = n3;
        let k = fed(m, lanes::output(&l1, &l2, at, lanes::tap(&t1, 0)));
        l = k;
    }
    lanes::moved_to(s, l, &l1, &l2, 16 * n, r3)
}

fn sixteen_steps(low: Block, high: Block, iv: Block, mode: Mode, rounds: &[u32; 256]) -> Registers
    requires { Holds wide rounds.now }
    ensures { registers_of result ≡ Start.start (bytes_of low ++ bytes_of high) (bytes_of iv) (mode_of mode) }
{
    let s = initials(load(low, high, iv, mode), 15, rounds);
    let t = initials(into_r1(s, low), 1, rounds);
    into_r1(t, high)
}

// Whether a start is accepted. Refused: 1 for the key's length, 2 for the IV's.
pub fn lengths(key: &[u8], iv: &[u8]) -> Result<(), Refusal>
    ensures { answer_number result ≡ start_number key.now iv.now }
{
    if key.len() != 32 {
        return Err(Refusal::KeyLength);
    }
    if iv.len() != 16 {
        return Err(Refusal::IvLength);
    }
    Ok(())
}

// As `start`, with the table of the rounds lent.
pub fn start_with(key: &[u8], iv: &[u8], mode: Mode, rounds: &[u32; 256]) -> Result<State, Refusal>
    requires { Holds wide rounds.now }
    ensures { Starts key.now iv.now (mode_of mode) result }
{
    lengths(key, iv)?;
    let registers = sixteen_steps(
        words::load(key, 0),
        words::load(key, 16),
        words::load(iv, 0),
        mode,
        rounds,
    );
    Ok(State {
        registers,
        count: 0,
    })
}

// Start under a key of 32 bytes with an IV of 16, in either mode. Refused: 1 for the key's length, 2 for the IV's.
pub fn start(key: &[u8], iv: &[u8], mode: Mode) -> Result<State, Refusal>
    ensures { Starts key.now iv.now (mode_of mode) result }
{
    let rounds = wide_round::table();
    start_with(key, iv, mode, &rounds)
}

// One of the 16 steps of a start, undone.
fn uninitial(s: Registers, inverse: &[u8; 256]) -> Registers
    requires { Holds unsub inverse.now }
    ensures { registers_of result ≡ Trace.uninitial (registers_of s) }
{
    let p = cipher::z_before(s, inverse);
    let z = p.z;
    cipher::registers_before(into_a(s, z), p)
}

// Registers that a walk back has come to, and how many steps have been taken in all, a start's undone steps among them: counted where they are taken.
#[derive(Clone, Copy)]
pub struct Walked {
    pub registers: Registers,
    pub steps: u64,
}

// n of a start's steps undone, counted on likewise.
fn uninitials(s: Registers, n: u64, walked: u64, inverse: &[u8; 256]) -> Walked
    requires { (walked + n < 2 ^ 64) × Holds unsub inverse.now }
    ensures { Walks (Trace.uninitials n (registers_of s)) (walked + n) result }
{
    let mut t = s;
    let mut undone = walked;
    for i in 0..n {
        t = uninitial(t, inverse);
        undone += 1;
    }
    Walked {
        registers: t,
        steps: undone,
    }
}

// n steps back, counted on from those walked before.
pub fn walked_back(s: Registers, n: u64, walked: u64, inverse: &[u8; 256]) -> Walked
    requires { (walked + n < 2 ^ 64) × Holds unsub inverse.now }
    ensures { Walks (moves backward n (registers_of s)) (walked + n) result }
{
    let mut t = s;
    let mut steps = walked;
    for i in 0..n {
        let w = cipher::backward(t, inverse);
        t = w.registers;
        steps += 1;
    }
    Walked {
        registers: t,
        steps,
    }
}

// What a start under this key would have loaded: its 16 steps undone.
pub fn loaded(s: Registers, walked: u64, low: Block, high: Block, inverse: &[u8; 256]) -> Walked
    requires { (walked + 16 < 2 ^ 64) × Holds unsub inverse.now }
    ensures { Walks (Trace.loaded (bytes_of low ++ bytes_of high) (registers_of s)) (walked + 16) result }
{
    let w = uninitials(into_r1(s, high), 1, walked, inverse);
    let t = w.registers;
    uninitials(into_r1(t, low), 15, w.steps, inverse)
}

// Whether a start in this mode under this key loads the state, with some IV.
fn loads(s: Registers, low: Block, high: Block, mode: Mode) -> bool
    ensures { result ≡ Trace.loads (bytes_of low ++ bytes_of high) (mode_of mode) (registers_of s) }
{
    let l = s.lfsr;
    let a = l.a;
    let b = l.b;
    let r1 = s.r1;
    let r2 = s.r2;
    let r3 = s.r3;
    let zero = words::zero();
    words::same(cipher::high_half(a), low)
        & words::same(cipher::low_half(b), mode_block(mode))
        & words::same(cipher::high_half(b), high)
        & words::same(r1, zero)
        & words::same(r2, zero)
        & words::same(r3, zero)
}

// Where a state comes from: the IV's bytes 0 to 7 and 8 to 15, low byte first, and the mode.
#[derive(Clone, Copy)]
pub struct Origin {
    pub lo: u64,
    pub hi: u64,
    pub mode: Mode,
}

fn found(iv: Block, mode: Mode) -> Origin
    ensures { traced_of (Ok result) ≡ Leads.Traced.origin (bytes_of iv) (mode_of mode) }
{
    Origin {
        lo: words::join(iv.w0, iv.w1),
        hi: words::join(iv.w2, iv.w3),
        mode,
    }
}

// The IV and mode that load the registers, both modes tried, or 6.
pub fn unload(s: Registers, low: Block, high: Block) -> Result<Origin, Refusal>
    ensures { traced_of result ≡ Trace.unload (bytes_of low ++ bytes_of high) (registers_of s) }
{
    let l = s.lfsr;
    let a = l.a;
    let iv = cipher::low_half(a);
    if loads(s, low, high, Mode::Plain) {
        return Ok(found(iv, Mode::Plain));
    }
    if loads(s, low, high, Mode::Sealed) {
        return Ok(found(iv, Mode::Sealed));
    }
    Err(Refusal::NoOrigin)
}

// Whether a trace goes on its walk. Refused: 1 for the key's length, 9 for the count.
fn walk_allowed(key: &[u8], count: u64) -> Result<(), Refusal>
    ensures { answer_number result ≡ walk_number key.now count }
{
    if key.len() != 32 {
        return Err(Refusal::KeyLength);
    }
    if count <= scope::MOST_BLOCKS {
        return Ok(());
    }
    Err(Refusal::CountTooHigh)
}

// As `trace`, with the inverse S-box lent.
pub fn trace_with(s: State, key: &[u8], inverse: &[u8; 256]) -> Result<Origin, Refusal>
    requires { Holds unsub inverse.now }
    ensures leads { Traces (state_of s) key.now (traced_of result) }
    ensures walk { traced_of result ≡ Trace.trace (state_of s) key.now }
{
    walk_allowed(key, s.count)?;
    let low = words::load(key, 0);
    let high = words::load(key, 16);
    let w = walked_back(s.registers, s.count, 0, inverse);
    let l = loaded(w.registers, w.steps, low, high, inverse);
    unload(l.registers, low, high)
}

// Document 01's trace: the IV and mode that lead to a state under a key, at the count that it carries. Refused: 1 for the key's length, 9 for a count
// over 65,538, 6 where no IV and mode lead there.
pub fn trace(s: State, key: &[u8]) -> Result<Origin, Refusal>
    ensures leads { Traces (state_of s) key.now (traced_of result) }
    ensures walk { traced_of result ≡ Trace.trace (state_of s) key.now }
{
    let inverse = aes::inverse_sbox();
    trace_with(s, key, &inverse)
}
