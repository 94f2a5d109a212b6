// Many steps, in batches of at most 16, each in two sweeps. In the first A and B are clocked and leave T1 and T2 of every step in lanes, arrays of cells; alone
// in its loop, the clock goes by vectors of cells. In the second R1 and R2 of every step stand in lanes of bytes, from which the rounds read byte by byte:
// as words they would not all stay in the processor. The loops of `start` and `session` are over the same small functions.
ghost use Rattle.std.specs.Prelude.{◌≡◌, ◌+◌, ◌*◌, ◌<◌, ◌≤◌, length, ltb};
ghost use Rattle.std.proofs.lemmas.List.Edits.{sets};
ghost use Rattle.std.proofs.Math.Seq.{slice};
ghost use Rattle.scope.specs.Refusals.{pick};
ghost use Rattle.words.specs.Xor.{xors};
ghost use Rattle.words.specs.Bytes.{littles, part};
ghost use Rattle.words.specs.Sums.{◌⊞◌};
ghost use Rattle.words.specs.Machine.{bytes_of};
ghost use Rattle.lfsr.specs.Machine.{lfsr_of};
ghost use Rattle.aes.specs.Tables.{Holds};
ghost use Rattle.wide_round.specs.Wide.{wide};
ghost use Rattle.cipher.specs.Step;
ghost use Rattle.cipher.specs.Run.{forward, moves, blocks};
ghost use Rattle.cipher.specs.Machine.{registers_of, Moves};
ghost use Rattle.cipher.specs.Inner.{clocked, Tapped, in_lanes};

use crate::{Moved, Registers};
use lfsr::Lfsr;
use words::Block;

// How many of the steps that are left the next batch takes.
pub fn at_most(left: usize) -> usize
    ensures { (result ≤ 16) × (result ≤ left) × (0 < left → 0 < result) × (result ≡ pick (ltb left 16) left 16) }
{
    left.min(16)
}

// Eight cells of a register at a place of a lane.
fn leave(t: &mut [u16; 128], at: usize, c: [u16; 16], from: usize)
    requires { (length t.old ≡ 128) × (at + 8 ≤ 128) × (from + 8 ≤ 16) }
    ensures { t.new ≡ sets t.old at (slice from (from + 8) c) }
{
    for j in 0..8 {
        t[at + j] = c[from + j];
    }
}

// The first sweep: n steps of A and B. What the lanes have behind those steps is left open.
pub fn taps(l: Lfsr, t1: &mut [u16; 128], t2: &mut [u16; 128], n: usize) -> Lfsr
    requires { (n ≤ 16) × (length t1.old ≡ 128) × (length t2.old ≡ 128) }
    ensures lfsr { lfsr_of result ≡ clocked n (lfsr_of l) }
    ensures taps { Tapped (lfsr_of l) n t1.new t2.new }
{
    let mut m = l;
    for i in 0..n {
        let k = lfsr::clock8(m);
        let a = m.a;
        let b = m.b;
        leave(t1, 8 * i, b, 8);
        leave(t2, 8 * i, a, 0);
        m = k;
    }
    m
}

// What a lane has of step i, as a block.
pub fn tap(t: &[u16; 128], i: usize) -> Block
    requires { (length t.now ≡ 128) × (i < 16) }
    ensures { bytes_of result ≡ littles 2 (part (8 * i) 8 t.now) }
{
    let k = 8 * i;
    crate::eight(
        t[k],
        t[k + 1],
        t[k + 2],
        t[k + 3],
        t[k + 4],
        t[k + 5],
        t[k + 6],
        t[k + 7],
    )
}

// R1 of the next step, of R2 at a place of its lane, R3 and T2.
pub fn next_r1(l2: &[u8], at: usize, r3: Block, t2: Block) -> Block
    requires { at + 16 ≤ length l2.now }
    ensures { bytes_of result ≡ Step.sigma (part at 16 l2.now ⊞ xors (bytes_of r3) (bytes_of t2)) }
{
    crate::sigma(words::plus(words::load(l2, at), words::xor(r3, t2)))
}

// z, of R1 and R2 at a place of their lanes and T1.
pub fn output(l1: &[u8], l2: &[u8], at: usize, t1: Block) -> Block
    requires { (at + 16 ≤ length l1.now) × (at + 16 ≤ length l2.now) }
    ensures { bytes_of result ≡ xors (part at 16 l1.now ⊞ bytes_of t1) (part at 16 l2.now) }
{
    words::xor(words::plus(words::load(l1, at), t1), words::load(l2, at))
}

// Registers moved on to those of which R1 and R2 stand at a place of their lanes. All of `s` is written over: it is where the loop began, by which
// the loop says how far it has come.
pub fn moved_to(s: Registers, l: Lfsr, l1: &[u8], l2: &[u8], at: usize, r3: Block) -> Registers
    requires { (at + 16 ≤ length l1.now) × (at + 16 ≤ length l2.now) }
    ensures { registers_of result ≡ in_lanes (lfsr_of l) l1.now l2.now at (bytes_of r3) }
{
    let r1 = words::load(l1, at);
    let r2 = words::load(l2, at);
    let mut r = s;
    r.lfsr = l;
    r.r1 = r1;
    r.r2 = r2;
    r.r3 = r3;
    r
}

// At most 16 steps, their blocks written from a place on. z is made last in a step: its reads of what the step before wrote as words would wait for
// them if they came first.
pub fn batch(s: Registers, rounds: &[u32; 256], out: &mut [u8], from: usize, n: usize) -> Registers
    requires { (n ≤ 16) × (from + 16 * n ≤ length out.old) × Holds wide rounds.now }
    ensures registers { registers_of result ≡ moves forward n (registers_of s) }
    ensures out { out.new ≡ sets out.old from (blocks forward n (registers_of s)) }
{
    let old = s.lfsr;
    let r1 = s.r1;
    let r2 = s.r2;
    let mut r3 = s.r3;
    let mut t1 = [0u16; 128];
    let mut t2 = [0u16; 128];
    let mut l1 = [0u8; 272];
    let mut l2 = [0u8; 272];
    let l = taps(old, &mut t1, &mut t2, n);
    words::store(&mut l1, 0, r1);
    words::store(&mut l2, 0, r2);
    for i in 0..n {
        let at = 16 * i;
        let next = at + 16;
        let n1 = next_r1(&l2, at, r3, tap(&t2, i));
        words::store(&mut l1, next, n1);
        let n2 = wide_round::round_at(&l1, at, rounds);
        let n3 = wide_round::round_at(&l2, at, rounds);
        words::store(&mut l2, next, n2);
        r3 = n3;
        words::store(out, from + at, output(&l1, &l2, at, tap(&t1, i)));
    }
    moved_to(s, l, &l1, &l2, 16 * n, r3)
}

// One step, with its z.
pub fn forward(s: Registers, rounds: &[u32; 256]) -> Moved
    requires { Holds wide rounds.now }
    ensures { Moves forward s result }
{
    let mut b = [0u8; 16];
    let n = batch(s, rounds, &mut b, 0, 1);
    Moved {
        registers: n,
        z: words::load(&b, 0),
    }
}

// n steps, from the front of the output on.
pub fn run_forward(s: Registers, rounds: &[u32; 256], out: &mut [u8], n: usize) -> Registers
    requires { (16 * n ≤ length out.old) × Holds wide rounds.now }
    ensures registers { registers_of result ≡ moves forward n (registers_of s) }
    ensures out { out.new ≡ sets out.old 0 (blocks forward n (registers_of s)) }
{
    let mut t = s;
    for i in (0..n).step_by(16) {
        let k = at_most(n - i);
        let u = batch(t, rounds, out, 16 * i, k);
        t = u;
    }
    t
}
