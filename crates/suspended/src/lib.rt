// The block of 512 bytes that a suspended session is kept in: written, and read.
#![tactic(auto)]

ghost use Rattle.std.specs.Prelude.{◌≡◌, ◌++◌, ◌+◌, ◌≤◌, length};
ghost use Rattle.std.proofs.lemmas.List.Edits.{sets};
ghost use Rattle.words.specs.Bytes.{littles, part};
ghost use Rattle.cipher.specs.Machine.{registers_of};
ghost use Rattle.digest.specs.Machine.{sum_of};
ghost use Rattle.layout.specs.Block;
ghost use Rattle.layout.specs.Block.{registers_bytes, registers_at, block_of};
ghost use Rattle.suspended.specs.Machine.{suspended_of};

use cipher::Registers;
use digest::Held;
use lfsr::Lfsr;

// What a block keeps of a session.
#[derive(Clone, Copy)]
pub struct Suspended {
    pub phase: u8,
    pub ad: u64,
    pub text: u64,
    pub registers: Registers,
    pub held: Held,
}

// The sixteen cells of a register, at a place.
fn put_cells(out: &mut [u8], at: usize, l: [u16; 16])
    requires { at + 32 ≤ length out.old }
    ensures { out.new ≡ sets out.old at (littles 2 l) }
{
    words::store(out, at, cipher::low_half(l));
    words::store(out, at + 16, cipher::high_half(l));
}

// The 112 bytes of the registers, at a place.
pub fn put_registers(out: &mut [u8], at: usize, s: Registers)
    requires { at + 112 ≤ length out.old }
    ensures { out.new ≡ sets out.old at (registers_bytes (registers_of s)) }
{
    let l = s.lfsr;
    let r1 = s.r1;
    let r2 = s.r2;
    let r3 = s.r3;
    let a = l.a;
    let b = l.b;
    put_cells(out, at, a);
    put_cells(out, at + 32, b);
    words::store(out, at + 64, r1);
    words::store(out, at + 80, r2);
    words::store(out, at + 96, r3);
}

// And the registers that 112 bytes at a place list.
pub fn get_registers(s: &[u8], at: usize) -> Registers
    requires { at + 112 ≤ length s.now }
    ensures { registers_of result ≡ registers_at (part at 112 s.now) }
{
    let a = fields::cells(s, at);
    let b = fields::cells(s, at + 32);
    let r1 = words::load(s, at + 64);
    let r2 = words::load(s, at + 80);
    let r3 = words::load(s, at + 96);
    let l = Lfsr { a: a, b: b };
    Registers {
        lfsr: l,
        r1: r1,
        r2: r2,
        r3: r3,
    }
}

// The hash so far and the bytes not yet hashed, 32 bytes, at a place.
pub fn put_held(out: &mut [u8], at: usize, d: Held)
    requires { at + 32 ≤ length out.old }
    ensures { out.new ≡ sets out.old at ((sum_of d).hash ++ (sum_of d).pending) }
{
    let acc = d.acc;
    let pending = d.pending;
    let rest = words::load(&pending, 0);
    words::store(out, at, ghash::to_block(acc));
    words::store(out, at + 16, rest);
}

// And those that 32 bytes at a place list.
pub fn get_held(s: &[u8], at: usize) -> Held
    requires { at + 32 ≤ length s.now }
    ensures { ((sum_of result).hash ≡ part at 16 s.now) × ((sum_of result).pending ≡ part (at + 16) 16 s.now) }
{
    let acc = ghash::from_block(words::load(s, at));
    let pending = words::to_bytes(words::load(s, at + 16));
    Held {
        acc: acc,
        pending: pending,
    }
}

// The block: zeros, then the fields, then the check.
pub fn block_of(f: Suspended) -> [u8; 512]
    ensures { result ≡ block_of (suspended_of f) }
{
    let registers = f.registers;
    let held = f.held;
    let mut block = [0u8; 512];
    block[0] = f.phase;
    fields::put(&mut block, 4, 4, f.ad);
    fields::put(&mut block, 8, 4, f.text);
    put_registers(&mut block, 16, registers);
    put_held(&mut block, 128, held);
    fields::put_check(&mut block);
    block
}

// What a block says, with no rule tested.
pub fn read(block: &[u8]) -> Suspended
    requires { length block.now ≡ 512 }
    ensures { suspended_of result ≡ Block.read block.now }
{
    let phase = block[0];
    let ad = fields::get(block, 4, 4);
    let text = fields::get(block, 8, 4);
    let registers = get_registers(block, 16);
    let held = get_held(block, 128);
    Suspended {
        phase: phase,
        ad: ad,
        text: text,
        registers: registers,
        held: held,
    }
}
