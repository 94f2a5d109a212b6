// Sealing in one pass: every block of text is read once, and its ciphertext is written once and hashed as it is made. (Of a piece of a session, its last whole
// block is read again.) Beside it, text under keystream that is drawn already. Nothing here knows a session.
#![tactic(auto)]

ghost use Rattle.std.specs.Prelude.{◌≡◌, ◌+◌, ◌-◌, ◌*◌, ◌≤◌, length, take, drop};
ghost use Rattle.std.proofs.lemmas.List.Edits.{sets};
ghost use Rattle.std.proofs.Math.Seq.{slice};
ghost use Rattle.words.specs.Xor.{xors};
ghost use Rattle.words.specs.Bytes.{part};
ghost use Rattle.ghash.specs.Hash.{ceil16};
ghost use Rattle.ghash.specs.Machine.{bytes_of_element};
ghost use Rattle.cipher.specs.Run.{forward, moves};
ghost use Rattle.cipher.specs.Machine.{registers_of};
ghost use Rattle.pass.specs.Pass.{Sealed};
ghost use Rattle.pass.specs.Inner.{Part, Lent};

use cipher::{Registers, lanes};
use ghash::Element;

// What blocks move on: the registers, and the hash so far.
#[derive(Clone, Copy)]
pub struct Track {
    pub registers: Registers,
    pub hash: Element,
}

// A batch of at most 16 whole blocks, from a place of the text on, which go to that place of the output: a step as in `lanes::batch`, its z on the text, and the
// ciphertext hashed, block by block. All in one loop: a product waits for the one before it, and the processor makes the step meanwhile.
fn sealed_batch(
    t: Track,
    h: Element,
    text: &[u8],
    out: &mut [u8],
    from: usize,
    n: usize,
    rounds: &[u32; 256],
    table: &[u64; 1024],
) -> Track
    requires { (n ≤ 16) × (from + 16 * n ≤ length text.now) × (from + 16 * n ≤ length out.old) × Lent (bytes_of_element h) rounds.now table.now }
    ensures registers { registers_of result.registers ≡ moves forward n (registers_of t.registers) }
    ensures pass { Sealed (bytes_of_element h) (registers_of t.registers) text.now from n out.old (bytes_of_element t.hash) n out.new (bytes_of_element result.hash) }
{
    let s = t.registers;
    let mut y = t.hash;
    let old = s.lfsr;
    let r1 = s.r1;
    let r2 = s.r2;
    let mut r3 = s.r3;
    let mut t1 = [0u16; 128];
    let mut t2 = [0u16; 128];
    let mut l1 = [0u8; 272];
    let mut l2 = [0u8; 272];
    let mut m = [0u8; 512];
    let l = lanes::taps(old, &mut t1, &mut t2, n);
    words::store(&mut l1, 0, r1);
    words::store(&mut l2, 0, r2);
    for i in 0..n {
        let at = 16 * i;
        let next = at + 16;
        let n1 = lanes::next_r1(&l2, at, r3, lanes::tap(&t2, i));
        words::store(&mut l1, next, n1);
        let n2 = wide_round::round_at(&l1, at, rounds);
        let n3 = wide_round::round_at(&l2, at, rounds);
        words::store(&mut l2, next, n2);
        r3 = n3;
        let z = lanes::output(&l1, &l2, at, lanes::tap(&t1, i));
        let x = words::load(text, from + at);
        let c = words::xor(x, z);
        words::store(out, from + at, c);
        y = ghash::absorb_at(y, ghash::from_block(c), h, table, &mut m, 32 * i);
    }
    Track {
        registers: lanes::moved_to(s, l, &l1, &l2, 16 * n, r3),
        hash: y,
    }
}

// Whole blocks, batch by batch. The tables stand before the places, so that they are handed over in registers.
pub fn sealed_blocks(
    t: Track,
    h: Element,
    text: &[u8],
    out: &mut [u8],
    rounds: &[u32; 256],
    table: &[u64; 1024],
    from: usize,
    n: usize,
) -> Track
    requires { (from + 16 * n ≤ length text.now) × (from + 16 * n ≤ length out.old) × Lent (bytes_of_element h) rounds.now table.now }
    ensures registers { registers_of result.registers ≡ moves forward n (registers_of t.registers) }
    ensures pass { Sealed (bytes_of_element h) (registers_of t.registers) text.now from n out.old (bytes_of_element t.hash) n out.new (bytes_of_element result.hash) }
{
    let mut u = t;
    for i in (0..n).step_by(16) {
        let k = lanes::at_most(n - i);
        let v = sealed_batch(u, h, text, out, from + 16 * i, k, rounds, table);
        u = v;
    }
    u
}

// The only pass of a seal over its page: all blocks of its text from the registers s and the hash y on, a short last one with zeros behind it in the hash. Nothing else of a
// seal reads the text, and nothing reads the ciphertext again.
pub fn sealed_text(
    s: Registers,
    y: Element,
    h: Element,
    text: &[u8],
    out: &mut [u8],
    rounds: &[u32; 256],
    table: &[u64; 1024],
) -> Element
    requires { (length text.now ≤ length out.old) × Lent (bytes_of_element h) rounds.now table.now }
    ensures { Sealed (bytes_of_element h) (registers_of s) text.now 0 (ceil16 (length text.now)) out.old (bytes_of_element y) (ceil16 (length text.now)) out.new (bytes_of_element result) }
{
    let n = text.len();
    let whole = n / 16;
    let t = Track {
        registers: s,
        hash: y,
    };
    let u = sealed_blocks(t, h, text, out, rounds, table, 0, whole);
    let v = u.hash;
    if n % 16 == 0 {
        return v;
    }
    let registers = u.registers;
    let w = lanes::forward(registers, rounds);
    let z = w.z;
    let key = words::to_bytes(z);
    let zeros = [0u8; 16];
    let last = under(key, zeros, 0, text, out, 16 * whole, n);
    ghash::absorb(v, words::load(&last, 0), h, table)
}

// Bytes of text under keystream bytes, from `at` on: written, and put in p from there on.
pub fn under(
    key: [u8; 16],
    p: [u8; 16],
    at: usize,
    piece: &[u8],
    out: &mut [u8],
    from: usize,
    to: usize,
) -> [u8; 16]
    requires { Part at (length piece.now) (length out.old) from to × (at + (to - from) ≤ 16) }
    ensures held { result ≡ sets p at (xors (slice from to piece.now) (drop at key)) }
    ensures out { out.new ≡ sets out.old from (xors (slice from to piece.now) (drop at key)) }
{
    let mut q = p;
    for i in from..to {
        let k = at + (i - from);
        let c = piece[i] ^ key[k];
        out[i] = c;
        q[k] = c;
    }
    q
}

// n blocks of the input, from a place on, under as many of keystream: written from there on.
pub fn under_keystream(input: &[u8], stream: &[u8], out: &mut [u8], from: usize, n: usize)
    requires { (from + 16 * n ≤ length input.now) × (from + 16 * n ≤ length out.old) × (16 * n ≤ length stream.now) }
    ensures { out.new ≡ sets out.old from (xors (part from (16 * n) input.now) (take (16 * n) stream.now)) }
{
    for i in 0..n {
        let at = from + 16 * i;
        words::store(
            out,
            at,
            words::xor(words::load(input, at), words::load(stream, 16 * i)),
        );
    }
}
