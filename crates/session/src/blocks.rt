// A piece of text by blocks: up to the end of the block in use, whole blocks, and the rest.
ghost use Rattle.std.specs.Prelude.{◌≡◌, ◌++◌, ◌+◌, ◌-◌, ◌%◌, ◌^◌, ◌<◌, ◌≤◌, length, drop};
ghost use Rattle.std.proofs.lemmas.List.Edits.{sets};
ghost use Rattle.std.proofs.Math.Seq.{slice};
ghost use Rattle.aes.specs.Tables.{Holds};
ghost use Rattle.wide_round.specs.Wide.{wide};
ghost use Rattle.ghash.specs.Machine.{bytes_of_element};
ghost use Rattle.pass.specs.Inner.{Part, Lent};
ghost use Rattle.session.specs.Pieces.{text_taken, text_out};
ghost use Rattle.session.specs.Machine.{session_of};
ghost use Rattle.session.specs.Inner as Inner;
ghost use Rattle.session.specs.Inner.{ready, masked, Blocks};

use crate::Session;
use cipher::{State, lanes};
use digest::Held;
use pass::Track;

// A block is drawn where the next byte is the first of one, and not before.
fn drawn(s: Session, rounds: &[u32; 256]) -> Session
    requires { Holds wide rounds.now × (s.state.count + 1 < 2 ^ 64) }
    ensures { session_of result ≡ ready (session_of s) }
{
    if s.text % 16 != 0 {
        return s;
    }
    let old = s.state;
    let before = old.registers;
    let w = lanes::forward(before, rounds);
    let registers = w.registers;
    let z = w.z;
    let state = State {
        registers: registers,
        count: old.count + 1,
    };
    let mut r = s;
    r.state = state;
    r.current = z;
    r
}

// Text of one block, written and held.
fn hold(
    s: Session,
    piece: &[u8],
    out: &mut [u8],
    from: usize,
    to: usize,
    rounds: &[u32; 256],
) -> Session
    requires { Part s.text (length piece.now) (length out.old) from to × (s.text % 16 + (to - from) ≤ 16) × Holds wide rounds.now × (s.state.count + 1 < 2 ^ 64) }
    ensures session { session_of result ≡ Inner.held (ready (session_of s)) (slice from to piece.now) }
    ensures out { out.new ≡ sets out.old from (masked (ready (session_of s)) (slice from to piece.now)) }
{
    let mut r = drawn(s, rounds);
    let d = r.held;
    let acc = d.acc;
    let p = d.pending;
    let key = words::to_bytes(r.current);
    let n = r.text;
    let at = (n % 16) as usize;
    let q = pass::under(key, p, at, piece, out, from, to);
    let e = Held {
        acc: acc,
        pending: q,
    };
    r.text = n + ((to - from) as u64);
    r.held = e;
    r
}

// Text that leaves its block open.
fn few(
    s: Session,
    piece: &[u8],
    out: &mut [u8],
    from: usize,
    to: usize,
    rounds: &[u32; 256],
) -> Session
    requires { Part s.text (length piece.now) (length out.old) from to × (s.text % 16 + (to - from) < 16) × Holds wide rounds.now × (s.state.count + (to - from) < 2 ^ 64) }
    ensures session { session_of result ≡ text_taken (session_of s) (slice from to piece.now) }
    ensures out { out.new ≡ sets out.old from (text_out (session_of s) (slice from to piece.now)) }
{
    if to <= from {
        return s;
    }
    hold(s, piece, out, from, to, rounds)
}

// Text that fills its block, which is sent on. At the start of a block there is nothing to fill.
fn full(
    s: Session,
    piece: &[u8],
    out: &mut [u8],
    from: usize,
    to: usize,
    rounds: &[u32; 256],
    table: &[u64; 1024],
) -> Session
    requires { Part s.text (length piece.now) (length out.old) from to × (to - from ≡ (16 - s.text % 16) % 16) × Lent (bytes_of_element s.h) rounds.now table.now × (s.state.count + (to - from) < 2 ^ 64) }
    ensures session { session_of result ≡ text_taken (session_of s) (slice from to piece.now) }
    ensures out { out.new ≡ sets out.old from (text_out (session_of s) (slice from to piece.now)) }
{
    if from == to {
        return s;
    }
    let mut r = hold(s, piece, out, from, to, rounds);
    let h = s.h;
    let d = r.held;
    let y = d.acc;
    let p = d.pending;
    let v = ghash::absorb(y, words::load(&p, 0), h, table);
    let e = digest::fresh(v);
    r.held = e;
    r
}

// Whole blocks. Sealing them keeps no more of the session than they move on; the block of keystream drawn last is what the last of them shows.
fn blocks(
    s: Session,
    piece: &[u8],
    out: &mut [u8],
    from: usize,
    to: usize,
    rounds: &[u32; 256],
    table: &[u64; 1024],
) -> Session
    requires { Blocks s.text (length piece.now) (length out.old) from to × Lent (bytes_of_element s.h) rounds.now table.now × (s.state.count + (to - from) < 2 ^ 64) }
    ensures session { session_of result ≡ text_taken (session_of s) (slice from to piece.now) }
    ensures out { out.new ≡ sets out.old from (text_out (session_of s) (slice from to piece.now)) }
{
    if from == to {
        return s;
    }
    let h = s.h;
    let old = s.state;
    let first = old.registers;
    let d = s.held;
    let before = d.acc;
    let t = Track {
        registers: first,
        hash: before,
    };
    let n = (to - from) / 16;
    let u = pass::sealed_blocks(t, h, piece, out, rounds, table, from, n);
    let registers = u.registers;
    let y = u.hash;
    let x = words::load(piece, to - 16);
    let c = words::load(out, to - 16);
    let z = words::xor(x, c);
    let e = digest::fresh(y);
    let state = State {
        registers: registers,
        count: old.count + n as u64,
    };
    let mut r = s;
    r.text = s.text + ((to - from) as u64);
    r.state = state;
    r.current = z;
    r.held = e;
    r
}

// A piece that fills no block.
pub fn short_text(s: Session, piece: &[u8], out: &mut [u8], rounds: &[u32; 256]) -> Session
    requires { Part s.text (length piece.now) (length out.old) 0 (length piece.now) × (s.text % 16 + length piece.now < 16) × Holds wide rounds.now × (s.state.count + length piece.now < 2 ^ 64) }
    ensures session { session_of result ≡ text_taken (session_of s) piece.now }
    ensures out { out.new ≡ text_out (session_of s) piece.now ++ drop (length piece.now) out.old }
{
    few(s, piece, out, 0, piece.len(), rounds)
}

// A piece that fills a block: up to the end of the block in use, whole blocks, the rest.
pub fn long_text(
    s: Session,
    piece: &[u8],
    out: &mut [u8],
    rounds: &[u32; 256],
    table: &[u64; 1024],
) -> Session
    requires { Part s.text (length piece.now) (length out.old) 0 (length piece.now) × (16 ≤ s.text % 16 + length piece.now) × Lent (bytes_of_element s.h) rounds.now table.now × (s.state.count + length piece.now < 2 ^ 64) }
    ensures session { session_of result ≡ text_taken (session_of s) piece.now }
    ensures out { out.new ≡ text_out (session_of s) piece.now ++ drop (length piece.now) out.old }
{
    let n = piece.len();
    let at = (s.text % 16) as usize;
    let head = (16 - at) % 16;
    let tail = head + (n - head) / 16 * 16;
    let u = full(s, piece, out, 0, head, rounds, table);
    let v = blocks(u, piece, out, head, tail, rounds, table);
    few(v, piece, out, tail, n, rounds)
}
