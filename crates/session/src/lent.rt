// What a whole page is made of but for the pass over its text (crate `pass`): the calls with their tables lent, that of the rounds and that of H, so that one of each serves a page; and the keystream
// alone, for a page that is opened.
ghost use Rattle.std.specs.Prelude.{◌≡◌, ◌++◌, ◌+◌, ◌*◌, ◌%◌, ◌^◌, ◌<◌, ◌≤◌, length, take, drop};
ghost use Rattle.std.proofs.lemmas.List.Edits.{sets};
ghost use Rattle.aes.specs.Tables.{Holds};
ghost use Rattle.wide_round.specs.Wide.{wide};
ghost use Rattle.words.specs.Xor.{xors};
ghost use Rattle.words.specs.Machine.{bytes_of};
ghost use Rattle.ghash.specs.Hash.{lengths, eat};
ghost use Rattle.ghash.specs.Machine.{bytes_of_element, Table};
ghost use Rattle.cipher.specs.Run.{forward, moves};
ghost use Rattle.cipher.specs.Machine.{registers_of};
ghost use Rattle.pass.specs.Inner.{under_blocks};
ghost use Rattle.session.specs.Pieces.{data_taken, closed, text_out};
ghost use Rattle.session.specs.Calls.{begin_call};
ghost use Rattle.session.specs.Machine.{session_of, Begins};

use crate::Session;
use cipher::{Registers, lanes};
use ghash::Element;
use scope::Refusal;
use start::Mode;
use words::Block;

// As `begin`, with the table of the rounds lent.
pub fn begin_with(key: &[u8], iv: &[u8], rounds: &[u32; 256]) -> Result<Session, Refusal>
    requires { Holds wide rounds.now }
    ensures { Begins (begin_call key.now iv.now) result }
{
    let s = start::start_with(key, iv, Mode::Sealed, rounds)?;
    Ok(crate::opened(s.registers, crate::carried(iv), rounds))
}

// An accepted piece of associated data.
pub fn data_with(s: Session, piece: &[u8], table: &[u64; 1024]) -> Session
    requires { (s.phase ≡ 0) × (s.ad + length piece.now < 2 ^ 64) × Table (bytes_of_element s.h) table.now }
    ensures { session_of result ≡ data_taken (session_of s) piece.now }
{
    let h = s.h;
    let d = s.held;
    crate::told(
        s,
        piece.len() as u64,
        digest::absorb_with(h, d, s.ad, piece, table),
    )
}

// What is held of the data is padded with zeros and hashed, where that is not done.
pub fn close_with(s: Session, table: &[u64; 1024]) -> Session
    requires { Table (bytes_of_element s.h) table.now }
    ensures { session_of result ≡ closed (session_of s) }
{
    if 0 < s.phase {
        return s;
    }
    let h = s.h;
    let d = s.held;
    crate::into_text(s, digest::settle_with(h, d, s.ad, table))
}

// The tag of a session's data and n bytes of ciphertext, which have, each padded, the hash y: both lengths last, xor the end pad.
pub fn tag_from(s: Session, n: u64, y: Element, table: &[u64; 1024]) -> Block
    requires { Table (bytes_of_element s.h) table.now }
    ensures { bytes_of result ≡ xors (eat (bytes_of_element s.h) (bytes_of_element y) (lengths s.ad n)) (bytes_of s.pad) }
{
    let h = s.h;
    let pad = s.pad;
    let v = ghash::absorb_element(y, ghash::lengths(s.ad, n), h, table);
    words::xor(ghash::to_block(v), pad)
}

// n blocks of the input under the keystream that registers make, from the front of the output on.
fn masked_blocks(
    s: Registers,
    input: &[u8],
    out: &mut [u8],
    rounds: &[u32; 256],
    n: usize,
) -> Registers
    requires { (16 * n ≤ length input.now) × (16 * n ≤ length out.old) × Holds wide rounds.now }
    ensures registers { registers_of result ≡ moves forward n (registers_of s) }
    ensures out { out.new ≡ sets out.old 0 (under_blocks (registers_of s) n (take (16 * n) input.now)) }
{
    let mut t = s;
    let mut stream = [0u8; 256];
    for i in (0..n).step_by(16) {
        let k = lanes::at_most(n - i);
        let u = lanes::batch(t, rounds, &mut stream, 0, k);
        t = u;
        pass::under_keystream(input, &stream, out, 16 * i, k);
    }
    t
}

// What `text` would write, from the start of a block on, with nothing hashed: of a ciphertext, its text.
pub fn apply_keystream(s: Session, input: &[u8], out: &mut [u8], rounds: &[u32; 256])
    requires { (s.text % 16 ≡ 0) × (length input.now ≤ length out.old) × Holds wide rounds.now }
    ensures { out.new ≡ text_out (session_of s) input.now ++ drop (length input.now) out.old }
{
    let n = input.len();
    let whole = n / 16;
    let registers = masked_blocks(s.state.registers, input, out, rounds, whole);
    let i = 16 * whole;
    if i < n {
        let w = lanes::forward(registers, rounds);
        pass::under(words::to_bytes(w.z), [0; 16], 0, input, out, i, n);
    }
}
