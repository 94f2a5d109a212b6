// A sealing session: begin, then data pieces, then text pieces, then finish. The session is lent to each call, and a refused one leaves it. A piece of text goes by
// blocks in blocks.rt; the crate `pass` has the loops that seal, of a piece's whole blocks and of a whole page; lent.rt has the calls for whoever makes the tables once for several.
#![tactic(auto)]

ghost use Rattle.std.specs.Prelude.{◌≡◌, ◌++◌, ◌+◌, ◌%◌, ◌^◌, ◌<◌, ◌≤◌, length, drop};
ghost use Rattle.scope.specs.Limits.{most_text};
ghost use Rattle.aes.specs.Tables.{Holds};
ghost use Rattle.wide_round.specs.Wide.{wide};
ghost use Rattle.ghash.specs.Hash as Hash;
ghost use Rattle.ghash.specs.Machine.{bytes_of_element};
ghost use Rattle.cipher.specs.Machine.{registers_of};
ghost use Rattle.digest.specs.Machine.{sum_of};
ghost use Rattle.pass.specs.Inner.{Part};
ghost use Rattle.session.specs.Calls as Calls;
ghost use Rattle.session.specs.Calls.{begun_from, begin_call, data_call, text_call, finish_call};
ghost use Rattle.session.specs.Pieces.{closed, tag_of, text_taken, text_out};
ghost use Rattle.session.specs.Machine.{session_of, Begins, Says, finished_of};
ghost use Rattle.session.specs.Inner as Inner;

mod blocks;
pub mod lent;

use cipher::{Registers, State, lanes};
use digest::Held;
use ghash::Element;
use scope::Refusal;
use words::Block;

#[derive(Clone, Copy)]
pub struct Session {
    // 0 data, 1 text, 2 finished
    pub phase: u8,
    // bytes of associated data and of text so far
    pub ad: u64,
    pub text: u64,
    // the hash so far, and the bytes not yet hashed
    pub held: Held,
    // H, the end pad, and the keystream block drawn last
    pub h: Element,
    pub pad: Block,
    pub current: Block,
    pub state: State,
    // the IV: begin's, or the one that walking back gave
    pub iv: [u8; 16],
}

// What a finish gives: the tag and the IV.
#[derive(Clone, Copy)]
pub struct Closing {
    pub tag: [u8; 16],
    pub iv: [u8; 16],
}

// The IV handed to begin, as the session carries it.
fn carried(iv: &[u8]) -> [u8; 16]
    requires { length iv.now ≡ 16 }
    ensures { result ≡ iv.now }
{
    words::to_bytes(words::load(iv, 0))
}

// The session that an accepted begin gives, from the registers of its start and its IV: H and the end pad are drawn.
fn opened(s: Registers, iv: [u8; 16], rounds: &[u32; 256]) -> Session
    requires { Holds wide rounds.now }
    ensures { session_of result ≡ begun_from (record { registers = registers_of s; count = 0 }) iv }
{
    let mut two = [0u8; 32];
    let registers = lanes::batch(s, rounds, &mut two, 0, 2);
    let state = State {
        registers,
        count: 2,
    };
    let pad = words::load(&two, 16);
    Session {
        phase: 0,
        ad: 0,
        text: 0,
        state,
        h: ghash::from_block(words::load(&two, 0)),
        pad,
        current: pad,
        held: digest::fresh(ghash::zero()),
        iv,
    }
}

// Begins a session under a key of 32 bytes with an IV of 16. Refused: 1 for the key's length, 2 for the IV's.
pub fn begin(key: &[u8], iv: &[u8]) -> Result<Session, Refusal>
    ensures { Begins (begin_call key.now iv.now) result }
{
    let rounds = wide_round::table();
    lent::begin_with(key, iv, &rounds)
}

// n bytes more of data, which are hashed or held in e.
fn told(s: Session, n: u64, e: Held) -> Session
    requires { s.ad + n < 2 ^ 64 }
    ensures { session_of result ≡ Inner.told (session_of s) n (sum_of e) }
{
    let mut r = s;
    r.ad = s.ad + n;
    r.held = e;
    r
}

// Takes a piece of associated data. Refused: 7 once text has come or after finish, 3 where the data would be over 65,535 bytes.
pub fn data(s: &mut Session, piece: &[u8]) -> Result<(), Refusal>
    ensures { Says (data_call (session_of s.old) piece.now) result s.new }
{
    if s.phase != 0 {
        return Err(Refusal::OutOfPhase);
    }
    let n = piece.len() as u64;
    let ad = s.ad;
    if n > scope::MOST_DATA {
        return Err(Refusal::TooLong);
    }
    if ad > scope::MOST_DATA - n {
        return Err(Refusal::TooLong);
    }
    *s = told(*s, n, digest::absorb(s.h, s.held, ad, piece));
    Ok(())
}

// The first text, or finish, closes the data; y is its hash.
fn into_text(s: Session, y: Element) -> Session
    ensures { session_of result ≡ Inner.into_text (session_of s) (bytes_of_element y) }
{
    let e = digest::fresh(y);
    let mut r = s;
    r.phase = 1;
    r.held = e;
    r
}

// What is held of the data is padded with zeros and hashed, where that is not done. The table of H that it takes stands on the stack while this runs, and
// not in its callers.
#[inline(never)]
fn close(s: Session) -> Session
    ensures { session_of result ≡ closed (session_of s) }
{
    if s.phase != 0 {
        return s;
    }
    let h = s.h;
    let d = s.held;
    into_text(s, digest::settle(h, d, s.ad))
}

// An accepted piece of text that fills a block, with the table of H made: in a function of its own, so that the table stands on the stack on this way alone.
#[inline(never)]
fn take_long(s: Session, piece: &[u8], out: &mut [u8], rounds: &[u32; 256]) -> Session
    requires { Part s.text (length piece.now) (length out.old) 0 (length piece.now) × (16 ≤ s.text % 16 + length piece.now) × Holds wide rounds.now × (s.state.count + length piece.now < 2 ^ 64) }
    ensures session { session_of result ≡ text_taken (closed (session_of s)) piece.now }
    ensures out { out.new ≡ text_out (closed (session_of s)) piece.now ++ drop (length piece.now) out.old }
{
    let h = s.h;
    let mut table = [0u64; 1024];
    ghash::fill(&mut table, h);
    blocks::long_text(lent::close_with(s, &table), piece, out, rounds, &table)
}

// An accepted piece of text. Any, even an empty one, closes the data.
fn take_text(s: Session, piece: &[u8], out: &mut [u8]) -> Session
    requires { Part s.text (length piece.now) (length out.old) 0 (length piece.now) × (s.state.count + length piece.now < 2 ^ 64) }
    ensures session { session_of result ≡ text_taken (closed (session_of s)) piece.now }
    ensures out { out.new ≡ text_out (closed (session_of s)) piece.now ++ drop (length piece.now) out.old }
{
    let rounds = wide_round::table();
    let at = (s.text % 16) as usize;
    if piece.len() < 16 - at {
        return blocks::short_text(close(s), piece, out, &rounds);
    }
    take_long(s, piece, out, &rounds)
}

// Blocks that hold n bytes.
pub fn ceil16(n: u64) -> u64
    requires { n ≤ most_text }
    ensures { result ≡ Hash.ceil16 n }
{
    (n + 15) / 16
}

// Seals a piece of text into the front of `out`; the first piece closes the data. Refused: 7 after finish, 3 where the text would be over
// 1,048,576 bytes, 9 where the state would come past 65,538 blocks, as it does in no session that was begun or resumed, 4 where the piece does not
// fit the output.
pub fn text(s: &mut Session, piece: &[u8], out: &mut [u8]) -> Result<(), Refusal>
    ensures says { Says (text_call (session_of s.old) piece.now out.old) result s.new }
    ensures out { out.new ≡ (text_call (session_of s.old) piece.now out.old).out }
{
    if s.phase >= 2 {
        return Err(Refusal::OutOfPhase);
    }
    let n = piece.len() as u64;
    if n > scope::MOST_TEXT {
        return Err(Refusal::TooLong);
    }
    if s.text > scope::MOST_TEXT - n {
        return Err(Refusal::TooLong);
    }
    cipher::steps_allowed(s.state.count, ceil16(s.text + n) - ceil16(s.text), false)?;
    if out.len() < piece.len() {
        return Err(Refusal::ShortOutput);
    }
    *s = take_text(*s, piece, out);
    Ok(())
}

// The tag of a session: what is held is padded and hashed, then both lengths.
fn tag(s: Session) -> [u8; 16]
    ensures { result ≡ tag_of (session_of s) }
{
    let h = s.h;
    let mut table = [0u64; 1024];
    ghash::fill(&mut table, h);
    let u = lent::close_with(s, &table);
    let d = u.held;
    let y = digest::settle_with(h, d, s.text, &table);
    words::to_bytes(lent::tag_from(s, s.text, y, &table))
}

// Gives the tag and the IV, and ends the session: every call after it gives 7. Refused: 7.
pub fn finish(s: &mut Session) -> Result<Closing, Refusal>
    ensures { finished_of result s.new ≡ finish_call (session_of s.old) }
{
    if 1 < s.phase {
        return Err(Refusal::OutOfPhase);
    }
    let tag = tag(*s);
    s.phase = 2;
    Ok(Closing { tag, iv: s.iv })
}
