// What C keeps and is told, as bytes: a state in 120, a session in 240, a date in four, and what a call leaves in a lent buffer. The calls for C stand on it.
#![tactic(auto)]

ghost use Rattle.std.specs.Prelude.{◌≡◌, ◌++◌, ◌+◌, ◌≤◌, ℕ, length, take, drop};
ghost use Rattle.std.specs.Result.{IfErr};
ghost use Rattle.std.proofs.lemmas.List.Edits.{sets};
ghost use Rattle.scope.specs.Machine.{answer_number};
ghost use Rattle.words.specs.Bytes.{little, part};
ghost use Rattle.words.specs.Machine.{bytes_of};
ghost use Rattle.ghash.specs.Machine.{bytes_of_element};
ghost use Rattle.cipher.specs.Machine.{state_of};
ghost use Rattle.start.specs.Machine.{mode_of};
ghost use Rattle.session.specs.Machine.{session_of};
ghost use Rattle.calendar.specs.Inner.{Small};
ghost use Rattle.calendar.specs.Machine.{date_of};
ghost use Rattle.bytes_c.specs.Order.{room, buffer_after};
ghost use Rattle.bytes_c.specs.StateBytes.{state_bytes, state_in, LeavesState};
ghost use Rattle.bytes_c.specs.SessionBytes.{session_in, Leaves, is_session};
ghost use Rattle.bytes_c.specs.Modes.{mode_named, mode_byte};
ghost use Rattle.bytes_c.specs.Replies.{reply_answer, reply_writes, date_bytes, date_reply};
ghost use Rattle.bytes_c.specs.Machine.{dated_by, told_number};
ghost use Rattle.bytes_c.specs.Inner.{FitsBytes};

use calendar::Date;
use cipher::State;
use ghash::Element;
use scope::Refusal;
use session::Session;
use start::Mode;
use words::Block;

// The lengths of what C keeps and is told, under include/tulvekas.h's names.
pub const SESSION_BYTES: usize = 240;

pub const STATE_BYTES: usize = 120;

pub const DATE_BYTES: usize = 4;

pub const DAY_BYTES: usize = 8;

// Sixteen bytes at a place of a buffer.
pub fn put_block(out: &mut [u8], at: usize, b: [u8; 16])
    requires { at + 16 ≤ length out.old }
    ensures { out.new ≡ take at out.old ++ b ++ drop (at + 16) out.old }
{
    words::store(out, at, words::load(&b, 0));
}

// ---- states in bytes

// A state's 120 bytes as C keeps them, at a place: the registers, then the count.
fn put_state(out: &mut [u8], at: usize, s: State)
    requires { at + 120 ≤ length out.old }
    ensures { out.new ≡ sets out.old at (state_bytes (state_of s)) }
{
    let registers = s.registers;
    suspended::put_registers(out, at, registers);
    fields::put(out, at + 112, 8, s.count);
}

// And the state that 120 bytes at a place list.
pub fn get_state(b: &[u8], at: usize) -> State
    requires { at + 120 ≤ length b.now }
    ensures { state_of result ≡ state_in (part at 120 b.now) }
{
    let registers = suspended::get_registers(b, at);
    let count = fields::get(b, at + 112, 8);
    State {
        registers: registers,
        count: count,
    }
}

// A state's bytes to the front of a buffer.
pub fn store_state(out: &mut [u8], s: State)
    requires { 120 ≤ length out.old }
    ensures { LeavesState 0 (state_of s) out.old out.new }
{
    put_state(out, 0, s);
}

// ---- sessions in bytes

// Whether a session that is to be read has its length.
pub fn is_session(b: &[u8]) -> bool
    ensures { result ≡ is_session b.now }
{
    b.len() == SESSION_BYTES
}

// H, the end pad and the keystream block in use, at their place.
fn put_drawn(out: &mut [u8], h: Element, pad: Block, current: Block)
    requires { 240 ≤ length out.old }
    ensures { out.new ≡ sets out.old 144 (bytes_of_element h ++ bytes_of pad ++ bytes_of current) }
{
    words::store(out, 144, ghash::to_block(h));
    words::store(out, 160, pad);
    words::store(out, 176, current);
}

// A session's bytes to the front of a buffer.
pub fn store_session(out: &mut [u8], s: Session)
    requires { 240 ≤ length out.old }
    ensures { Leaves 0 (session_of s) out.old out.new }
{
    let state = s.state;
    let h = s.h;
    let pad = s.pad;
    let current = s.current;
    let held = s.held;
    let iv = s.iv;
    fields::put(out, 0, 8, s.phase as u64);
    fields::put(out, 8, 8, s.ad);
    fields::put(out, 16, 8, s.text);
    put_state(out, 24, state);
    put_drawn(out, h, pad, current);
    suspended::put_held(out, 192, held);
    put_block(out, 224, iv);
}

// And the session that bytes list, whatever they are.
pub fn load_session(b: &[u8]) -> Session
    requires { length b.now ≡ 240 }
    ensures { session_of result ≡ session_in b.now }
{
    let phase = b[0];
    let ad = fields::get(b, 8, 8);
    let text = fields::get(b, 16, 8);
    let state = get_state(b, 24);
    let h = ghash::from_block(words::load(b, 144));
    let pad = words::load(b, 160);
    let current = words::load(b, 176);
    let held = suspended::get_held(b, 192);
    let iv = words::to_bytes(words::load(b, 224));
    Session {
        phase: phase,
        ad: ad,
        text: text,
        state: state,
        h: h,
        pad: pad,
        current: current,
        held: held,
        iv: iv,
    }
}

// ---- modes

pub fn mode_named(sealed: u64) -> Mode
    ensures { mode_of result ≡ mode_named sealed }
{
    if sealed == 0 {
        return Mode::Plain;
    }
    Mode::Sealed
}

pub fn mode_number(mode: Mode) -> u8
    ensures { result ≡ mode_byte (mode_of mode) }
{
    match mode {
        Mode::Plain => 0,
        Mode::Sealed => 1,
    }
}

// ---- answers that are bytes, and dates

// The k low bytes of n, low byte first, to the front of a buffer. Refused: 4.
#[tactic(auto, using(words::proofs::Bytes::little_long, words::proofs::Writing::put_front))]
pub fn reply(out: &mut [u8], k: usize, n: u64) -> Result<(), Refusal>
    ensures answer { answer_number result ≡ room k out.old 0 }
    ensures out { out.new ≡ buffer_after (room k out.old 0) k (little k n) out.old }
{
    if out.len() < k {
        return Err(Refusal::ShortOutput);
    }
    fields::put(out, 0, k, n);
    Ok(())
}

// The number whose four low bytes are a date's.
fn date_number(d: Date) -> u64
    requires { Small (date_of d) }
    ensures { little 4 result ≡ date_bytes (date_of d) }
{
    d.year + 65536 * d.month + 16777216 * d.day
}

// A date's four bytes to the front of a buffer. What stands in the place of a date comes back as it came, in the outer `Err`, and nothing is written.
// Refused, with a date: 4, in the inner one.
#[tactic(auto, using(crate::proofs::Replies::date_long), unfolding(crate::specs::Replies::reply_answer, crate::specs::Replies::reply_writes))]
pub fn reply_date<E>(t: Result<Date, E>, out: &mut [u8]) -> Result<Result<(), Refusal>, E>
    requires { (number : E → ℕ) → FitsBytes (dated_by number t) }
    ensures answer { (number : E → ℕ) → told_number number result ≡ reply_answer (date_reply (dated_by number t)) out.old }
    ensures out { (number : E → ℕ) → out.new ≡ reply_writes (date_reply (dated_by number t)) out.old }
    ensures refused { IfErr t (λ e. result ≡ Err e) }
{
    let d = t?;
    Ok(reply(out, DATE_BYTES, date_number(d)))
}
