// A session suspended into a block of 512 bytes, and resumed from it: document 01's park and take up.
#![tactic(auto)]

ghost use Rattle.std.specs.Prelude.{◌≡◌, ◌++◌, ◌≤◌, length};
ghost use Rattle.scope.specs.Limits.{most_text};
ghost use Rattle.words.specs.Bytes.{little};
ghost use Rattle.aes.specs.Unround.{unsub};
ghost use Rattle.aes.specs.Tables.{Holds};
ghost use Rattle.cipher.specs.Machine.{state_of};
ghost use Rattle.start.specs.Start.{Mode.sealed};
ghost use Rattle.start.specs.Leads.{LeadsToState};
ghost use Rattle.session.specs.Machine.{session_of, Says};
ghost use Rattle.suspended.specs.Machine.{suspended_of};
ghost use Rattle.suspend.specs.Calls;
ghost use Rattle.suspend.specs.Calls.{suspend_call, Revives};
ghost use Rattle.suspend.specs.Walk.{resume_call};
ghost use Rattle.suspend.specs.Machine.{resumed_of};

use cipher::State;
use scope::Refusal;
use session::Session;
use start::Mode;
use suspended::Suspended;

// Document 01's park: writes the session's block; the session is only read. Refused: 7 after finish, 4 where the output has less than 512 bytes.
pub fn suspend(s: &Session, out: &mut [u8]) -> Result<(), Refusal>
    ensures says { Says (suspend_call (session_of s.now) out.old) result s.now }
    ensures out_after { out.new ≡ (suspend_call (session_of s.now) out.old).out }
{
    if s.phase >= 2 {
        return Err(Refusal::OutOfPhase);
    }
    if out.len() < 512 {
        return Err(Refusal::ShortOutput);
    }
    let block = suspended::block_of(Suspended {
        phase: s.phase,
        ad: s.ad,
        text: s.text,
        registers: s.state.registers,
        held: s.held,
    });
    fields::copy(&block, 512, out);
    Ok(())
}

// The IV's bytes from its two halves.
pub fn iv_bytes(lo: u64, hi: u64) -> [u8; 16]
    ensures { result ≡ little 8 lo ++ little 8 hi }
{
    let mut r = [0u8; 16];
    fields::put(&mut r, 0, 8, lo);
    fields::put(&mut r, 8, 8, hi);
    r
}

// The state that a block says: its registers, and the count of blocks that its text has drawn.
pub fn state_of(k: Suspended) -> State
    requires { k.text ≤ most_text }
    ensures { state_of result ≡ Calls.state_for (suspended_of k) }
{
    State {
        registers: k.registers,
        count: 2 + session::ceil16(k.text),
    }
}

// The session of what a block says, under the IV that leads to its state: H, the end pad and the IV are those of a session begun under it, and the
// current block is that of the step before.
fn revived(key: &[u8], iv: [u8; 16], k: Suspended, state: State, inverse: &[u8; 256]) -> Session
    requires { (length key.now ≡ 32) × (state_of state ≡ Calls.state_for (suspended_of k)) × LeadsToState key.now iv sealed (state_of state) × Holds unsub inverse.now }
    ensures { session_of result ≡ Calls.revived key.now iv (suspended_of k) }
{
    let first = session::begin(key, &iv).unwrap();
    let carried = first.iv;
    let before = cipher::z_before(state.registers, inverse);
    Session {
        phase: k.phase,
        ad: k.ad,
        text: k.text,
        state,
        h: first.h,
        pad: first.pad,
        current: before.z,
        held: k.held,
        iv: carried,
    }
}

// Document 01's take up: the session that a block was written for, which carries its IV. Refused: 1 for the key's length, 8 for a block that breaks a
// layout rule, 6 where no IV leads to its state in sealed mode.
pub fn resume(key: &[u8], block: &[u8]) -> Result<Session, Refusal>
    ensures leads { Revives key.now block.now (resumed_of result) }
    ensures walk { resumed_of result ≡ resume_call key.now block.now }
{
    if key.len() != 32 {
        return Err(Refusal::KeyLength);
    }
    if !layout::well_laid(block) {
        return Err(Refusal::BadBlock);
    }
    let k = suspended::read(block);
    let state = state_of(k);
    let inverse = aes::inverse_sbox();
    let Ok(o) = start::trace_with(state, key, &inverse) else {
        return Err(Refusal::NoOrigin);
    };
    match o.mode {
        Mode::Plain => Err(Refusal::NoOrigin),
        Mode::Sealed => Ok(revived(key, iv_bytes(o.lo, o.hi), k, state, &inverse)),
    }
}
