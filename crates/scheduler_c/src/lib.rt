// The scheduler's answers in bytes, for C: who is next, and a turn. The calls for C stand on it.
#![tactic(auto)]

ghost use Rattle.std.specs.Prelude.{◌≡◌, eqb};
ghost use Rattle.scope.specs.Machine.{answer_number};
ghost use Rattle.scheduler_c.specs.Calls.{rooms, asked_answer, asked_found, asked_iv, asked_due, turned_answer, turned_out, turned_iv, turned_turn, turned_done, turned_tag, TurnedLeaves};

use scope::Refusal;

// The lengths of what C is told, under include/tulvekas.h's names.
const IV_BYTES: usize = 16;

const TAG_BYTES: usize = 16;

const TURN_BYTES: usize = 8;

const DUE_BYTES: usize = 8;

const FLAG_BYTES: usize = 1;

// Whether the four buffers of a turn have room.
fn fits(iv: &[u8], turn: &[u8], done: &[u8], tag: &[u8]) -> bool
    ensures { result ≡ eqb (rooms (record { iv = iv.now; turn = turn.now; done = done.now; tag = tag.now })) 0 }
{
    IV_BYTES <= iv.len()
        && TURN_BYTES <= turn.len()
        && FLAG_BYTES <= done.len()
        && TAG_BYTES <= tag.len()
}

// Says who is next: whether anybody is there, and then the number of the stay and the length of its piece. Refused: 8, 4 for any of the three buffers.
pub fn next(
    scheduler: &[u8],
    found: &mut [u8],
    iv: &mut [u8],
    due: &mut [u8],
) -> Result<(), Refusal>
    ensures answer { answer_number result ≡ asked_answer scheduler.now found.old iv.old due.old }
    ensures found { found.new ≡ asked_found scheduler.now found.old iv.old due.old }
    ensures iv { iv.new ≡ asked_iv scheduler.now found.old iv.old due.old }
    ensures due { due.new ≡ asked_due scheduler.now found.old iv.old due.old }
{
    let n = scheduler::next(scheduler)?;
    if found.len() < FLAG_BYTES {
        return Err(Refusal::ShortOutput);
    }
    if iv.len() < IV_BYTES {
        return Err(Refusal::ShortOutput);
    }
    if due.len() < DUE_BYTES {
        return Err(Refusal::ShortOutput);
    }
    let Some(stay) = n else {
        found[0] = 0;
        return Ok(());
    };
    found[0] = 1;
    bytes_c::put_block(iv, 0, stay.iv);
    fields::put(due, 0, DUE_BYTES, stay.due);
    Ok(())
}

// Gives a turn, and says which stay it served, the number of the turn, and whether the stay has finished and left, with its tag then. Refused: as the scheduler's turn, and last 4
// for any of the four buffers.
pub fn turn(
    scheduler: &mut [u8],
    piece: &[u8],
    out: &mut [u8],
    iv: &mut [u8],
    turn: &mut [u8],
    done: &mut [u8],
    tag: &mut [u8],
) -> Result<(), Refusal>
    ensures answer { answer_number result ≡ turned_answer scheduler.old piece.now out.old (record { iv = iv.old; turn = turn.old; done = done.old; tag = tag.old }) }
    ensures scheduler { TurnedLeaves scheduler.old piece.now out.old (record { iv = iv.old; turn = turn.old; done = done.old; tag = tag.old }) scheduler.new }
    ensures out { out.new ≡ turned_out scheduler.old piece.now out.old (record { iv = iv.old; turn = turn.old; done = done.old; tag = tag.old }) }
    ensures iv { iv.new ≡ turned_iv scheduler.old piece.now out.old (record { iv = iv.old; turn = turn.old; done = done.old; tag = tag.old }) }
    ensures turn { turn.new ≡ turned_turn scheduler.old piece.now out.old (record { iv = iv.old; turn = turn.old; done = done.old; tag = tag.old }) }
    ensures done { done.new ≡ turned_done scheduler.old piece.now out.old (record { iv = iv.old; turn = turn.old; done = done.old; tag = tag.old }) }
    ensures tag { tag.new ≡ turned_tag scheduler.old piece.now out.old (record { iv = iv.old; turn = turn.old; done = done.old; tag = tag.old }) }
{
    if !fits(iv, turn, done, tag) {
        return Err(scheduler::short_turn(scheduler, piece));
    }
    let Some(t) = scheduler::turn(scheduler, piece, out)? else {
        fields::put(turn, 0, TURN_BYTES, 0);
        done[0] = 0;
        return Ok(());
    };
    bytes_c::put_block(iv, 0, t.iv);
    fields::put(turn, 0, TURN_BYTES, t.turn);
    let Some(b) = t.tag else {
        done[0] = 0;
        return Ok(());
    };
    done[0] = 1;
    bytes_c::put_block(tag, 0, b);
    Ok(())
}
