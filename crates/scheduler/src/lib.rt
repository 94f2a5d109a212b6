// The scheduler: up to 32 stays are sealed in turns of 4,096 bytes, and next comes the one whose last turn, or before any its joining, is longest
// ago. It is 8,208 lent bytes, a head and 32 places
// (specs/Bytes.antt). Document 02's desk.
#![tactic(auto)]

ghost use Rattle.std.specs.Prelude.{◌≡◌, false, List, ℕ, ◌+◌, ◌*◌, ◌%◌, ◌<◌, ◌≤◌, min, length, drop};
ghost use Rattle.std.proofs.lemmas.List.Edits.{sets};
ghost use Rattle.scope.specs.Limits.{most_text, most_stays, most_piece, most_turns};
ghost use Rattle.scope.specs.Machine.{refusal_number, answer_number};
ghost use Rattle.scope.specs.Refusals.{short_output};
ghost use Rattle.words.specs.Bytes;
ghost use Rattle.words.specs.Bytes.{part, zeros};
ghost use Rattle.words.specs.Machine.{bytes_of};
ghost use Rattle.session.specs.Calls.{text_call};
ghost use Rattle.session.specs.Machine.{session_of};
ghost use Rattle.bytes_c.specs.Order as Order;
ghost use Rattle.bytes_c.specs.SessionBytes.{session_bytes};
ghost use Rattle.scheduler.specs.Scheduler as Scheduler;
ghost use Rattle.scheduler.specs.Scheduler.{iv_of, goes_before, scheduler_order, place};
ghost use Rattle.scheduler.specs.Calls.{answer, numbered, whom, finished, tag};
ghost use Rattle.scheduler.specs.Bytes.{scheduler_length, zeroed, stay_bytes, head, stays_in, how_many, empty_answer, empty_writes, join_answer, JoinLeaves, next_answer, next_found, next_iv, next_due, turn_outcome, turn_writes, is_served, TurnLeaves};
ghost use Rattle.scheduler.specs.Machine.{found_of, next_iv_of, next_due_of, served_of, turn_of, whom_of, finished_of, tag_of};
ghost use Rattle.scheduler.specs.Inner.{stay_at, removed, Looks, Serves, ServedBytes};

use scope::Refusal;
use session::Session;
use words::Block;

pub const SCHEDULER_BYTES: usize = 8208;

// Zeros for the first k bytes, whatever k is, so that no proof lays them out.
fn zero_front(s: &mut [u8], k: usize)
    requires { (k ≤ length s.old) × (k % 16 ≡ 0) }
    ensures { s.new ≡ zeroed k s.old }
{
    fields::clear(s, 0, k);
}

// Makes a scheduler with nobody in it, at the front of a buffer. Refused: 4.
pub fn empty(scheduler: &mut [u8]) -> Result<(), Refusal>
    ensures answer { answer_number result ≡ empty_answer scheduler.old }
    ensures scheduler { scheduler.new ≡ empty_writes scheduler.old }
{
    if scheduler.len() < SCHEDULER_BYTES {
        return Err(Refusal::ShortOutput);
    }
    zero_front(scheduler, SCHEDULER_BYTES);
    Ok(())
}

// ---- what the bytes say

// How many stays are there.
#[tactic(auto, unfolding(crate::specs::Bytes::how_many))]
fn stays(s: &[u8]) -> usize
    requires { length s.now ≡ scheduler_length }
    ensures { (result ≡ how_many s.now) × (result ≤ most_stays) }
{
    fields::get(s, 8, 8).min(scope::MOST_STAYS as u64) as usize
}

// The number of the stay at a place.
fn iv_at(s: &[u8], i: usize) -> Block
    requires { (length s.now ≡ scheduler_length) × (i < most_stays) }
    ensures { bytes_of result ≡ iv_of (stay_at s.now i) }
{
    words::load(s, 16 + 256 * i + 224)
}

// What it has left to seal.
fn left_at(s: &[u8], i: usize) -> u64
    requires { (length s.now ≡ scheduler_length) × (i < most_stays) }
    ensures { result ≡ (stay_at s.now i).left }
{
    fields::get(s, 16 + 256 * i + 240, 8)
}

// Its mark: the turn of its last service, or the turns done when it joined.
fn mark_at(s: &[u8], i: usize) -> u64
    requires { (length s.now ≡ scheduler_length) × (i < most_stays) }
    ensures { result ≡ (stay_at s.now i).mark }
{
    fields::get(s, 16 + 256 * i + 248, 8)
}

// How long its next piece is.
fn due_of(left: u64) -> u64
    ensures { result ≡ min most_piece left }
{
    left.min(scope::MOST_PIECE)
}

// Whether the stay at place i comes before the one at place j, whatever their places.
fn comes_before(s: &[u8], i: usize, j: usize) -> bool
    requires { (length s.now ≡ scheduler_length) × (i < most_stays) × (j < most_stays) }
    ensures { result ≡ goes_before scheduler_order (stay_at s.now i) (stay_at s.now j) }
{
    mark_at(s, i) < mark_at(s, j)
}

// The place of the next among the first n: the first that none of the others comes before.
fn next_place(s: &[u8], n: usize) -> usize
    requires { (length s.now ≡ scheduler_length) × (n ≤ most_stays) }
    ensures { result ≡ place scheduler_order (stays_in n (drop 16 s.now)) }
{
    let mut best: usize = 0;
    for i in 0..n {
        if comes_before(s, i, best) {
            best = i;
        }
    }
    best
}

// Whether a number is there among the first n.
fn present(s: &[u8], n: usize, iv: Block) -> bool
    requires { (length s.now ≡ scheduler_length) × (n ≤ most_stays) }
    ensures { result ≡ Scheduler.present (bytes_of iv) (stays_in n (drop 16 s.now)) }
{
    (0..n).any(|i| words::same(iv_at(s, i), iv))
}

// ---- what is written

// Turns done, and how many stays are there.
fn put_head(s: &mut [u8], turns: u64, n: usize)
    requires { length s.old ≡ scheduler_length }
    ensures { s.new ≡ sets s.old 0 (head turns n) }
{
    fields::put(s, 0, 8, turns);
    fields::put(s, 8, 8, n as u64);
}

// A stay in its place. Every other byte stays.
fn put_stay(s: &mut [u8], i: usize, session: Session, left: u64, mark: u64)
    requires { (length s.old ≡ scheduler_length) × (i < most_stays) }
    ensures { (s.new ≡ sets s.old (16 + 256 * i) (stay_bytes (record { session = session_bytes (session_of session); left = left; mark = mark }))) × (length (session_bytes (session_of session)) ≡ 240) }
{
    let at = 16 + 256 * i;
    bytes_c::store_session(&mut s[at..at + 240], session);
    fields::put(s, at + 240, 8, left);
    fields::put(s, at + 248, 8, mark);
}

// The stay at place i of n is taken away: those behind it move down by a place, and the last place in use is zero.
fn remove(s: &mut [u8], i: usize, n: usize)
    requires { (length s.old ≡ scheduler_length) × (i < n) × (n ≤ most_stays) }
    ensures { s.new ≡ removed i n s.old }
{
    let at = 16 + 256 * i;
    let last = 16 + 256 * (n - 1);
    fields::move_down(s, at, at + 256, last - at);
    fields::clear(s, last, 256);
}

// ---- joining

// A stay joins with a key, its number and the length of its text, and with no data; it stands last. Refused: 8 for a scheduler that is not 8,208 bytes, 1, 2, 3 for a length
// that is not 1 to 1,048,576, 19 where 32 stays are there, 16 where that number is.
pub fn join(scheduler: &mut [u8], key: &[u8], iv: &[u8], length: u64) -> Result<(), Refusal>
    ensures answer { answer_number result ≡ join_answer scheduler.old key.now iv.now length }
    ensures scheduler { JoinLeaves scheduler.old key.now iv.now length scheduler.new }
{
    if scheduler.len() != SCHEDULER_BYTES {
        return Err(Refusal::BadBlock);
    }
    if key.len() != 32 {
        return Err(Refusal::KeyLength);
    }
    if iv.len() != 16 {
        return Err(Refusal::IvLength);
    }
    if length == 0 {
        return Err(Refusal::TooLong);
    }
    if length > scope::MOST_TEXT {
        return Err(Refusal::TooLong);
    }
    let n = stays(scheduler);
    if n >= scope::MOST_STAYS {
        return Err(Refusal::SchedulerFull);
    }
    if present(scheduler, n, words::load(iv, 0)) {
        return Err(Refusal::NumberTaken);
    }
    add_stay(scheduler, key, iv, length, n)
}

// A joining that is accepted, behind n stays: a call, so that what it keeps in registers costs nothing where a joining is refused.
#[inline(never)]
fn add_stay(scheduler: &mut [u8], key: &[u8], iv: &[u8], text: u64, n: usize) -> Result<(), Refusal>
    requires { (length scheduler.old ≡ scheduler_length) × (length key.now ≡ 32) × (length iv.now ≡ 16) × (text ≤ most_text) × (n ≡ how_many scheduler.old) × (n < most_stays) × (0 ≡ join_answer scheduler.old key.now iv.now text) }
    ensures answer { answer_number result ≡ join_answer scheduler.old key.now iv.now text }
    ensures scheduler { JoinLeaves scheduler.old key.now iv.now text scheduler.new }
{
    let fresh = session::begin(key, iv)?;
    let turns = fields::get(scheduler, 0, 8);
    put_stay(scheduler, n, fresh, text, turns);
    put_head(scheduler, turns, n + 1);
    Ok(())
}

// ---- who is next

// The number of the stay that comes next, and the length of its piece.
#[derive(Clone, Copy)]
pub struct NextStay {
    pub iv: [u8; 16],
    pub due: u64,
}

// Says who comes next, if anybody is there. Where it names a stay, that one is next until a turn is numbered, whoever joins, at a scheduler that calls from an empty one on wrote.
// Refused: 8 for a scheduler that is not 8,208 bytes.
pub fn next(scheduler: &[u8]) -> Result<Option<NextStay>, Refusal>
    ensures answer { answer_number result ≡ next_answer scheduler.now }
    ensures found { found_of result ≡ next_found scheduler.now }
    ensures iv { next_iv_of result ≡ next_iv scheduler.now }
    ensures due { next_due_of result ≡ next_due scheduler.now }
{
    if scheduler.len() != SCHEDULER_BYTES {
        return Err(Refusal::BadBlock);
    }
    let n = stays(scheduler);
    if n == 0 {
        return Ok(None);
    }
    let i = next_place(scheduler, n);
    let iv = words::to_bytes(iv_at(scheduler, i));
    let due = due_of(left_at(scheduler, i));
    Ok(Some(NextStay { iv, due }))
}

// ---- a turn

// The place of the next, if anybody is there, before a turn with a piece of n bytes. Refused: 8; where somebody is there 9 for a turn past 2^62, 3 for a piece of another length
// than the one due.
fn look(s: &[u8], n: usize) -> Result<Option<usize>, Refusal>
    ensures { Looks s.now n result }
{
    if s.len() != SCHEDULER_BYTES {
        return Err(Refusal::BadBlock);
    }
    let k = stays(s);
    if k == 0 {
        return Ok(None);
    }
    if fields::get(s, 0, 8) >= scope::MOST_TURNS {
        return Err(Refusal::CountTooHigh);
    }
    let place = next_place(s, k);
    if n as u64 != due_of(left_at(s, place)) {
        return Err(Refusal::TooLong);
    }
    Ok(Some(place))
}

// The session of the stay at a place.
fn session_at(s: &[u8], i: usize) -> Session
    requires { (length s.now ≡ scheduler_length) × (i < most_stays) }
    ensures { session_of result ≡ Scheduler.session_for (stay_at s.now i) }
{
    let at = 16 + 256 * i;
    bytes_c::load_session(&s[at..at + 240])
}

// What a numbered turn says: its number, the stay that was served, and the tag of one that has finished and left.
#[derive(Clone, Copy)]
pub struct Turned {
    pub turn: u64,
    pub iv: [u8; 16],
    pub tag: Option<[u8; 16]>,
}

// A numbered turn: the stay at place i has its piece sealed, and its session is u, which is not finished. With nothing left it leaves with its tag.
fn served(s: &mut [u8], i: usize, mut u: Session) -> Turned
    requires { (length s.old ≡ scheduler_length) × (i < how_many s.old) × (Bytes.number (part 0 8 s.old) < most_turns) × (u.phase < 2) }
    ensures says { Serves s.old i (session_of u) result }
    ensures bytes { ServedBytes s.old i (session_of u) s.new }
{
    let n = stays(s);
    let turn = fields::get(s, 0, 8) + 1;
    let iv = words::to_bytes(iv_at(s, i));
    let left = left_at(s, i);
    let rest = left - due_of(left);
    if rest != 0 {
        put_stay(s, i, u, rest, turn);
        put_head(s, turn, n);
        return Turned {
            turn,
            iv,
            tag: None,
        };
    }
    let tag = session::finish(&mut u).unwrap().tag;
    remove(s, i, n);
    put_head(s, turn, n - 1);
    Turned {
        turn,
        iv,
        tag: Some(tag),
    }
}

// Gives a turn: seals the piece of the stay that comes next into the front of `out`. Where nobody is there nothing happens. Refused: 8 for a scheduler that is not 8,208 bytes;
// where somebody is there 9 for a turn past 2^62, 3 for a piece of another length than the one due, 4. Such a turn is not numbered. (Of a stay that nobody joined, in bytes that a
// caller made up, the session may refuse the piece with 7, 3 or 9 before 4.)
pub fn turn(scheduler: &mut [u8], piece: &[u8], out: &mut [u8]) -> Result<Option<Turned>, Refusal>
    ensures answer { answer_number result ≡ answer (turn_outcome scheduler.old piece.now out.old) }
    ensures served { served_of result ≡ is_served (turn_outcome scheduler.old piece.now out.old) }
    ensures turn { turn_of result ≡ numbered (turn_outcome scheduler.old piece.now out.old) }
    ensures iv { whom_of result ≡ whom (turn_outcome scheduler.old piece.now out.old) }
    ensures done { finished_of result ≡ finished (turn_outcome scheduler.old piece.now out.old) }
    ensures tag { tag_of result ≡ tag (turn_outcome scheduler.old piece.now out.old) }
    ensures out { out.new ≡ turn_writes scheduler.old piece.now out.old }
    ensures scheduler { TurnLeaves scheduler.old piece.now out.old scheduler.new }
{
    let Some(i) = look(scheduler, piece.len())? else {
        return Ok(None);
    };
    let mut u = session_at(scheduler, i);
    session::text(&mut u, piece, out)?;
    Ok(Some(served(scheduler, i, u)))
}

// What text refuses whatever the output, or 4 where it would be accepted.
fn short_text(mut s: Session, piece: &[u8]) -> Refusal
    ensures { (out : List ℕ) → refusal_number result ≡ Order.next (text_call (session_of s) piece.now out).number short_output }
{
    match session::text(&mut s, piece, &mut []) {
        Ok(()) => Refusal::ShortOutput,
        Err(e) => e,
    }
}

// What a turn answers whose caller has no room for what it says, whatever its output: the refusal of the turn, else 4. Nothing is written.
pub fn short_turn(scheduler: &[u8], piece: &[u8]) -> Refusal
    ensures { (out : List ℕ) → refusal_number result ≡ Order.next (answer (turn_outcome scheduler.now piece.now out)) short_output }
{
    match look(scheduler, piece.len()) {
        Err(e) => e,
        Ok(None) => Refusal::ShortOutput,
        Ok(Some(i)) => short_text(session_at(scheduler, i), piece),
    }
}
