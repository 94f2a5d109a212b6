// The calls of documents 01 and 02 for C: numbers and lent bytes only. A slice is a pointer and a length there. Each call is accepted or answers its
// refusal, for C by its number, which changes no lent byte, but for 6 of a search, which writes its steps; bytes behind what is written stay. Nothing is kept between calls but what
// the caller was handed: a session is 240 lent bytes, a state 120, a scheduler 8,208. Rust's rule for references holds for C as well: a buffer that a call writes overlaps no other
// buffer of that call.
#![tactic(auto)]

ghost use Rattle.std.specs.Prelude.{◌≡◌, ◌++◌, ◌*◌, List, ℕ, drop};
ghost use Rattle.scope.specs.Refusals.{short_output};
ghost use Rattle.scope.specs.Machine.{answer_number, refusal_number};
ghost use Rattle.aes.specs.Tables.{Holds};
ghost use Rattle.wide_round.specs.Wide.{wide};
ghost use Rattle.cipher.specs.Run.{forward, blocks};
ghost use Rattle.cipher.specs.Machine.{registers_of};
ghost use Rattle.page.specs.Calls.{seal_number, open_number, open_out};
ghost use Rattle.page_file.specs.Calls as Files;
ghost use Rattle.key_store.specs.Calls.{store_number, store_after, erase_number, erase_after};
ghost use Rattle.calendar.specs.Calendar;
ghost use Rattle.calendar.specs.Calls.{to_date, to_day};
ghost use Rattle.retention.specs.Keeping.{keeping, kept_until};
ghost use Rattle.bytes_c.specs.Order.{next};
ghost use Rattle.bytes_c.specs.Replies.{reply_answer, reply_writes, date_reply};
ghost use Rattle.tulvekas.specs.Pages.{seal_answer, seal_writes, seal_writes_tag};
ghost use Rattle.tulvekas.specs.Files.{file_open_answer, file_open_writes, file_open_length};
ghost use Rattle.tulvekas.specs.Keys.{keys_fetch_answer, keys_fetch_writes};
ghost use Rattle.tulvekas.specs.Sessions.{begin_answer, BeginLeaves, data_answer, DataLeaves, text_answer, TextLeaves, text_writes, finish_answer, FinishLeaves, finish_writes_tag, finish_writes_iv, suspend_answer, suspend_writes, resume_answer, ResumeLeaves, resume_writes};
ghost use Rattle.tulvekas.specs.Cipher.{fitting, keystream_answer, keystream_writes, start_answer, StartLeaves, run_answer, RunLeaves, run_writes, state_of_answer, StateOfLeaves, trace_of_bytes, trace_answer, trace_iv, trace_sealed};
ghost use Rattle.search.specs.Counts;
ghost use Rattle.tulvekas.specs.Search.{search_answer, search_count, search_iv, search_sealed, search_steps};
ghost use Rattle.tulvekas.specs.Dates.{day_reply, kept_reply};
ghost use Rattle.scheduler.specs.Bytes.{empty_answer, empty_writes, join_answer, JoinLeaves};
ghost use Rattle.scheduler_c.specs.Calls.{asked_answer, asked_found, asked_iv, asked_due, turned_answer, turned_out, turned_iv, turned_turn, turned_done, turned_tag, TurnedLeaves};

use cipher::{Registers, lanes};
use scope::Refusal;

// The lengths of what C hands over, under include/tulvekas.h's names.
const KEY_BYTES: usize = 32;

const IV_BYTES: usize = 16;

const TAG_BYTES: usize = 16;

const LENGTH_BYTES: usize = 8;

const COUNT_BYTES: usize = 8;

const STEPS_BYTES: usize = 8;

// ---- whole pages

// What a seal answers where there is no room for the tag, whatever its output.
fn short_tag(key: &[u8], iv: &[u8], ad: &[u8], text: &[u8]) -> Refusal
    ensures { (out : List ℕ) → refusal_number result ≡ next (seal_number key.now iv.now ad.now text.now out) short_output }
{
    match start::lengths(key, iv) {
        Err(e) => e,
        Ok(()) => {
            if page::over_limit(ad, text) {
                Refusal::TooLong
            } else {
                Refusal::ShortOutput
            }
        }
    }
}

// Seals a page: the ciphertext, as many bytes as the text has, and the tag, 16 bytes. Refused: 1, 2, 3, 4 for either buffer.
pub fn tulvekas_seal(
    key: &[u8],
    iv: &[u8],
    ad: &[u8],
    text: &[u8],
    out: &mut [u8],
    tag: &mut [u8],
) -> Result<(), Refusal>
    ensures answer { answer_number result ≡ seal_answer key.now iv.now ad.now text.now out.old tag.old }
    ensures out { out.new ≡ seal_writes key.now iv.now ad.now text.now out.old tag.old }
    ensures tag { tag.new ≡ seal_writes_tag key.now iv.now ad.now text.now out.old tag.old }
{
    if tag.len() < TAG_BYTES {
        return Err(short_tag(key, iv, ad, text));
    }
    let t = page::seal(key, iv, ad, text, out)?;
    bytes_c::put_block(tag, 0, t);
    Ok(())
}

// Opens a page, if its tag is the right one, and writes no byte of the text before that is known. Refused: 1, 2, 10, 3, 4, 5.
pub fn tulvekas_open(
    key: &[u8],
    iv: &[u8],
    ad: &[u8],
    cipher: &[u8],
    tag: &[u8],
    out: &mut [u8],
) -> Result<(), Refusal>
    ensures answer { answer_number result ≡ open_number key.now iv.now ad.now cipher.now tag.now out.old }
    ensures out { out.new ≡ open_out key.now iv.now ad.now cipher.now tag.now out.old }
{
    page::open(key, iv, ad, cipher, tag, out)
}

// ---- page files: document 02's stay books

// Seals page `page` of a stay into its place of the file. Refused: 1, 2 for a stay that is not 12 bytes, 3 for a text over 474, 12, 13.
pub fn tulvekas_file_seal(
    key: &[u8],
    stay: &[u8],
    page: u32,
    day: u64,
    text: &[u8],
    place: u64,
    file: &mut [u8],
) -> Result<(), Refusal>
    ensures answer { answer_number result ≡ Files.seal_number key.now stay.now day text.now file.old place }
    ensures file { file.new ≡ Files.seal_file key.now stay.now page day text.now file.old place }
{
    page_file::seal(key, stay, page, day, text, file, place)
}

// Opens page `page` of a stay, and writes no byte before nothing is refused: its text, and how many bytes that has, 8 bytes low byte first. Refused: 1, 2
// for a stay that is not 12 bytes, 13, 14, 4, 5, 13 for padding that is not zero, 4 for the length's buffer.
pub fn tulvekas_file_open(
    key: &[u8],
    stay: &[u8],
    page: u32,
    file: &[u8],
    out: &mut [u8],
    length: &mut [u8],
) -> Result<(), Refusal>
    ensures answer { answer_number result ≡ file_open_answer key.now stay.now page file.now out.old length.old }
    ensures out { out.new ≡ file_open_writes key.now stay.now page file.now out.old length.old }
    ensures length { length.new ≡ file_open_length key.now stay.now page file.now out.old length.old }
{
    let c = page_file::read(key, stay, page, file, out.len())?;
    if length.len() < LENGTH_BYTES {
        return Err(Refusal::ShortOutput);
    }
    let k = c.length;
    let text = c.text;
    fields::copy(&text, k, out);
    fields::put(length, 0, LENGTH_BYTES, k as u64);
    Ok(())
}

// ---- key stores: document 02's shelves

// Stores a stay's key, sealed under the season's key, in the first empty block of the store. Refused: 1 for either key, 2, 8, 16 for a number that is there, 4
// where no block is empty.
pub fn tulvekas_keys_store(
    key: &[u8],
    iv: &[u8],
    stay_key: &[u8],
    store: &mut [u8],
) -> Result<(), Refusal>
    ensures answer { answer_number result ≡ store_number key.now iv.now stay_key.now store.old }
    ensures store { store.new ≡ store_after key.now iv.now stay_key.now store.old }
{
    key_store::store(key, iv, stay_key, store)
}

// Fetches a stay's key, 32 bytes. Refused: 1, 2, 8, 17 for a number that is absent or erased, 5, 4.
pub fn tulvekas_keys_fetch(
    key: &[u8],
    iv: &[u8],
    store: &[u8],
    out: &mut [u8],
) -> Result<(), Refusal>
    ensures answer { answer_number result ≡ keys_fetch_answer key.now iv.now store.now out.old }
    ensures out { out.new ≡ keys_fetch_writes key.now iv.now store.now out.old }
{
    let k = key_store::fetch(key, iv, store)?;
    if out.len() < KEY_BYTES {
        return Err(Refusal::ShortOutput);
    }
    fields::copy(&k, KEY_BYTES, out);
    Ok(())
}

// Erases a stay's key; it takes none. Refused: 2, 8, 17 for a number that is absent or erased.
pub fn tulvekas_keys_erase(iv: &[u8], store: &mut [u8]) -> Result<(), Refusal>
    ensures answer { answer_number result ≡ erase_number iv.now store.old }
    ensures store { store.new ≡ erase_after iv.now store.old }
{
    key_store::erase(iv, store)
}

// ---- sealing by pieces

// Begins a session, in the front 240 bytes of the buffer. Refused: 1, 2, 4.
pub fn tulvekas_begin(key: &[u8], iv: &[u8], session: &mut [u8]) -> Result<(), Refusal>
    ensures answer { answer_number result ≡ begin_answer key.now iv.now session.old }
    ensures session { BeginLeaves key.now iv.now session.old session.new }
{
    start::lengths(key, iv)?;
    if session.len() < bytes_c::SESSION_BYTES {
        return Err(Refusal::ShortOutput);
    }
    let s = session::begin(key, iv)?;
    bytes_c::store_session(session, s);
    Ok(())
}

// Takes a piece of associated data. Refused: 8 for a session that is not 240 bytes, 7, 3.
pub fn tulvekas_data(session: &mut [u8], piece: &[u8]) -> Result<(), Refusal>
    ensures answer { answer_number result ≡ data_answer session.old piece.now }
    ensures session { DataLeaves session.old piece.now session.new }
{
    if !bytes_c::is_session(session) {
        return Err(Refusal::BadBlock);
    }
    let mut s = bytes_c::load_session(session);
    session::data(&mut s, piece)?;
    bytes_c::store_session(session, s);
    Ok(())
}

// Takes a piece of text and writes as many bytes of ciphertext. Refused: 8 for a session that is not 240 bytes, 7, 3, 9, 4.
pub fn tulvekas_text(session: &mut [u8], piece: &[u8], out: &mut [u8]) -> Result<(), Refusal>
    ensures answer { answer_number result ≡ text_answer session.old piece.now out.old }
    ensures session { TextLeaves session.old piece.now out.old session.new }
    ensures out { out.new ≡ text_writes session.old piece.now out.old }
{
    if !bytes_c::is_session(session) {
        return Err(Refusal::BadBlock);
    }
    let mut s = bytes_c::load_session(session);
    session::text(&mut s, piece, out)?;
    bytes_c::store_session(session, s);
    Ok(())
}

// Ends a session and gives its tag and its IV. Refused: 8 for a session that is not 240 bytes, 7, 4 for either buffer.
pub fn tulvekas_finish(session: &mut [u8], tag: &mut [u8], iv: &mut [u8]) -> Result<(), Refusal>
    ensures answer { answer_number result ≡ finish_answer session.old tag.old iv.old }
    ensures session { FinishLeaves session.old tag.old iv.old session.new }
    ensures tag { tag.new ≡ finish_writes_tag session.old tag.old iv.old }
    ensures iv { iv.new ≡ finish_writes_iv session.old tag.old iv.old }
{
    if !bytes_c::is_session(session) {
        return Err(Refusal::BadBlock);
    }
    let mut s = bytes_c::load_session(session);
    if s.phase >= 2 {
        return Err(Refusal::OutOfPhase);
    }
    if tag.len() < TAG_BYTES {
        return Err(Refusal::ShortOutput);
    }
    if iv.len() < IV_BYTES {
        return Err(Refusal::ShortOutput);
    }
    let f = session::finish(&mut s)?;
    let t = f.tag;
    let v = f.iv;
    bytes_c::store_session(session, s);
    bytes_c::put_block(tag, 0, t);
    bytes_c::put_block(iv, 0, v);
    Ok(())
}

// ---- suspend and resume: document 01's park and take up

// Writes a session's block of 512 bytes; the session is only read. Refused: 8 for a session that is not 240 bytes, 7, 4.
pub fn tulvekas_suspend(session: &[u8], block: &mut [u8]) -> Result<(), Refusal>
    ensures answer { answer_number result ≡ suspend_answer session.now block.old }
    ensures block { block.new ≡ suspend_writes session.now block.old }
{
    if !bytes_c::is_session(session) {
        return Err(Refusal::BadBlock);
    }
    suspend::suspend(&bytes_c::load_session(session), block)
}

// Gives the session that a block was written for, and its IV. Refused: 1, 8, 6, 4 for either buffer.
pub fn tulvekas_resume(
    key: &[u8],
    block: &[u8],
    session: &mut [u8],
    iv: &mut [u8],
) -> Result<(), Refusal>
    ensures answer { answer_number result ≡ resume_answer key.now block.now session.old iv.old }
    ensures session { ResumeLeaves key.now block.now session.old iv.old session.new }
    ensures iv { iv.new ≡ resume_writes key.now block.now session.old iv.old }
{
    let s = suspend::resume(key, block)?;
    if session.len() < bytes_c::SESSION_BYTES {
        return Err(Refusal::ShortOutput);
    }
    if iv.len() < IV_BYTES {
        return Err(Refusal::ShortOutput);
    }
    let v = s.iv;
    bytes_c::store_session(session, s);
    bytes_c::put_block(iv, 0, v);
    Ok(())
}

// ---- the cipher

// As many whole blocks as fit, from registers on.
fn fill(s: Registers, rounds: &[u32; 256], out: &mut [u8])
    requires { Holds wide rounds.now }
    ensures { out.new ≡ blocks forward (fitting out.old) (registers_of s) ++ drop (16 * fitting out.old) out.old }
{
    lanes::run_forward(s, rounds, out, out.len() / 16);
}

// Fills a buffer with keystream from block 0 on, as many whole blocks as fit. The mode is 0 for plain, else sealed. Refused: 1, 2, 9.
pub fn tulvekas_keystream(key: &[u8], iv: &[u8], sealed: u64, out: &mut [u8]) -> Result<(), Refusal>
    ensures answer { answer_number result ≡ keystream_answer key.now iv.now out.old }
    ensures out { out.new ≡ keystream_writes key.now iv.now sealed out.old }
{
    start::lengths(key, iv)?;
    let blocks = out.len() / 16;
    if blocks as u64 > scope::MOST_BLOCKS {
        return Err(Refusal::CountTooHigh);
    }
    let rounds = wide_round::table();
    let s = start::start_with(key, iv, bytes_c::mode_named(sealed), &rounds)?;
    fill(s.registers, &rounds, out);
    Ok(())
}

// Starts: the state, its count 0, in the front 120 bytes of the buffer. The mode is 0 for plain, else sealed. Refused: 1, 2, 4.
pub fn tulvekas_start(key: &[u8], iv: &[u8], sealed: u64, state: &mut [u8]) -> Result<(), Refusal>
    ensures answer { answer_number result ≡ start_answer key.now iv.now state.old }
    ensures state { StartLeaves key.now iv.now sealed state.old state.new }
{
    start::lengths(key, iv)?;
    if state.len() < bytes_c::STATE_BYTES {
        return Err(Refusal::ShortOutput);
    }
    let s = start::start(key, iv, bytes_c::mode_named(sealed))?;
    bytes_c::store_state(state, s);
    Ok(())
}

// Runs a state n blocks on, or back unless `back` is 0: their blocks go to the front of the output in the order made. Refused: 8 for a state that is not
// 120 bytes, 9, 15, 4.
pub fn tulvekas_run(state: &mut [u8], n: u64, back: u64, out: &mut [u8]) -> Result<(), Refusal>
    ensures answer { answer_number result ≡ run_answer state.old n back out.old }
    ensures state { RunLeaves state.old n back out.old state.new }
    ensures out { out.new ≡ run_writes state.old n back out.old }
{
    if state.len() != bytes_c::STATE_BYTES {
        return Err(Refusal::BadBlock);
    }
    let s = bytes_c::get_state(state, 0);
    let u = cipher::run_core(s, out, n as usize, back != 0)?;
    bytes_c::store_state(state, u);
    Ok(())
}

// The state of a suspended block, with its count, in the front 120 bytes of the buffer. Refused: 8 for a block that breaks a layout rule, 4.
pub fn tulvekas_state_of(block: &[u8], state: &mut [u8]) -> Result<(), Refusal>
    ensures answer { answer_number result ≡ state_of_answer block.now state.old }
    ensures state { StateOfLeaves block.now state.old state.new }
{
    if !layout::well_laid(block) {
        return Err(Refusal::BadBlock);
    }
    if state.len() < bytes_c::STATE_BYTES {
        return Err(Refusal::ShortOutput);
    }
    let k = suspended::read(block);
    bytes_c::store_state(state, suspend::state_of(k));
    Ok(())
}

// Document 01's trace, from a state at its own count: the IV, and one byte that becomes 0 for plain mode and 1 for sealed. Refused: 1, 8 for a state that
// is not 120 bytes, 9, 6, 4 for either buffer.
pub fn tulvekas_trace(
    state: &[u8],
    key: &[u8],
    iv: &mut [u8],
    sealed: &mut [u8],
) -> Result<(), Refusal>
    ensures answer { answer_number result ≡ trace_answer (trace_of_bytes state.now key.now) iv.old sealed.old }
    ensures iv { iv.new ≡ trace_iv (trace_of_bytes state.now key.now) iv.old sealed.old }
    ensures sealed { sealed.new ≡ trace_sealed (trace_of_bytes state.now key.now) iv.old sealed.old }
{
    if key.len() != KEY_BYTES {
        return Err(Refusal::KeyLength);
    }
    if state.len() != bytes_c::STATE_BYTES {
        return Err(Refusal::BadBlock);
    }
    let o = start::trace(bytes_c::get_state(state, 0), key)?;
    if iv.len() < IV_BYTES {
        return Err(Refusal::ShortOutput);
    }
    if sealed.len() < 1 {
        return Err(Refusal::ShortOutput);
    }
    let v = suspend::iv_bytes(o.lo, o.hi);
    bytes_c::put_block(iv, 0, v);
    sealed[0] = bytes_c::mode_number(o.mode);
    Ok(())
}

// ---- the search for a count that is only roughly known

// The least count from the lowest to the highest at which an IV and mode lead to a dump of 112 bytes: the count, 8 bytes low byte first, the IV, one byte that
// becomes 0 for plain mode and 1 for sealed, and the steps walked, 8 bytes low byte first. Refused: 1, 8 for a dump that is not 112 bytes, 9, 18, 6, which
// writes the steps where they have room, 4 for any of the four buffers.
pub fn tulvekas_search(
    dump: &[u8],
    key: &[u8],
    lowest: u64,
    highest: u64,
    count: &mut [u8],
    iv: &mut [u8],
    sealed: &mut [u8],
    steps: &mut [u8],
) -> Result<(), Refusal>
    ensures answer { answer_number result ≡ search_answer (Counts.search dump.now key.now lowest highest) count.old iv.old sealed.old steps.old }
    ensures count { count.new ≡ search_count (Counts.search dump.now key.now lowest highest) count.old iv.old sealed.old steps.old }
    ensures iv { iv.new ≡ search_iv (Counts.search dump.now key.now lowest highest) count.old iv.old sealed.old steps.old }
    ensures sealed { sealed.new ≡ search_sealed (Counts.search dump.now key.now lowest highest) count.old iv.old sealed.old steps.old }
    ensures steps { steps.new ≡ search_steps (Counts.search dump.now key.now lowest highest) count.old iv.old sealed.old steps.old }
{
    match search::search(dump, key, lowest, highest) {
        Err(r) => {
            if r.refusal == Refusal::NoOrigin {
                let _ = bytes_c::reply(steps, STEPS_BYTES, r.steps);
            }
            Err(r.refusal)
        }
        Ok(l) => {
            if count.len() < COUNT_BYTES {
                return Err(Refusal::ShortOutput);
            }
            if iv.len() < IV_BYTES {
                return Err(Refusal::ShortOutput);
            }
            if sealed.len() < 1 {
                return Err(Refusal::ShortOutput);
            }
            if steps.len() < STEPS_BYTES {
                return Err(Refusal::ShortOutput);
            }
            let v = suspend::iv_bytes(l.lo, l.hi);
            fields::put(count, 0, COUNT_BYTES, l.count);
            bytes_c::put_block(iv, 0, v);
            sealed[0] = bytes_c::mode_number(l.mode);
            fields::put(steps, 0, STEPS_BYTES, l.steps);
            Ok(())
        }
    }
}

// ---- the scheduler: document 02's desk

// Makes a scheduler with nobody in it, 8,208 bytes. Refused: 4.
pub fn tulvekas_schedule_empty(scheduler: &mut [u8]) -> Result<(), Refusal>
    ensures answer { answer_number result ≡ empty_answer scheduler.old }
    ensures scheduler { scheduler.new ≡ empty_writes scheduler.old }
{
    scheduler::empty(scheduler)
}

// A stay joins, with as many bytes to seal as `length` says. Refused: 8 for a scheduler that is not 8,208 bytes, 1, 2, 3 for a length that is not 1 to 1,048,576, 19 where 32
// stays are there, 16 where that IV is.
pub fn tulvekas_schedule_join(
    scheduler: &mut [u8],
    key: &[u8],
    iv: &[u8],
    length: u64,
) -> Result<(), Refusal>
    ensures answer { answer_number result ≡ join_answer scheduler.old key.now iv.now length }
    ensures scheduler { JoinLeaves scheduler.old key.now iv.now length scheduler.new }
{
    scheduler::join(scheduler, key, iv, length)
}

// Says who is next: one byte that is 1 where anybody is there, and then the IV and the length of the piece that is due, 8 bytes low byte first. Refused: 8, 4 for any of the three
// buffers.
pub fn tulvekas_schedule_next(
    scheduler: &[u8],
    found: &mut [u8],
    iv: &mut [u8],
    due: &mut [u8],
) -> Result<(), Refusal>
    ensures answer { answer_number result ≡ asked_answer scheduler.now found.old iv.old due.old }
    ensures found { found.new ≡ asked_found scheduler.now found.old iv.old due.old }
    ensures iv { iv.new ≡ asked_iv scheduler.now found.old iv.old due.old }
    ensures due { due.new ≡ asked_due scheduler.now found.old iv.old due.old }
{
    scheduler_c::next(scheduler, found, iv, due)
}

// Gives a turn: seals the piece of the stay that comes next, and writes the IV of that stay, the number of the turn, 8 bytes low byte first, one byte that is 1 where the stay has
// finished and left, and its tag then. Where nobody is there, number and flag are 0, and nothing else is written. Refused: 8; where somebody is there 9 for a turn past 2^62, 3 for a
// piece of another length than the one due, 4 (before it 7, 3 or 9 of a session that a caller made up); last 4 for any of the four other buffers.
pub fn tulvekas_schedule_turn(
    scheduler: &mut [u8],
    piece: &[u8],
    out: &mut [u8],
    iv: &mut [u8],
    turn: &mut [u8],
    done: &mut [u8],
    tag: &mut [u8],
) -> Result<(), Refusal>
    ensures answer { answer_number result ≡ turned_answer scheduler.old piece.now out.old (record { iv = iv.old; turn = turn.old; done = done.old; tag = tag.old }) }
    ensures scheduler { TurnedLeaves scheduler.old piece.now out.old (record { iv = iv.old; turn = turn.old; done = done.old; tag = tag.old }) scheduler.new }
    ensures out { out.new ≡ turned_out scheduler.old piece.now out.old (record { iv = iv.old; turn = turn.old; done = done.old; tag = tag.old }) }
    ensures iv { iv.new ≡ turned_iv scheduler.old piece.now out.old (record { iv = iv.old; turn = turn.old; done = done.old; tag = tag.old }) }
    ensures turn { turn.new ≡ turned_turn scheduler.old piece.now out.old (record { iv = iv.old; turn = turn.old; done = done.old; tag = tag.old }) }
    ensures done { done.new ≡ turned_done scheduler.old piece.now out.old (record { iv = iv.old; turn = turn.old; done = done.old; tag = tag.old }) }
    ensures tag { tag.new ≡ turned_tag scheduler.old piece.now out.old (record { iv = iv.old; turn = turn.old; done = done.old; tag = tag.old }) }
{
    scheduler_c::turn(scheduler, piece, out, iv, turn, done, tag)
}

// ---- dates and keeping

// The date of a day, in four bytes: the year, low byte first, the month, the day. Days count from 1 January 2000 as 0. Refused: 12 for a day after 73,048, 4.
pub fn tulvekas_date(day: u64, date: &mut [u8]) -> Result<(), Refusal>
    ensures answer { answer_number result ≡ reply_answer (date_reply (to_date day)) date.old }
    ensures date { date.new ≡ reply_writes (date_reply (to_date day)) date.old }
{
    bytes_c::reply_date(calendar::to_date(day), date)?
}

// The day of a date, in 8 bytes, low byte first. Refused: 12 for a date that the calendar lacks or outside the years 2000 to 2199, 4.
pub fn tulvekas_day(year: u64, month: u64, day: u64, number: &mut [u8]) -> Result<(), Refusal>
    ensures answer { answer_number result ≡ reply_answer (day_reply (to_day (Calendar.date year month day))) number.old }
    ensures number { number.new ≡ reply_writes (day_reply (to_day (Calendar.date year month day))) number.old }
{
    let n = calendar::to_day(year, month, day)?;
    bytes_c::reply(number, bytes_c::DAY_BYTES, n)
}

// Whether a page is kept today, by the day of its departure: one byte that becomes 1 if it is, else 0. Refused: 12, 4.
pub fn tulvekas_kept(today: u64, departure: u64, kept: &mut [u8]) -> Result<(), Refusal>
    ensures answer { answer_number result ≡ reply_answer (kept_reply (keeping today departure)) kept.old }
    ensures kept { kept.new ≡ reply_writes (kept_reply (keeping today departure)) kept.old }
{
    let holds = retention::kept(today, departure)?;
    bytes_c::reply(kept, 1, holds as u64)
}

// The last date on which a page is kept, by the day of its departure, in four bytes as tulvekas_date writes them. Refused: 12, 4.
pub fn tulvekas_kept_until(departure: u64, date: &mut [u8]) -> Result<(), Refusal>
    ensures answer { answer_number result ≡ reply_answer (date_reply (kept_until departure)) date.old }
    ensures date { date.new ≡ reply_writes (date_reply (kept_until departure)) date.old }
{
    bytes_c::reply_date(retention::kept_until(departure), date)?
}
