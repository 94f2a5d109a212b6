// Whole pages: seal and open.
#![tactic(auto)]

ghost use Rattle.std.specs.Prelude.{◌≡◌, true, [], ◌≤◌, length};
ghost use Rattle.scope.specs.Limits.{most_data};
ghost use Rattle.scope.specs.Machine.{answer_number};
ghost use Rattle.words.specs.Machine.{bytes_of};
ghost use Rattle.aes.specs.Tables.{Holds};
ghost use Rattle.wide_round.specs.Wide.{wide};
ghost use Rattle.ghash.specs.Machine.{bytes_of_element, Table};
ghost use Rattle.session.specs.Machine.{session_of};
ghost use Rattle.page.specs.Calls.{over_limit, seal_number, seal_out, seal_tag, open_number, open_out};
ghost use Rattle.page.specs.Reached.{session_for};
ghost use Rattle.page.specs.Inner.{before_tag, tag_over};
ghost use Rattle.page.specs.Machine.{tag_of};

use scope::Refusal;
use session::Session;
use words::Block;

// Whether data or text is over its limit.
pub fn over_limit(ad: &[u8], text: &[u8]) -> bool
    ensures { result ≡ over_limit ad.now text.now }
{
    if ad.len() as u64 > scope::MOST_DATA {
        return true;
    }
    text.len() as u64 > scope::MOST_TEXT
}

// The session of a page with its data closed and no text yet, and the table of its H, which serves all of the page.
fn session_of(
    key: &[u8],
    iv: &[u8],
    ad: &[u8],
    rounds: &[u32; 256],
    table: &mut [u64; 1024],
) -> Session
    requires { (length key.now ≡ 32) × (length iv.now ≡ 16) × (length ad.now ≤ most_data) × Holds wide rounds.now × (length table.old ≡ 1024) }
    ensures session { session_of result ≡ session_for key.now iv.now ad.now [] true }
    ensures table { Table (bytes_of_element result.h) table.new }
{
    let begun = session::lent::begin_with(key, iv, rounds).unwrap();
    let h = begun.h;
    ghash::fill(table, h);
    session::lent::close_with(session::lent::data_with(begun, ad, table), table)
}

// Seals a page: the ciphertext goes to the front of the output, as many bytes as the text has, and the tag comes back. Refused: 1 for the key's
// length, 2 for the IV's, 3 for data over 65,535 bytes or text over 1,048,576, 4 for an output shorter than the text.
pub fn seal(
    key: &[u8],
    iv: &[u8],
    ad: &[u8],
    text: &[u8],
    out: &mut [u8],
) -> Result<[u8; 16], Refusal>
    ensures answer { answer_number result ≡ seal_number key.now iv.now ad.now text.now out.old }
    ensures tag { tag_of result ≡ seal_tag key.now iv.now ad.now text.now out.old }
    ensures out { out.new ≡ seal_out key.now iv.now ad.now text.now out.old }
{
    start::lengths(key, iv)?;
    if over_limit(ad, text) {
        return Err(Refusal::TooLong);
    }
    if out.len() < text.len() {
        return Err(Refusal::ShortOutput);
    }
    let rounds = wide_round::table();
    let mut table = [0u64; 1024];
    let s = session_of(key, iv, ad, &rounds, &mut table);
    let state = s.state;
    let registers = state.registers;
    let d = s.held;
    let y = pass::sealed_text(registers, d.acc, s.h, text, out, &rounds, &table);
    let t = session::lent::tag_from(s, text.len() as u64, y, &table);
    Ok(words::to_bytes(t))
}

// The tag of a session whose data is closed, over a ciphertext that is read and not written.
fn tag_over(s: Session, cipher: &[u8], table: &[u64; 1024]) -> Block
    requires { Table (bytes_of_element s.h) table.now }
    ensures { bytes_of result ≡ tag_over (session_of s) cipher.now }
{
    let h = s.h;
    let d = s.held;
    let n = cipher.len() as u64;
    let e = digest::absorb_with(h, d, 0, cipher, table);
    let y = digest::settle_with(h, e, n, table);
    session::lent::tag_from(s, n, y, table)
}

// Whether an open is accepted before its tag is compared. Refused: 1 for the key's length, 2 for the IV's, 10 for the tag's, 3 and 4.
fn before_tag(
    key: &[u8],
    iv: &[u8],
    ad: &[u8],
    cipher: &[u8],
    tag: &[u8],
    out: &[u8],
) -> Result<(), Refusal>
    ensures { answer_number result ≡ before_tag key.now iv.now ad.now cipher.now tag.now out.now 0 }
{
    start::lengths(key, iv)?;
    if tag.len() != 16 {
        return Err(Refusal::TagLength);
    }
    if over_limit(ad, cipher) {
        return Err(Refusal::TooLong);
    }
    if out.len() < cipher.len() {
        return Err(Refusal::ShortOutput);
    }
    Ok(())
}

// Opens a page: the text goes to the front of the output, as many bytes as the ciphertext has, if the tag is the one that the data and the
// ciphertext have, which is known before a byte is written. Refused: 1 for the key's length, 2 for the IV's, 10 for the tag's, 3 for data over
// 65,535 bytes or a ciphertext over 1,048,576, 4 for an output shorter than the ciphertext, 5 for any other tag.
pub fn open(
    key: &[u8],
    iv: &[u8],
    ad: &[u8],
    cipher: &[u8],
    tag: &[u8],
    out: &mut [u8],
) -> Result<(), Refusal>
    ensures answer { answer_number result ≡ open_number key.now iv.now ad.now cipher.now tag.now out.old }
    ensures out { out.new ≡ open_out key.now iv.now ad.now cipher.now tag.now out.old }
{
    before_tag(key, iv, ad, cipher, tag, out)?;
    let rounds = wide_round::table();
    let mut table = [0u64; 1024];
    let s = session_of(key, iv, ad, &rounds, &mut table);
    let given = words::load(tag, 0);
    let expected = tag_over(s, cipher, &table);
    if !words::same(given, expected) {
        return Err(Refusal::BadTag);
    }
    session::lent::apply_keystream(s, cipher, out, &rounds);
    Ok(())
}
