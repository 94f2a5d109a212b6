// A key store: stays' keys in blocks of 512 bytes, each sealed under the season's key; stored, fetched and erased by the stay number. Document 02's shelf.
#![tactic(auto)]

ghost use Rattle.std.specs.Prelude.{◌≡◌, Bool, true, ◌+◌, ◌*◌, ◌≤◌, length};
ghost use Rattle.scope.specs.Machine.{answer_number};
ghost use Rattle.words.specs.Bytes.{part};
ghost use Rattle.words.specs.Machine.{bytes_of};
ghost use Rattle.fields.specs.Blocks.{cut, blocks, whole, replaced};
ghost use Rattle.key_store.specs.Layout;
ghost use Rattle.key_store.specs.Layout.{iv_of, well_laid, held_block, erased_block};
ghost use Rattle.key_store.specs.Store.{present, any};
ghost use Rattle.key_store.specs.Calls.{store_number, store_after, fetch_number, fetch_key, erase_number, erase_after};
ghost use Rattle.key_store.specs.Machine.{mark_number, key_of};
ghost use Rattle.key_store.specs.Inner.{Reads, repeats, Surveyed, Opens};

use scope::Refusal;
use words::Block;

// What the mark of a block says.
#[derive(Clone, Copy, PartialEq, Eq)]
enum Mark {
    Empty = 0,
    Held = 1,
    Erased = 2,
}

impl Mark {
    fn number(self) -> u8
        ensures { result ≡ mark_number self }
    {
        self as u8
    }

    // The mark that a byte is, if it is one.
    fn read(b: u8) -> Option<Mark>
        ensures { Reads b result }
    {
        match b {
            0 => Some(Mark::Empty),
            1 => Some(Mark::Held),
            2 => Some(Mark::Erased),
            _ => None,
        }
    }
}

// Whether a block obeys every layout rule. All are tested once there are 512 bytes to test them on.
fn well_laid(block: &[u8]) -> bool
    ensures { result ≡ well_laid block.now }
{
    if block.len() != 512 {
        return false;
    }
    let mark = Mark::read(block[0]);
    let all = fields::all_zero(block, 0, 512);
    let key_and_tag = fields::all_zero(block, 32, 48);
    let zero1 = fields::all_zero(block, 1, 15);
    let zero80 = fields::all_zero(block, 80, 428);
    let sum = fields::check_holds(block);
    let empty_zero = (mark != Some(Mark::Empty)) | all;
    let erased_zero = (mark != Some(Mark::Erased)) | key_and_tag;
    mark.is_some() & empty_zero & erased_zero & zero1 & zero80 & sum
}

// A block: zeros, then the fields, then the check.
fn block_of(mark: Mark, iv: Block, sealed: [u8; 32], tag: Block) -> [u8; 512]
    ensures { result ≡ Layout.block_of (record { mark = mark_number mark; iv = bytes_of iv; sealed = sealed; tag = bytes_of tag }) }
{
    let mut block = [0u8; 512];
    block[0] = mark.number();
    words::store(&mut block, 16, iv);
    words::store(&mut block, 32, words::load(&sealed, 0));
    words::store(&mut block, 48, words::load(&sealed, 16));
    words::store(&mut block, 64, tag);
    fields::put_check(&mut block);
    block
}

// A stay's key, sealed under the season's key with the stay number as IV and no data.
fn held_block(key: &[u8], iv: &[u8], stay_key: &[u8]) -> [u8; 512]
    requires { (length key.now ≡ 32) × (length iv.now ≡ 16) × (length stay_key.now ≡ 32) }
    ensures { result ≡ held_block key.now iv.now stay_key.now }
{
    let mut sealed = [0u8; 32];
    // Every length is in order, so that nothing is refused.
    let tag = page::seal(key, iv, &iv[..0], stay_key, &mut sealed).unwrap();
    block_of(Mark::Held, words::load(iv, 0), sealed, words::load(&tag, 0))
}

// Erases what a block holds: mark 2, zeros for the sealed key and its tag, and the check made anew. The number stays.
fn erase_block(block: &mut [u8])
    requires { (length block.old ≡ 512) × (well_laid block.old ≡ true) }
    ensures { block.new ≡ erased_block (iv_of block.old) }
{
    let none = words::zero();
    block[0] = Mark::Erased as u8;
    words::store(block, 32, none);
    words::store(block, 48, none);
    words::store(block, 64, none);
    fields::put_check(block);
}

// A block in its place. Every other byte stays.
fn put_block(store: &mut [u8], i: usize, block: [u8; 512])
    requires { 512 * i + 512 ≤ length store.old }
    ensures { store.new ≡ replaced i block store.old }
{
    fields::copy(&block, 512, &mut store[512 * i..]);
}

// Whether one of the first n blocks has a number, with mark 1 or 2.
fn present(store: &[u8], n: usize, iv: Block) -> bool
    requires { 512 * n ≤ length store.now }
    ensures { result ≡ any (present (bytes_of iv)) (cut n store.now) }
{
    let mut found = false;
    for i in 0..n {
        let at = 512 * i;
        let same = words::same(words::load(store, at + 16), iv);
        found = found | ((Mark::read(store[at]) != Some(Mark::Empty)) & same);
    }
    found
}

// Whether the number of block i, if it is not empty, stands before it.
fn again(store: &[u8], i: usize) -> bool
    requires { 512 * i + 512 ≤ length store.now }
    ensures { result ≡ repeats (part (512 * i) 512 store.now) (cut i store.now) }
{
    if Mark::read(store[512 * i]) == Some(Mark::Empty) {
        return false;
    }
    present(store, i, words::load(store, 512 * i + 16))
}

// What the blocks of a store say, one after the other: whether all obey the rules and no number stands twice; and the places of the first one that is empty,
// of the first that has a number, and of the first that holds its key. `sound` is what all looks together say, and no answer.
#[derive(Clone, Copy)]
struct Seen {
    sound: bool,
    empty: Option<usize>,
    present: Option<usize>,
    holding: Option<usize>,
}

// One block more, at place i.
fn look(s: Seen, store: &[u8], i: usize, iv: Block) -> Seen
    requires { 512 * i + 512 ≤ length store.now }
    ensures { (w : Bool) → Surveyed (bytes_of iv) w (cut i store.now) s → Surveyed (bytes_of iv) w (cut (i + 1) store.now) result }
{
    let at = 512 * i;
    let mark = Mark::read(store[at]);
    let asked = words::same(words::load(store, at + 16), iv);
    let laid = well_laid(&store[at..at + 512]);
    let twice = again(store, i);
    let empty = (mark == Some(Mark::Empty)).then_some(i);
    let present = ((mark != Some(Mark::Empty)) & asked).then_some(i);
    let holding = ((mark == Some(Mark::Held)) & asked).then_some(i);
    Seen {
        sound: s.sound & laid & !twice,
        empty: s.empty.or(empty),
        present: s.present.or(present),
        holding: s.holding.or(holding),
    }
}

// All blocks (with the page file's survey this shares the loop alone), each by one look, which compares its number with those before it. Where there are not whole ones only, the store is not sound.
fn survey(store: &[u8], iv: &[u8]) -> Seen
    requires { length iv.now ≡ 16 }
    ensures { Surveyed iv.now (whole store.now) (blocks store.now) result }
{
    let number = words::load(iv, 0);
    let mut s = Seen {
        sound: store.len() % 512 == 0,
        empty: None,
        present: None,
        holding: None,
    };
    for i in 0..store.len() / 512 {
        s = look(s, store, i, number);
    }
    s
}

// Stores a stay's key in the first empty block, sealed under the season's key. Every other byte stays. Document 02's word is shelve. Refused: 1 for the length of
// either key, 2 for the number's, 8 for a store that breaks a layout rule or has a number twice, 16 for a number that it has, held or erased, 4 where no block is
// empty.
pub fn store(key: &[u8], iv: &[u8], stay_key: &[u8], store: &mut [u8]) -> Result<(), Refusal>
    ensures answer { answer_number result ≡ store_number key.now iv.now stay_key.now store.old }
    ensures store { store.new ≡ store_after key.now iv.now stay_key.now store.old }
{
    if key.len() != 32 {
        return Err(Refusal::KeyLength);
    }
    if stay_key.len() != 32 {
        return Err(Refusal::KeyLength);
    }
    if iv.len() != 16 {
        return Err(Refusal::IvLength);
    }
    let s = survey(store, iv);
    if !s.sound {
        return Err(Refusal::BadBlock);
    }
    if s.present.is_some() {
        return Err(Refusal::NumberTaken);
    }
    let i = s.empty.ok_or(Refusal::ShortOutput)?;
    put_block(store, i, held_block(key, iv, stay_key));
    Ok(())
}

// The key that a block holds. Refused: 5.
fn open_block(key: &[u8], iv: &[u8], block: &[u8]) -> Result<[u8; 32], Refusal>
    requires { (length key.now ≡ 32) × (length iv.now ≡ 16) × (length block.now ≡ 512) }
    ensures { Opens key.now iv.now block.now result }
{
    let mut stay_key = [0u8; 32];
    page::open(
        key,
        iv,
        &iv[..0],
        &block[32..64],
        &block[64..80],
        &mut stay_key,
    )?;
    Ok(stay_key)
}

// Fetches a stay's key. Refused: 1 for the key's length, 2 for the number's, 8 for a store that breaks a layout rule or has a number twice, 17 for a number that
// is absent or erased, 5 for a tag that is not the sealed key's.
pub fn fetch(key: &[u8], iv: &[u8], store: &[u8]) -> Result<[u8; 32], Refusal>
    ensures answer { answer_number result ≡ fetch_number key.now iv.now store.now }
    ensures key { key_of result ≡ fetch_key key.now iv.now store.now }
{
    if key.len() != 32 {
        return Err(Refusal::KeyLength);
    }
    if iv.len() != 16 {
        return Err(Refusal::IvLength);
    }
    let s = survey(store, iv);
    if !s.sound {
        return Err(Refusal::BadBlock);
    }
    let at = 512 * s.holding.ok_or(Refusal::NoKey)?;
    open_block(key, iv, &store[at..at + 512])
}

// Erases a stay's key: mark 2, zeros for the sealed key and its tag, and the check made anew. The number and every other block stay. It takes no key. Refused: 2
// for the number's length, 8 for a store that breaks a layout rule or has a number twice, 17 for a number that is absent or erased.
pub fn erase(iv: &[u8], store: &mut [u8]) -> Result<(), Refusal>
    ensures answer { answer_number result ≡ erase_number iv.now store.old }
    ensures store { store.new ≡ erase_after iv.now store.old }
{
    if iv.len() != 16 {
        return Err(Refusal::IvLength);
    }
    let s = survey(store, iv);
    if !s.sound {
        return Err(Refusal::BadBlock);
    }
    let at = 512 * s.holding.ok_or(Refusal::NoKey)?;
    erase_block(&mut store[at..at + 512]);
    Ok(())
}
