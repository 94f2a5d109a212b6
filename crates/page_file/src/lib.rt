// A page file: pages of 512 bytes, each sealed in its place, and opened by its stay and number. Document 02's stay book.
#![tactic(auto)]

ghost use Rattle.std.specs.Prelude.{◌≡◌, ◌&&◌, List, [], ◌∷◌, ◌++◌, ℕ, ◌+◌, ◌^◌, ◌≤◌, ◌<◌, eqb, length, drop, unwrap_or};
ghost use Rattle.scope.specs.Machine.{answer_number};
ghost use Rattle.scope.specs.Limits.{most_page_text};
ghost use Rattle.scope.specs.Refusals.{pick};
ghost use Rattle.page_file.specs.Layout;
ghost use Rattle.page_file.specs.Layout.{text_length, padded_text, sealed_page};
ghost use Rattle.page_file.specs.File.{pages};
ghost use Rattle.page_file.specs.Calls.{seal_number, seal_file, page_open_number, page_of, open_number, open_out, open_answer};
ghost use Rattle.page_file.specs.Machine.{opened_of};
ghost use Rattle.page_file.specs.Inner.{Surveyed, Finds};

use scope::Refusal;

// Bytes 0 to 21 of a page.
fn header(stay: &[u8], n: u32, day: u64, len: usize) -> [u8; 22]
    requires { length stay.now ≡ 12 }
    ensures { result ≡ Layout.header stay.now n day len }
{
    let mut head = [0u8; 22];
    fields::copy(stay, 12, &mut head);
    fields::put(&mut head, 12, 4, n as u64);
    fields::put(&mut head, 16, 4, day);
    fields::put(&mut head, 20, 2, len as u64);
    head
}

// A text with zeros behind it.
fn padded(text: &[u8]) -> [u8; 474]
    requires { length text.now ≤ most_page_text }
    ensures { result ≡ padded_text text.now }
{
    let mut whole = [0u8; 474];
    fields::copy(text, text.len(), &mut whole);
    whole
}

// Seals a page into the front 512 bytes of what it is lent. Every other byte stays.
fn seal_page(key: &[u8], stay: &[u8], n: u32, day: u64, text: &[u8], out: &mut [u8])
    requires { (length key.now ≡ 32) × (length stay.now ≡ 12) × (length text.now ≤ most_page_text) × (512 ≤ length out.old) }
    ensures { out.new ≡ sealed_page key.now stay.now n day text.now ++ drop 512 out.old }
{
    let head = header(stay, n, day, text.len());
    let whole = padded(text);
    let h = &head[..];
    fields::copy(h, 22, out);
    // Every length is in order, so that nothing is refused.
    let tag = page::seal(key, &h[..16], h, &whole, &mut out[22..]).unwrap();
    words::store(out, 496, words::load(&tag, 0));
}

// Seals page n of a stay into its place, 512 * place bytes from the file's front on. Every other byte stays. Refused: 1 for the key's length, 2 for
// a stay that is not 12 bytes, 3 for a text over 474 bytes, 12 for a day after 73,048, 13 for a file that is not whole pages or has no such place.
pub fn seal(
    key: &[u8],
    stay: &[u8],
    n: u32,
    day: u64,
    text: &[u8],
    file: &mut [u8],
    place: u64,
) -> Result<(), Refusal>
    ensures answer { answer_number result ≡ seal_number key.now stay.now day text.now file.old place }
    ensures file { file.new ≡ seal_file key.now stay.now n day text.now file.old place }
{
    if key.len() != 32 {
        return Err(Refusal::KeyLength);
    }
    if stay.len() != 12 {
        return Err(Refusal::IvLength);
    }
    if text.len() > scope::MOST_PAGE_TEXT {
        return Err(Refusal::TooLong);
    }
    if day > scope::LAST_DAY {
        return Err(Refusal::DayRange);
    }
    if file.len() % 512 != 0 {
        return Err(Refusal::BadFile);
    }
    // 512 * place is not computed before it is known to be less than the length.
    if place >= (file.len() / 512) as u64 {
        return Err(Refusal::BadFile);
    }
    let i = place as usize;
    seal_page(key, stay, n, day, text, &mut file[512 * i..]);
    Ok(())
}

// What the headers of a file's pages say, page by page in file order: whether all have their length and their day in range; and of a stay, how many pages
// it has, whether they run 0, 1, 2 .., whether they hold the day of the first, that day, and the place of its page n.
// The bools are what all looks together say, and no answers.
#[derive(Clone, Copy)]
struct Seen {
    ranged: bool,
    running: bool,
    dated: bool,
    count: usize,
    day: Option<u64>,
    place: Option<usize>,
}

// One page more that is of the stay, at place i.
fn counted(s: Seen, i: usize, number: u64, day: u64, n: u32) -> Seen
    requires { s.count < 2 ^ 63 }
    ensures { (result.ranged ≡ s.ranged)
        × (result.running ≡ (s.running && eqb number s.count))
        × (result.dated ≡ (s.dated && eqb day (unwrap_or s.day day)))
        × (result.count ≡ s.count + 1)
        × (result.day ≡ Some (unwrap_or s.day day))
        × (result.place ≡ pick (eqb s.count n) (Some i) s.place) }
{
    let first_day = s.day.unwrap_or(day);
    let mut t = s;
    t.running = s.running & (number == s.count as u64);
    t.dated = s.dated & (day == first_day);
    t.count = s.count + 1;
    t.day = Some(first_day);
    if s.count as u64 == n as u64 {
        t.place = Some(i);
    }
    t
}

// One page more, at place i.
fn look(s: Seen, page: &[u8], i: usize, stay: &[u8], n: u32) -> Seen
    requires { (length page.now ≡ 512) × (length stay.now ≡ 12) × (s.count < 2 ^ 63) }
    ensures { (bs : List (List ℕ)) → length bs ≡ i → Surveyed stay.now n bs s → Surveyed stay.now n (bs ++ page.now ∷ []) result }
{
    let day = fields::get(page, 16, 4);
    let len = fields::get(page, 20, 2);
    let mut t = s;
    t.ranged = s.ranged & (len <= scope::MOST_PAGE_TEXT as u64) & (day <= scope::LAST_DAY);
    if fields::same(page, 0, stay) {
        let number = fields::get(page, 12, 4);
        return counted(t, i, number, day, n);
    }
    t
}

// The headers of all pages, each looked at once. With the key store's survey it shares the loop alone.
fn survey(file: &[u8], stay: &[u8], n: u32) -> Seen
    requires { length stay.now ≡ 12 }
    ensures { Surveyed stay.now n (pages file.now) result }
{
    let mut s = Seen {
        ranged: true,
        running: true,
        dated: true,
        count: 0,
        day: None,
        place: None,
    };
    for i in 0..file.len() / 512 {
        s = look(s, &file[512 * i..512 * i + 512], i, stay, n);
    }
    s
}

// What an open finds before it writes: the text with its padding, of which the first `length` bytes are to be written.
#[derive(Clone, Copy)]
pub struct Content {
    pub length: usize,
    pub text: [u8; 474],
}

// Of a page that is found, with room for so many bytes. Refused: 4, 5, 13 for padding that is not zero.
fn read_page(key: &[u8], page: &[u8], room: usize) -> Result<Content, Refusal>
    requires { (length key.now ≡ 32) × (length page.now ≡ 512) × (text_length page.now ≤ most_page_text) }
    ensures { Finds (page_open_number key.now page.now room) key.now page.now result }
{
    let n = fields::get(page, 20, 2) as usize;
    if room < n {
        return Err(Refusal::ShortOutput);
    }
    let mut text = [0u8; 474];
    page::open(
        key,
        &page[..16],
        &page[..22],
        &page[22..496],
        &page[496..512],
        &mut text,
    )?;
    if !fields::all_zero(&text, n, 474 - n) {
        return Err(Refusal::BadFile);
    }
    Ok(Content { length: n, text })
}

// What an open finds that has room for so many bytes.
pub fn read(key: &[u8], stay: &[u8], n: u32, file: &[u8], room: usize) -> Result<Content, Refusal>
    ensures { Finds (open_number key.now stay.now n file.now room) key.now (page_of stay.now n file.now) result }
{
    if key.len() != 32 {
        return Err(Refusal::KeyLength);
    }
    if stay.len() != 12 {
        return Err(Refusal::IvLength);
    }
    if file.len() % 512 != 0 {
        return Err(Refusal::BadFile);
    }
    let s = survey(file, stay, n);
    if !s.ranged {
        return Err(Refusal::BadFile);
    }
    if !(s.running & s.dated) {
        return Err(Refusal::BadStay);
    }
    let at = 512 * s.place.ok_or(Refusal::BadStay)?;
    read_page(key, &file[at..at + 512], room)
}

// Opens page n of a stay: the text goes to the front of the output, as many bytes as the page's stored length, which come back, if nothing is refused,
// which is known before a byte is written. Refused: 1 for the key's length, 2 for a stay that is not 12 bytes, 13 for a file that is not whole pages or
// has a page with a length or a day out of range, 14 for a stay that lacks the page, whose pages do not run 0, 1, 2 or hold different days, 4 for an
// output shorter than the text, 5 for a tag that is not the page's, 13 for padding that is not zero.
pub fn open(key: &[u8], stay: &[u8], n: u32, file: &[u8], out: &mut [u8]) -> Result<usize, Refusal>
    ensures answer { opened_of result ≡ open_answer key.now stay.now n file.now (length out.old) }
    ensures out { out.new ≡ open_out key.now stay.now n file.now out.old }
{
    let c = read(key, stay, n, file, out.len())?;
    fields::copy(&c.text, c.length, out);
    Ok(c.length)
}
