// The season: its key, its stays, the text of each page, and the places that the pages have in the file.
ghost use Rattle.std.specs.Prelude.{◌≤◌, ◌≡◌};

use scope::Refusal;

const KEY: [u8; 32] = *b"\
    \x03\x0a\x11\x18\x1f\x26\x2d\x34\x3b\x42\x49\x50\x57\x5e\x65\x6c\
    \x73\x7a\x81\x88\x8f\x96\x9d\xa4\xab\xb2\xb9\xc0\xc7\xce\xd5\xdc";

const STAY_1: [u8; 12] = *b"\x10\x11\x12\x13\x14\x15\x16\x17\x18\x19\x1a\x1b";

const STAY_2: [u8; 12] = *b"\x20\x21\x22\x23\x24\x25\x26\x27\x28\x29\x2a\x2b";

const STAY_3: [u8; 12] = *b"\x30\x31\x32\x33\x34\x35\x36\x37\x38\x39\x3a\x3b";

pub fn key() -> [u8; 32] {
    KEY
}

// Page n of a stay, and how long its text is.
#[derive(Clone, Copy)]
pub struct Page {
    pub stay: u32,
    pub n: u32,
    pub length: usize,
}

// A length that no page has, for pages that are not in the season.
pub const NO_TEXT: usize = 475;

pub fn page_of(stay: u32, n: u32, length: usize) -> Page
    ensures { result.length ≡ length }
{
    Page {
        stay: stay,
        n: n,
        length: length,
    }
}

// The page at a place. What is all zero is page 0 of a stay of zeros, of which the season has no text.
pub fn at(place: u64) -> Page
    ensures { result.length ≤ 475 }
{
    match place {
        0 => page_of(1, 0, 0),
        1 => page_of(2, 0, 1),
        2 => page_of(1, 1, 16),
        3 => page_of(3, 0, 473),
        4 => page_of(2, 1, 474),
        5 => page_of(1, 2, 474),
        _ => page_of(0, 0, NO_TEXT),
    }
}

pub fn stay(s: u32) -> [u8; 12] {
    match s {
        1 => STAY_1,
        2 => STAY_2,
        3 => STAY_3,
        _ => [0; 12],
    }
}

// The day of a stay's departure.
pub fn departure(s: u32) -> u64 {
    match s {
        1 => 9000,
        2 => 9007,
        _ => 73048,
    }
}

// Byte k of a page's text.
pub fn byte(p: Page, k: usize) -> u8 {
    let along = 13 * (k as u64 % 256);
    ((along + 31 * p.stay as u64 + 7 * p.n as u64 + 1) % 256) as u8
}

// A page's text, zeros behind it.
pub fn text(p: Page) -> [u8; 475] {
    std::array::from_fn(|k| if k < p.length { byte(p, k) } else { 0 })
}

// Seals a page of the season on a day into a place of the file.
pub fn seal(p: Page, day: u64, file: &mut [u8], place: u64) -> Result<(), Refusal>
    requires { p.length ≤ 475 }
{
    let key = key();
    let stay = stay(p.stay);
    let text = text(p);
    let length = p.length;
    page_file::seal(&key, &stay, p.n, day, &text[0..length], file, place)
}
