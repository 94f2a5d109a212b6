// GHASH of NIST SP 800-38D on two halves of 64 bits. A product is the xor of 32 entries, one for each four bits of a block, of a table that is
// made once for an H and lent.
#![tactic(auto)]

ghost use Rattle.std.specs.Prelude.{◌≡◌, ◌+◌, ◌*◌, ◌<◌, ◌≤◌, set, length};
ghost use Rattle.std.proofs.lemmas.List.Edits.{sets};
ghost use Rattle.words.specs.Xor.{xors};
ghost use Rattle.words.specs.Bytes.{little, zeros};
ghost use Rattle.words.specs.Machine.{bytes_of};
ghost use Rattle.ghash.specs.Field.{times_x, product};
ghost use Rattle.ghash.specs.Hash as Hash;
ghost use Rattle.ghash.specs.Hash.{big, eat};
ghost use Rattle.ghash.specs.Machine.{bytes_of_element, entry, Table};
ghost use Rattle.ghash.specs.Inner.{number_of, entries, multiples, fours, lows, indices, share, Read, Quarters};

use words::Block;

// A block in the order of its bytes: `lo` is bytes 0 to 7, low byte first, and `hi` bytes 8 to 15.
#[derive(Clone, Copy)]
pub struct Element {
    pub lo: u64,
    pub hi: u64,
}

// The same as a number: `hi` is bytes 0 to 7, high byte first, and `lo` bytes 8 to 15.
#[derive(Clone, Copy)]
struct Number {
    hi: u64,
    lo: u64,
}

pub fn zero() -> Element
    ensures { bytes_of_element result ≡ zeros }
{
    Element { lo: 0, hi: 0 }
}

fn xor(a: Element, b: Element) -> Element
    ensures { bytes_of_element result ≡ xors (bytes_of_element a) (bytes_of_element b) }
{
    Element {
        lo: a.lo ^ b.lo,
        hi: a.hi ^ b.hi,
    }
}

// A block of the cipher, and back: the same 16 bytes. No library method joins two words or takes a half apart.
pub fn from_block(b: Block) -> Element
    ensures { bytes_of_element result ≡ bytes_of b }
{
    Element {
        lo: words::join(b.w0, b.w1),
        hi: words::join(b.w2, b.w3),
    }
}

pub fn to_block(e: Element) -> Block
    ensures { bytes_of result ≡ bytes_of_element e }
{
    Block {
        w0: (e.lo % 0x100000000) as u32,
        w1: (e.lo / 0x100000000) as u32,
        w2: (e.hi % 0x100000000) as u32,
        w3: (e.hi / 0x100000000) as u32,
    }
}

// Both lengths, of data and of text, in bits, high byte first.
pub fn lengths(ad: u64, text: u64) -> Element
    ensures { bytes_of_element result ≡ Hash.lengths ad text }
{
    Element {
        lo: (ad << 3).swap_bytes(),
        hi: (text << 3).swap_bytes(),
    }
}

fn to_number(e: Element) -> Number
    ensures { number_of result ≡ big (bytes_of_element e) }
{
    Number {
        hi: e.lo.swap_bytes(),
        lo: e.hi.swap_bytes(),
    }
}

fn from_number(v: Number) -> Element
    ensures { big (bytes_of_element result) ≡ number_of v }
{
    Element {
        lo: v.hi.swap_bytes(),
        hi: v.lo.swap_bytes(),
    }
}

// V(i+1) from V(i).
fn times_x(v: Number) -> Number
    ensures { number_of result ≡ times_x (number_of v) }
{
    Number {
        hi: (v.hi >> 1) ^ ((v.lo % 2) * 0xe100_0000_0000_0000),
        lo: (v.hi << 63) | (v.lo >> 1),
    }
}

// Entry i becomes e.
fn put(table: &mut [u64; 1024], i: usize, e: Element)
    requires { i < 512 }
    ensures { entries table.new ≡ set (entries table.old) i (big (bytes_of_element e)) }
{
    table[i * 2] = e.lo;
    table[i * 2 + 1] = e.hi;
}

// Four entries: w, and w with each sum of a and b.
fn four(table: &mut [u64; 1024], i: usize, w: Element, a: Element, b: Element, ab: Element)
    requires { i + 4 ≤ 512 }
    ensures { entries table.new
        ≡ sets (entries table.old) i
        (fours (big (bytes_of_element w)) (big (bytes_of_element a)) (big (bytes_of_element b)) (big (bytes_of_element ab))) }
{
    put(table, i, w);
    put(table, i + 1, xor(w, a));
    put(table, i + 2, xor(w, b));
    put(table, i + 3, xor(w, ab));
}

// The entries of place p, where the leftmost four bits • v are those at that place • H; and v for the place to the right of it.
fn place(table: &mut [u64; 1024], p: usize, v: Number) -> Number
    requires { p < 32 }
    ensures result_value { number_of result ≡ times_x (times_x (times_x (times_x (number_of v)))) }
    ensures table_after { entries table.new ≡ sets (entries table.old) (p * 16) (multiples (number_of v)) }
{
    let v4 = times_x(v);
    let v2 = times_x(v4);
    let v1 = times_x(v2);
    let e8 = from_number(v);
    let e4 = from_number(v4);
    let e2 = from_number(v2);
    let e1 = from_number(v1);
    let e3 = xor(e2, e1);
    four(table, p * 16, zero(), e1, e2, e3);
    four(table, p * 16 + 4, e4, e1, e2, e3);
    four(table, p * 16 + 8, e8, e1, e2, e3);
    four(table, p * 16 + 12, xor(e8, e4), e1, e2, e3);
    times_x(v1)
}

// The table of h, for `absorb` and its kin, into lent words.
pub fn fill(table: &mut [u64; 1024], h: Element)
    requires { length table.old ≡ 1024 }
    ensures { Table (bytes_of_element h) table.new }
{
    let mut v = to_number(h);
    for p in 0..32 {
        v = place(table, p, v);
    }
}

// Twice the low four bits of each byte.
fn twice_low(x: u64) -> u64
    ensures { little 8 result ≡ lows (little 8 x) }
{
    (x & 0x0f0f_0f0f_0f0f_0f0f) * 2
}

// Where a block's entries stand within their places, 32 bytes of m: twice the high four bits of each of its bytes, then twice the low four.
fn indices(m: &mut [u8], at: usize, x: Element)
    requires { at + 32 ≤ length m.old }
    ensures { m.new ≡ sets m.old at (indices (bytes_of_element x)) }
{
    let high = Element {
        lo: twice_low(x.lo / 16),
        hi: twice_low(x.hi / 16),
    };
    let low = Element {
        lo: twice_low(x.lo),
        hi: twice_low(x.hi),
    };
    words::store(m, at, to_block(high));
    words::store(m, at + 16, to_block(low));
}

// The entry at word i + b.
fn entry(table: &[u64; 1024], i: usize, b: u8) -> Element
    requires { i + b + 1 < 1024 }
    ensures { big (bytes_of_element result) ≡ entry table.now (i + b) }
{
    let k = i + (b as usize);
    Element {
        lo: table[k],
        hi: table[k + 1],
    }
}

// What byte k of x, at its place, • h makes: its two entries. `x` and `h` themselves are not read: they say in the contract whose indices and
// whose table these are.
fn byte(m: &[u8], at: usize, k: usize, x: Element, h: Element, table: &[u64; 1024]) -> Element
    requires { (k < 16) × Read (bytes_of_element x) (bytes_of_element h) m.now at table.now }
    ensures { big (bytes_of_element result) ≡ share (bytes_of_element x) (bytes_of_element h) k 1 }
{
    xor(
        entry(table, 64 * k, m[at + k]),
        entry(table, 64 * k + 32, m[at + 16 + k]),
    )
}

// And four bytes from byte k on.
fn quarter(m: &[u8], at: usize, k: usize, x: Element, h: Element, table: &[u64; 1024]) -> Element
    requires { (k + 4 ≤ 16) × Read (bytes_of_element x) (bytes_of_element h) m.now at table.now }
    ensures { big (bytes_of_element result) ≡ share (bytes_of_element x) (bytes_of_element h) k 4 }
{
    xor(
        xor(byte(m, at, k, x, h, table), byte(m, at, k + 1, x, h, table)),
        xor(
            byte(m, at, k + 2, x, h, table),
            byte(m, at, k + 3, x, h, table),
        ),
    )
}

// x • h, of its quarters.
fn of_quarters(a: Element, b: Element, c: Element, d: Element, x: Element, h: Element) -> Element
    requires { Quarters (bytes_of_element x) (bytes_of_element h) a b c d }
    ensures { big (bytes_of_element result) ≡ product (big (bytes_of_element x)) (big (bytes_of_element h)) }
{
    xor(xor(a, b), xor(c, d))
}

// One block more: (y ⊕ x) • h. The indices go into m at a place that a loop changes from block to block: the compiler then reads each from
// memory, and does not shift it out of a word again. A function that has one caller is compiled into it, and so are the quarters, which are short
// enough for any number of callers.
pub fn absorb_at(
    y: Element,
    x: Element,
    h: Element,
    table: &[u64; 1024],
    m: &mut [u8; 512],
    at: usize,
) -> Element
    requires { Table (bytes_of_element h) table.now × (at + 32 ≤ 512) × (length m.old ≡ 512) }
    ensures hash { bytes_of_element result ≡ eat (bytes_of_element h) (bytes_of_element y) (bytes_of_element x) }
    ensures scratch { m.new ≡ sets m.old at (indices (xors (bytes_of_element y) (bytes_of_element x))) }
{
    let s = xor(y, x);
    indices(m, at, s);
    of_quarters(
        quarter(m, at, 0, s, h, table),
        quarter(m, at, 4, s, h, table),
        quarter(m, at, 8, s, h, table),
        quarter(m, at, 12, s, h, table),
        s,
        h,
    )
}

// The same for a single block, and where nothing else is made meanwhile. The quarters are spelt out again: a second caller would make `absorb_at` a call.
pub fn absorb_element(y: Element, x: Element, h: Element, table: &[u64; 1024]) -> Element
    requires { Table (bytes_of_element h) table.now }
    ensures { bytes_of_element result ≡ eat (bytes_of_element h) (bytes_of_element y) (bytes_of_element x) }
{
    let mut m = [0u8; 32];
    let s = xor(y, x);
    indices(&mut m, 0, s);
    of_quarters(
        quarter(&m, 0, 0, s, h, table),
        quarter(&m, 0, 4, s, h, table),
        quarter(&m, 0, 8, s, h, table),
        quarter(&m, 0, 12, s, h, table),
        s,
        h,
    )
}

// The same for a block of the cipher.
pub fn absorb(y: Element, x: Block, h: Element, table: &[u64; 1024]) -> Element
    requires { Table (bytes_of_element h) table.now }
    ensures { bytes_of_element result ≡ eat (bytes_of_element h) (bytes_of_element y) (bytes_of x) }
{
    absorb_element(y, from_block(x), h, table)
}
