// Bytes, numbers, cells, zeros and the check at a place of a slice: what blocks of 512 bytes and a scheduler's places are written, read and moved with.
#![tactic(auto)]

ghost use Rattle.std.specs.Prelude.{◌≡◌, ◌+◌, ◌%◌, ◌^◌, ◌<◌, ◌≤◌, ◌++◌, length, take, drop, replicate};
ghost use Rattle.std.proofs.lemmas.List.Edits.{sets};
ghost use Rattle.words.specs.Bytes;
ghost use Rattle.words.specs.Bytes.{little, number, numbers, part};
ghost use Rattle.fields.specs.Fields;
ghost use Rattle.fields.specs.Fields.{checked, check_holds};

// The first k bytes of s to the front of an output. Every other byte stays.
pub fn copy(s: &[u8], k: usize, out: &mut [u8])
    requires { (k ≤ length s.now) × (k ≤ length out.old) }
    ensures { out.new ≡ take k s.now ++ drop k out.old }
{
    out[..k].copy_from_slice(&s[..k]);
}

// k bytes from one place to another at least 16 before it. Every other byte stays.
pub fn move_down(s: &mut [u8], at: usize, from: usize, k: usize)
    requires { (at + 16 ≤ from) × (from + k ≤ length s.old) × (k % 16 ≡ 0) }
    ensures { s.new ≡ sets s.old at (part from k s.old) }
{
    s.copy_within(from..from + k, at);
}

// Zeros for k bytes. Every other byte stays.
pub fn clear(s: &mut [u8], at: usize, k: usize)
    requires { (at + k ≤ length s.old) × (k % 16 ≡ 0) }
    ensures { s.new ≡ sets s.old at (replicate k 0) }
{
    s[at..at + k].fill(0);
}

// Whether t stands at a place of s. Each of its bytes is looked at.
pub fn same(s: &[u8], at: usize, t: &[u8]) -> bool
    requires { at + length t.now ≤ length s.now }
    ensures { result ≡ Bytes.same (part at (length t.now) s.now) t.now }
{
    let mut all = true;
    for i in 0..t.len() {
        all = all & (s[at + i] == t[i]);
    }
    all
}

// The k low bytes of n, low byte first, at a place, for every k: `to_le_bytes` has one width. Every other byte stays.
pub fn put(out: &mut [u8], at: usize, k: usize, n: u64)
    requires { at + k ≤ length out.old }
    ensures { out.new ≡ sets out.old at (little k n) }
{
    let mut m = n;
    for i in 0..k {
        out[at + i] = (m % 256) as u8;
        m = m / 256;
    }
}

// The number that k bytes spell.
pub fn get(s: &[u8], at: usize, k: usize) -> u64
    requires { (at + k ≤ length s.now) × (k ≤ 8) }
    ensures { (result ≡ number (part at k s.now)) × (result < 256 ^ k) }
{
    let mut n: u64 = 0;
    for i in (0..k).rev() {
        n = n * 256 + u64::from(s[at + i]);
    }
    n
}

fn word(s: &[u8], at: usize) -> u32
    requires { at + 4 ≤ length s.now }
    ensures { result ≡ number (part at 4 s.now) }
{
    get(s, at, 4) as u32
}

// Sixteen cells of two bytes each.
pub fn cells(s: &[u8], at: usize) -> [u16; 16]
    requires { at + 32 ≤ length s.now }
    ensures { result ≡ numbers 2 16 (part at 32 s.now) }
{
    let mut r = [0u16; 16];
    for i in 0..16 {
        r[i] = get(s, at + 2 * i, 2) as u16;
    }
    r
}

// The sum modulo 2^32 of the first 127 words.
fn check(s: &[u8]) -> u32
    requires { 508 ≤ length s.now }
    ensures { result ≡ Fields.check s.now }
{
    let mut sum: u32 = 0;
    for i in 0..127 {
        sum = sum.wrapping_add(word(s, 4 * i));
    }
    sum
}

// The check of a block's first 508 bytes, written behind them.
pub fn put_check(block: &mut [u8])
    requires { length block.old ≡ 512 }
    ensures { block.new ≡ checked (take 508 block.old) }
{
    let sum = check(block);
    put(block, 508, 4, sum as u64);
}

// Whether a block's last four bytes are its check.
pub fn check_holds(block: &[u8]) -> bool
    requires { length block.now ≡ 512 }
    ensures { result ≡ check_holds block.now }
{
    let stored = word(block, 508);
    let sum = check(block);
    stored == sum
}

// Whether k bytes are all zero. Each of them is looked at.
pub fn all_zero(s: &[u8], at: usize, k: usize) -> bool
    requires { at + k ≤ length s.now }
    ensures { result ≡ Fields.all_zero (part at k s.now) }
{
    let mut all = true;
    for b in &s[at..at + k] {
        all = all & (*b == 0);
    }
    all
}
