// Blocks of 16 bytes as four words of 32 bits, low byte first: read, written, compared, added, subtracted and xored.
#![tactic(auto)]

ghost use Rattle.std.specs.Prelude.{◌≡◌, ◌+◌, ◌<◌, ◌≤◌, ◌++◌, length};
ghost use Rattle.std.proofs.lemmas.List.Edits.{sets};
ghost use Rattle.words.specs.Xor.{xors};
ghost use Rattle.words.specs.Sums.{◌⊞◌};
ghost use Rattle.words.specs.Differences.{◌⊟◌};
ghost use Rattle.words.specs.Bytes;
ghost use Rattle.words.specs.Bytes.{number, little, part, zeros};
ghost use Rattle.words.specs.Machine.{bytes_of};

// A block: byte 0 is the low byte of `w0`, byte 15 the high byte of `w3`.
#[derive(Clone, Copy, PartialEq, Eq)]
pub struct Block {
    pub w0: u32,
    pub w1: u32,
    pub w2: u32,
    pub w3: u32,
}

pub fn zero() -> Block
    ensures { bytes_of result ≡ zeros }
{
    Block {
        w0: 0,
        w1: 0,
        w2: 0,
        w3: 0,
    }
}

pub fn xor(x: Block, y: Block) -> Block
    ensures { bytes_of result ≡ xors (bytes_of x) (bytes_of y) }
{
    Block {
        w0: x.w0 ^ y.w0,
        w1: x.w1 ^ y.w1,
        w2: x.w2 ^ y.w2,
        w3: x.w3 ^ y.w3,
    }
}

// The paper's ⊞32: no carry goes from a word to the next.
pub fn plus(x: Block, y: Block) -> Block
    ensures { bytes_of result ≡ bytes_of x ⊞ bytes_of y }
{
    Block {
        w0: x.w0.wrapping_add(y.w0),
        w1: x.w1.wrapping_add(y.w1),
        w2: x.w2.wrapping_add(y.w2),
        w3: x.w3.wrapping_add(y.w3),
    }
}

pub fn minus(x: Block, y: Block) -> Block
    ensures { bytes_of result ≡ bytes_of x ⊟ bytes_of y }
{
    Block {
        w0: x.w0.wrapping_sub(y.w0),
        w1: x.w1.wrapping_sub(y.w1),
        w2: x.w2.wrapping_sub(y.w2),
        w3: x.w3.wrapping_sub(y.w3),
    }
}

// Whether two blocks are the same. Each of their words is looked at: a derived `==` could stop at the first that differs.
pub fn same(x: Block, y: Block) -> bool
    ensures { result ≡ Bytes.same (bytes_of x) (bytes_of y) }
{
    (x.w0 == y.w0) & (x.w1 == y.w1) & (x.w2 == y.w2) & (x.w3 == y.w3)
}

// A byte as a word. A cast of an element of a slice would ask for its size.
pub fn word_of(x: u8) -> u32
    ensures { (result ≡ x) × (result < 256) }
{
    u32::from(x)
}

// Four bytes of a slice as a word.
fn load_word(p: &[u8], at: usize) -> u32
    requires { at + 4 ≤ length p.now }
    ensures { result ≡ number (part at 4 p.now) }
{
    u32::from_le_bytes([p[at], p[at + 1], p[at + 2], p[at + 3]])
}

// Two words as a number of 64 bits, the low one first. No library method joins two words.
pub fn join(lo: u32, hi: u32) -> u64
    ensures { little 8 result ≡ little 4 lo ++ little 4 hi }
{
    lo as u64 + hi as u64 * 0x100000000
}

// The block at a place of a slice.
pub fn load(p: &[u8], at: usize) -> Block
    requires { at + 16 ≤ length p.now }
    ensures { bytes_of result ≡ part at 16 p.now }
{
    Block {
        w0: load_word(p, at),
        w1: load_word(p, at + 4),
        w2: load_word(p, at + 8),
        w3: load_word(p, at + 12),
    }
}

fn store_word(out: &mut [u8], at: usize, x: u32)
    requires { at + 4 ≤ length out.old }
    ensures { out.new ≡ sets out.old at (little 4 x) }
{
    out[at..at + 4].copy_from_slice(&x.to_le_bytes());
}

// And written there. Every other byte stays.
pub fn store(out: &mut [u8], at: usize, x: Block)
    requires { at + 16 ≤ length out.old }
    ensures { out.new ≡ sets out.old at (bytes_of x) }
{
    store_word(out, at, x.w0);
    store_word(out, at + 4, x.w1);
    store_word(out, at + 8, x.w2);
    store_word(out, at + 12, x.w3);
}

// A block's bytes.
pub fn to_bytes(x: Block) -> [u8; 16]
    ensures { result ≡ bytes_of x }
{
    let mut bytes = [0; 16];
    store(&mut bytes, 0, x);
    bytes
}
