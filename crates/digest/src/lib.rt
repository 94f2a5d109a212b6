// GHASH of bytes that arrive in pieces: the hash so far and the bytes not yet hashed, by whole blocks with a table of H.
#![tactic(auto)]

ghost use Rattle.std.specs.Prelude.{◌≡◌, ◌++◌, ◌+◌, ◌-◌, ◌%◌, ◌<◌, ◌≤◌, length, take};
ghost use Rattle.std.proofs.lemmas.List.Edits.{sets};
ghost use Rattle.std.proofs.Math.Seq.{slice};
ghost use Rattle.ghash.specs.Hash.{hash_from};
ghost use Rattle.ghash.specs.Machine.{bytes_of_element, Table};
ghost use Rattle.digest.specs.Sum;
ghost use Rattle.digest.specs.Digest.{absorb, settled};
ghost use Rattle.digest.specs.Machine.{sum_of};

use ghash::Element;

// `pending` holds the bytes not yet hashed, from the left, with zeros behind them.
#[derive(Clone, Copy)]
pub struct Held {
    pub acc: Element,
    pub pending: [u8; 16],
}

// No bytes held under a hash.
pub fn fresh(y: Element) -> Held
    ensures { sum_of result ≡ Sum.fresh (bytes_of_element y) }
{
    Held {
        acc: y,
        pending: [0; 16],
    }
}

// Bytes put into p from `at` on.
fn keep(p: [u8; 16], at: usize, bytes: &[u8]) -> [u8; 16]
    requires { at + length bytes.now ≤ 16 }
    ensures { result ≡ sets p at bytes.now }
{
    let mut q = p;
    q[at..at + bytes.len()].copy_from_slice(bytes);
    q
}

// The whole blocks of the bytes, from y on.
fn blocks(h: Element, y: Element, bytes: &[u8], table: &[u64; 1024]) -> Element
    requires { Table (bytes_of_element h) table.now }
    ensures { bytes_of_element result ≡ hash_from (bytes_of_element h) (bytes_of_element y) bytes.now }
{
    let mut z = y;
    for block in bytes.chunks_exact(16) {
        let x = ghash::from_block(words::load(block, 0));
        z = ghash::absorb_element(z, x, h, table);
    }
    z
}

// The block in use, of which `at` bytes are held, filled from the piece and hashed; nothing where it is empty.
fn head(h: Element, d: Held, at: usize, piece: &[u8], table: &[u64; 1024]) -> Element
    requires { (at < 16) × (16 ≤ at + length piece.now) × Table (bytes_of_element h) table.now }
    ensures { bytes_of_element result
        ≡ hash_from (bytes_of_element h) (bytes_of_element d.acc) (take at d.pending ++ slice 0 ((16 - at) % 16) piece.now) }
{
    if at == 0 {
        return d.acc;
    }
    let q = keep(d.pending, at, &piece[..16 - at]);
    ghash::absorb(d.acc, words::load(&q, 0), h, table)
}

// Fewer bytes than fill the block in use: they are held.
fn hold(h: Element, d: Held, n: u64, piece: &[u8]) -> Held
    requires { n % 16 + length piece.now < 16 }
    ensures { sum_of result ≡ absorb (bytes_of_element h) (sum_of d) n piece.now }
{
    let q = keep(d.pending, (n % 16) as usize, piece);
    Held {
        acc: d.acc,
        pending: q,
    }
}

// As `absorb`, with the table of h lent.
pub fn absorb_with(h: Element, d: Held, n: u64, piece: &[u8], table: &[u64; 1024]) -> Held
    requires { Table (bytes_of_element h) table.now }
    ensures { sum_of result ≡ absorb (bytes_of_element h) (sum_of d) n piece.now }
{
    let at = (n % 16) as usize;
    let len = piece.len();
    if len < 16 - at {
        return hold(h, d, n, piece);
    }
    let from = (16 - at) % 16;
    let to = from + (len - from) / 16 * 16;
    let y = blocks(h, head(h, d, at, piece, table), &piece[from..to], table);
    let q = keep([0; 16], 0, &piece[to..]);
    Held { acc: y, pending: q }
}

// Bytes of a piece, the first of number n: those that fill a block are hashed, the rest is held. A table is made where a block is filled.
pub fn absorb(h: Element, d: Held, n: u64, piece: &[u8]) -> Held
    ensures { sum_of result ≡ absorb (bytes_of_element h) (sum_of d) n piece.now }
{
    let at = (n % 16) as usize;
    if piece.len() < 16 - at {
        return hold(h, d, n, piece);
    }
    let mut table = [0u64; 1024];
    ghash::fill(&mut table, h);
    absorb_with(h, d, n, piece, &table)
}

// As `settle`, with the table of h lent.
pub fn settle_with(h: Element, d: Held, n: u64, table: &[u64; 1024]) -> Element
    requires { Table (bytes_of_element h) table.now }
    ensures { bytes_of_element result ≡ settled (bytes_of_element h) (sum_of d) n }
{
    if n % 16 == 0 {
        return d.acc;
    }
    ghash::absorb(d.acc, words::load(&d.pending, 0), h, table)
}

// The hash once n bytes are in: what is held is padded with zeros and hashed.
pub fn settle(h: Element, d: Held, n: u64) -> Element
    ensures { bytes_of_element result ≡ settled (bytes_of_element h) (sum_of d) n }
{
    if 0 < n % 16 {
        let mut table = [0u64; 1024];
        ghash::fill(&mut table, h);
        return settle_with(h, d, n, &table);
    }
    d.acc
}
