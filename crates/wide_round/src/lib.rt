// The AES encryption round with a zero key by a table of 256 words, each an S-box byte already multiplied for its column: four look-ups make a
// column, for SubBytes, ShiftRows and MixColumns together.
#![tactic(auto)]

mod entries;

ghost use Rattle.std.specs.Prelude.{◌≡◌, [], ◌∷◌, ◌+◌, ◌≤◌, length};
ghost use Rattle.words.specs.Bytes.{little, part};
ghost use Rattle.words.specs.Machine.{bytes_of};
ghost use Rattle.aes.specs.Tables.{Holds};
ghost use Rattle.aes.specs.Round as Round;
ghost use Rattle.aes.specs.Round.{sub_bytes, mix_columns};
ghost use Rattle.wide_round.specs.Wide.{wide};

use entries::WIDE;
use words::Block;

// The table. A constant that is indexed in place is built anew at every use, so that a caller makes the table once, and lends it to the rounds.
pub fn table() -> [u32; 256]
    ensures { Holds wide result }
{
    WIDE
}

// A column of the round: the entries at four bytes, of which the second has its top byte moved to the bottom, the third its top two, the fourth its
// top three.
fn column(t: &[u32; 256], a: u8, b: u8, c: u8, d: u8) -> u32
    requires { Holds wide t.now }
    ensures { little 4 result ≡ mix_columns (sub_bytes (a ∷ b ∷ c ∷ d ∷ [])) }
{
    let p = t[a as usize];
    let q = t[b as usize];
    let r = t[c as usize];
    let s = t[d as usize];
    p ^ (q % 0x1000000 * 0x100 + q / 0x1000000)
        ^ (r % 0x10000 * 0x10000 + r / 0x10000)
        ^ (s % 0x100 * 0x1000000 + s / 0x100)
}

// The encryption round with a zero key of the 16 bytes at a place of a slice, over the table. The bytes come from memory, one load each: as
// words in registers they would not all fit.
pub fn round_at(x: &[u8], at: usize, t: &[u32; 256]) -> Block
    requires { (at + 16 ≤ length x.now) × Holds wide t.now }
    ensures { bytes_of result ≡ Round.round (part at 16 x.now) }
{
    Block {
        w0: column(t, x[at], x[at + 5], x[at + 10], x[at + 15]),
        w1: column(t, x[at + 4], x[at + 9], x[at + 14], x[at + 3]),
        w2: column(t, x[at + 8], x[at + 13], x[at + 2], x[at + 7]),
        w3: column(t, x[at + 12], x[at + 1], x[at + 6], x[at + 11]),
    }
}
