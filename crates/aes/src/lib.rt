// The S-box of FIPS 197, and the inverse of its encryption round with a zero key, on a block of four words. A word is a column of the state.
// MixColumns works on the four bytes of a word at once.
#![tactic(auto)]

mod table;

ghost use Rattle.std.specs.Prelude.{◌≡◌, map, ◌%◌, get_or};
ghost use Rattle.words.specs.Bytes.{little};
ghost use Rattle.words.specs.Machine.{bytes_of};
ghost use Rattle.aes.specs.Field.{xtime, sub};
ghost use Rattle.aes.specs.Unround.{unsub};
ghost use Rattle.aes.specs.Unround as Unround;
ghost use Rattle.aes.specs.Round.{gathered, mix_columns};
ghost use Rattle.aes.specs.Unround.{unmix_columns};
ghost use Rattle.aes.specs.Tables.{Holds};
ghost use Rattle.aes.specs.Columns.{diagonal, turned};

use table::SBOX;
use words::Block;

// The S-box, whose rule is FIPS 197's: inverse in the field, then the affine map.
fn sbox() -> [u8; 256]
    ensures { Holds sub result }
{
    SBOX
}

// The inverse S-box, made from the S-box: each byte is put at the place that its entry names. A caller makes it once, and lends it to the rounds back.
pub fn inverse_sbox() -> [u8; 256]
    ensures { Holds unsub result }
{
    let s = sbox();
    let mut r = [0u8; 256];
    for i in 0..256 {
        r[s[i] as usize] = i as u8;
    }
    r
}

// What a table holds at the low byte of a word.
fn entry(t: &[u8; 256], x: u32) -> u8
    ensures { result ≡ get_or t.now (x % 256) 0 }
{
    t[(x % 256) as usize]
}

// A column through a table: its byte r is the entry at byte r of the r-th word.
fn gather(t: &[u8; 256], w: u32, x: u32, y: u32, z: u32) -> u32
    ensures { little 4 result ≡ gathered (diagonal (little 4 w) (little 4 x) (little 4 y) (little 4 z)) t.now }
{
    u32::from_le_bytes([
        entry(t, w),
        entry(t, x / 0x100),
        entry(t, y / 0x10000),
        entry(t, z / 0x1000000),
    ])
}

// Each of the four bytes times x.
fn times_x4(w: u32) -> u32
    ensures { little 4 result ≡ map xtime (little 4 w) }
{
    (w & 0x7f7f7f7f) * 2 ^ (w & 0x80808080) / 0x80 * 0x1b
}

// The column's bytes one place down, the lowest to the top.
fn turn(w: u32) -> u32
    ensures { little 4 result ≡ turned (little 4 w) }
{
    w.rotate_right(8)
}

// MixColumns of one column: 2a + 3b + c + d is 2(a + b) + b + (c + d), and c + d is a + b two places on.
fn mixed(w: u32) -> u32
    ensures { little 4 result ≡ mix_columns (little 4 w) }
{
    let b = turn(w);
    let s = w ^ b;
    times_x4(s) ^ b ^ turn(turn(s))
}

// Its inverse, as MixColumns after a + 4(a + c): the matrix of 14 11 13 9 is that of 2 3 1 1 times that of 5 0 4 0.
fn unmixed(w: u32) -> u32
    ensures { little 4 result ≡ unmix_columns (little 4 w) }
{
    let c = turn(turn(w));
    mixed(w ^ times_x4(times_x4(w ^ c)))
}

// The block whose round it is, over the inverse S-box.
pub fn unround(x: Block, t: &[u8; 256]) -> Block
    requires { Holds unsub t.now }
    ensures { bytes_of result ≡ Unround.unround (bytes_of x) }
{
    let a = unmixed(x.w0);
    let b = unmixed(x.w1);
    let c = unmixed(x.w2);
    let d = unmixed(x.w3);
    Block {
        w0: gather(t, a, d, c, b),
        w1: gather(t, b, a, d, c),
        w2: gather(t, c, b, a, d),
        w3: gather(t, d, c, b, a),
    }
}
