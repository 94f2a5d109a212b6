// The two registers of SNOW-V: eight clocks at once, and eight clocks back.
#![tactic(auto)]

ghost use Rattle.std.specs.Prelude.{◌≡◌, ◌++◌, replicate, take};
ghost use Rattle.words.specs.Xor.{◌⊕◌};
ghost use Rattle.lfsr.specs.Cells;
ghost use Rattle.lfsr.specs.Clock.{snow_v, clocks};
ghost use Rattle.lfsr.specs.Unclock;
ghost use Rattle.lfsr.specs.Unclock.{solved_v, unclocks};
ghost use Rattle.lfsr.specs.Machine.{lfsr_of};

// LFSR-A and LFSR-B, the paper's two registers.
#[derive(Clone, Copy, PartialEq, Eq)]
pub struct Lfsr {
    pub a: [u16; 16],
    pub b: [u16; 16],
}

fn times(c: u16, x: u16) -> u16
    ensures { result ≡ Cells.times c x }
{
    (x << 1) ^ ((x >> 15) * c)
}

fn over(d: u16, x: u16) -> u16
    ensures { result ≡ Cells.over d x }
{
    (x >> 1) ^ ((x % 2) * d)
}

// A new cell: of cell 0 of the other register, cell 0 of its own, and the two that its tap reads.
fn fresh(c: u16, d: u16, other: u16, own: u16, near: u16, far: u16) -> u16
    ensures { result ≡ (other ⊕ Cells.times c own) ⊕ (near ⊕ Cells.over d far) }
{
    (other ^ times(c, own)) ^ (near ^ over(d, far))
}

// Eight clocks: the eight new cells of each register are made of old cells alone.
pub fn clock8(s: Lfsr) -> Lfsr
    ensures { lfsr_of result ≡ clocks snow_v 8 (lfsr_of s) }
{
    let mut r = s;
    for i in 0..8 {
        r.a[i] = s.a[i + 8];
        r.a[i + 8] = fresh(0x990f, 0xcc87, s.b[i], s.a[i], s.a[i + 1], s.a[i + 8]);
        r.b[i] = s.b[i + 8];
        r.b[i + 8] = fresh(0xc963, 0xe4b1, s.a[i], s.b[i], s.b[i + 3], s.b[i + 8]);
    }
    r
}

// The x with x ^ beta (alpha x) = y, by the two constants that go with alpha and beta.
fn solve(k: u16, l: u16, y: u16) -> u16
    ensures { result ≡ Unclock.solve k l y }
{
    let u = y ^ (y << 2);
    let v = u ^ (u << 4);
    let w = v ^ (v << 8);
    (w ^ ((w >> 14) % 2 * k)) ^ ((w >> 15) % 2 * l)
}

// Cells 0 to 7 back in places 8 to 15, where they came from, and zeros below. Listed: a `copy_from_slice` here costs every step back 64 instructions.
fn raised(c: [u16; 16]) -> [u16; 16]
    ensures { result ≡ replicate 8 0 ++ take 8 c }
{
    [
        0, 0, 0, 0, 0, 0, 0, 0, c[0], c[1], c[2], c[3], c[4], c[5], c[6], c[7],
    ]
}

// Eight clocks back, a cell of each register at a time, from the highest.
pub fn unclock8(s: Lfsr) -> Lfsr
    ensures { lfsr_of result ≡ unclocks snow_v solved_v 8 (lfsr_of s) }
{
    let mut a = raised(s.a);
    let mut b = raised(s.b);
    for i in (0..8).rev() {
        let p = s.a[i + 8] ^ (a[i + 1] ^ over(0xcc87, a[i + 8]));
        let q = s.b[i + 8] ^ (b[i + 3] ^ over(0xe4b1, b[i + 8]));
        let x = solve(0x3d1f, 0x5a06, q ^ times(0xc963, p));
        a[i] = x;
        b[i] = p ^ times(0x990f, x);
    }
    Lfsr { a, b }
}
