// SNOW-V: one step, forward and back, by value and lent, and runs of steps. A state carries its count of blocks, by which steps and runs are refused.
#![tactic(auto)]

ghost use Rattle.std.specs.Prelude.{◌≡◌, [], ◌∷◌, ◌++◌, ◌*◌, ◌/◌, ◌%◌, ◌≤◌, length, take, drop};
ghost use Rattle.std.proofs.lemmas.List.Edits.{sets};
ghost use Rattle.scope.specs.Refusals.{granted};
ghost use Rattle.scope.specs.Machine.{answer_number, Answers};
ghost use Rattle.words.specs.Bytes.{little, littles};
ghost use Rattle.words.specs.Machine.{bytes_of};
ghost use Rattle.aes.specs.Unround.{unsub};
ghost use Rattle.aes.specs.Tables.{Holds};
ghost use Rattle.cipher.specs.Step;
ghost use Rattle.cipher.specs.Back;
ghost use Rattle.cipher.specs.Run.{forward, backward, move, made, moves, blocks};
ghost use Rattle.cipher.specs.State.{Drawn.block, counted, steps_number, step_number, step_state, step_answer, run_number, run_state, run_part};
ghost use Rattle.cipher.specs.Machine.{registers_of, state_of, state_after, drawn_of, Moves, Steps};
ghost use Rattle.cipher.specs.Inner.{Precedes};
ghost use Rattle.cipher.specs.Lent.{front_of};
ghost use Rattle.std.specs.Borrow.{sem};

pub mod lanes;

use lfsr::Lfsr;
use scope::Refusal;
use words::Block;

// The contents of A and B, R1, R2 and R3: document 01's cipher state.
#[derive(Clone, Copy, PartialEq, Eq)]
pub struct Registers {
    pub lfsr: Lfsr,
    pub r1: Block,
    pub r2: Block,
    pub r3: Block,
}

// Document 02's state: the registers, and how many blocks lie between the start and them.
#[derive(Clone, Copy, PartialEq, Eq)]
pub struct State {
    pub registers: Registers,
    pub count: u64,
}

// What a step of the registers gives: those that it leads to, and its block z.
#[derive(Clone, Copy)]
pub struct Moved {
    pub registers: Registers,
    pub z: Block,
}

// What a step of a state gives: the state that it leads to, and its block z.
#[derive(Clone, Copy)]
pub struct Stepped {
    pub state: State,
    pub z: Block,
}

fn pair(lo: u16, hi: u16) -> u32
    ensures { little 4 result ≡ little 2 lo ++ little 2 hi }
{
    lo as u32 + hi as u32 * 0x10000
}

// Eight cells as a block.
fn eight(c0: u16, c1: u16, c2: u16, c3: u16, c4: u16, c5: u16, c6: u16, c7: u16) -> Block
    ensures { bytes_of result ≡ littles 2 (c0 ∷ c1 ∷ c2 ∷ c3 ∷ c4 ∷ c5 ∷ c6 ∷ c7 ∷ []) }
{
    Block {
        w0: pair(c0, c1),
        w1: pair(c2, c3),
        w2: pair(c4, c5),
        w3: pair(c6, c7),
    }
}

// Cells 0 to 7 of a register as a block.
pub fn low_half(l: [u16; 16]) -> Block
    ensures { bytes_of result ≡ littles 2 (take 8 l) }
{
    eight(l[0], l[1], l[2], l[3], l[4], l[5], l[6], l[7])
}

// Cells 8 to 15.
pub fn high_half(l: [u16; 16]) -> Block
    ensures { bytes_of result ≡ littles 2 (drop 8 l) }
{
    eight(l[8], l[9], l[10], l[11], l[12], l[13], l[14], l[15])
}

// Bytes 0 and 2 of p and of q in turn.
fn interleaved(p: u32, q: u32) -> u32
    ensures { little 4 result ≡ p % 256 ∷ q % 256 ∷ p / 65536 % 256 ∷ q / 65536 % 256 ∷ [] }
{
    (p & 0x00ff00ff) + (q & 0x00ff00ff) * 0x100
}

// The paper's sigma: the four by four matrix of bytes is transposed, first its quarters and then the bytes of each. It is the paper's permutation, and no library
// method's.
fn sigma(x: Block) -> Block
    ensures { bytes_of result ≡ Step.sigma (bytes_of x) }
{
    let p = x.w0 % 0x10000 + x.w2 % 0x10000 * 0x10000;
    let q = x.w1 % 0x10000 + x.w3 % 0x10000 * 0x10000;
    let r = x.w0 / 0x10000 + x.w2 / 0x10000 * 0x10000;
    let s = x.w1 / 0x10000 + x.w3 / 0x10000 * 0x10000;
    Block {
        w0: interleaved(p, q),
        w1: interleaved(p / 0x100, q / 0x100),
        w2: interleaved(r, s),
        w3: interleaved(r / 0x100, s / 0x100),
    }
}

// What of the step that led to some registers does not hang on register A: R1 and R2 before it, and its z.
#[derive(Clone, Copy)]
pub struct Before {
    pub r1: Block,
    pub r2: Block,
    pub z: Block,
}

// The z of the step that led to these registers, over a lent inverse S-box, with the R1 and R2 that it was made of. B's low half was T1.
pub fn z_before(s: Registers, inverse: &[u8; 256]) -> Before
    requires { Holds unsub inverse.now }
    ensures { Precedes s result }
{
    let l = s.lfsr;
    let r2 = s.r2;
    let r3 = s.r3;
    let b = l.b;
    let o1 = aes::unround(r2, inverse);
    let o2 = aes::unround(r3, inverse);
    let z = words::xor(words::plus(o1, low_half(b)), o2);
    Before {
        r1: o1,
        r2: o2,
        z: z,
    }
}

// The registers before that step. The clocks go first: R3 had the old a0 to a7 xored in.
pub fn registers_before(s: Registers, p: Before) -> Registers
    requires { Precedes s p }
    ensures { registers_of result ≡ Back.back (registers_of s) }
{
    let l = s.lfsr;
    let r1 = s.r1;
    let o1 = p.r1;
    let o2 = p.r2;
    let o = lfsr::unclock8(l);
    let a = o.a;
    let o3 = words::xor(words::minus(sigma(r1), o2), low_half(a));
    Registers {
        lfsr: o,
        r1: o1,
        r2: o2,
        r3: o3,
    }
}

// One step back, over a lent inverse S-box, with the z of the step that is undone.
pub fn backward(s: Registers, inverse: &[u8; 256]) -> Moved
    requires { Holds unsub inverse.now }
    ensures { Moves backward s result }
{
    let p = z_before(s, inverse);
    Moved {
        registers: registers_before(s, p),
        z: p.z,
    }
}

// Whether n steps from a count are refused: with 9 for a count or an n over 65,538, and for a way forward past it; with 15 for a way back past 0.
pub fn steps_allowed(count: u64, n: u64, back: bool) -> Result<(), Refusal>
    ensures { answer_number result ≡ steps_number back n count }
{
    if count > scope::MOST_BLOCKS {
        return Err(Refusal::CountTooHigh);
    }
    if n > scope::MOST_BLOCKS {
        return Err(Refusal::CountTooHigh);
    }
    if back {
        if count < n {
            return Err(Refusal::BeforeStart);
        }
        return Ok(());
    }
    if count + n > scope::MOST_BLOCKS {
        return Err(Refusal::CountTooHigh);
    }
    Ok(())
}

// The count after n steps that are not refused.
fn counted(count: u64, n: u64, back: bool) -> u64
    requires { steps_number back n count ≡ 0 }
    ensures { result ≡ counted back n count }
{
    if back {
        return count - n;
    }
    count + n
}

// One step: the state it leads to, and its z. Refused: 9 at a count of 65,538 and over.
pub fn step_by_value(s: State) -> Result<Stepped, Refusal>
    ensures { Steps forward s result }
{
    steps_allowed(s.count, 1, false)?;
    let rounds = wide_round::table();
    let w = lanes::forward(s.registers, &rounds);
    let state = State {
        registers: w.registers,
        count: counted(s.count, 1, false),
    };
    Ok(Stepped { state, z: w.z })
}

// One step back: the only state whose step leads to this one, and that step's z. Refused: 9 at a count over 65,538, 15 at 0.
pub fn back_by_value(s: State) -> Result<Stepped, Refusal>
    ensures back { Steps backward s result }
    ensures leads { Answers result (step_number backward (state_of s)) (λ w. (step_state forward (state_of w.state) ≡ state_of s) × (step_answer forward (state_of w.state) ≡ block (bytes_of w.z))) }
{
    steps_allowed(s.count, 1, true)?;
    let inverse = aes::inverse_sbox();
    let w = backward(s.registers, &inverse);
    let state = State {
        registers: w.registers,
        count: counted(s.count, 1, true),
    };
    Ok(Stepped { state, z: w.z })
}

// The state is lent, moved on one step, and z comes back; or the refusal, and then the state stays. Document 01 names this form: thin, over the step by value.
pub fn step(s: &mut State) -> Result<Block, Refusal>
    ensures { (state_of s.new ≡ step_state forward (state_of s.old)) × (drawn_of result ≡ step_answer forward (state_of s.old)) }
{
    let t = step_by_value(*s)?;
    *s = t.state;
    Ok(t.z)
}

// n steps back, from the front of the output on.
fn run_back(s: Registers, out: &mut [u8], n: usize) -> Registers
    requires { 16 * n ≤ length out.old }
    ensures registers { registers_of result ≡ moves backward n (registers_of s) }
    ensures out { out.new ≡ sets out.old 0 (blocks backward n (registers_of s)) }
{
    let inverse = aes::inverse_sbox();
    let mut t = s;
    for i in 0..n {
        let w = backward(t, &inverse);
        let u = w.registers;
        let z = w.z;
        t = u;
        words::store(out, 16 * i, z);
    }
    t
}

// n steps in a direction.
fn steps(s: Registers, out: &mut [u8], n: usize, back: bool) -> Registers
    requires { 16 * n ≤ length out.old }
    ensures registers { registers_of result ≡ moves back n (registers_of s) }
    ensures out { out.new ≡ sets out.old 0 (blocks back n (registers_of s)) }
{
    if back {
        return run_back(s, out, n);
    }
    let rounds = wide_round::table();
    lanes::run_forward(s, &rounds, out, n)
}

// n steps, forward or back: their blocks in the order made, at the front of the output. Refused, before a byte is written: 9 for a count or an n over
// 65,538 and for a way forward past it, 15 for a way back past 0, 4 where the blocks do not fit the output.
pub fn run_core(s: State, out: &mut [u8], n: usize, back: bool) -> Result<State, Refusal>
    ensures answer { answer_number result ≡ run_number back s.count (length out.old) n }
    ensures state { state_after s result ≡ run_state back (state_of s) (length out.old) n }
    ensures wrote { granted (answer_number result) (16 * n) 0 ≡ length (run_part back (state_of s) (length out.old) n) }
    ensures out { out.new ≡ run_part back (state_of s) (length out.old) n ++ drop (length (run_part back (state_of s) (length out.old) n)) out.old }
{
    steps_allowed(s.count, n as u64, back)?;
    if out.len() < 16 * n {
        return Err(Refusal::ShortOutput);
    }
    Ok(State {
        registers: steps(s.registers, out, n, back),
        count: counted(s.count, n as u64, back),
    })
}

// The same with the state lent, which a refusal leaves, and an answer number: how many bytes were written comes back.
fn run_lent(s: &mut State, answer: &mut u64, out: &mut [u8], n: usize, back: bool) -> usize
    ensures state { state_of s.new ≡ run_state back (state_of s.old) (length out.old) n }
    ensures wrote { result ≡ length (run_part back (state_of s.old) (length out.old) n) }
    ensures answer { answer.new ≡ run_number back s.old.count (length out.old) n }
    ensures out { out.new ≡ run_part back (state_of s.old) (length out.old) n ++ drop (length (run_part back (state_of s.old) (length out.old) n)) out.old }
{
    match run_core(*s, out, n, back) {
        Ok(t) => {
            *s = t;
            *answer = 0;
            16 * n
        }
        Err(e) => {
            *answer = e.number();
            0
        }
    }
}

// The same where the part of the output that holds the blocks comes back, empty on a refusal: the output ends as that part ends, and behind it the rest
// as it was. Document 01 names this form, with the answer's number lent; a `Result` with the part in it has no generated proof of what the lent slice ends as.
pub fn run<'a>(
    s: &mut State,
    answer: &mut u64,
    out: &'a mut [u8],
    n: usize,
    back: bool,
) -> &'a mut [u8]
    ensures state { state_of s.new ≡ run_state back (state_of s.old) (length out.old) n }
    ensures answer { answer.new ≡ run_number back s.old.count (length out.old) n }
    ensures part { (result.ref_ptr ≡ out.entry.ref_ptr) × (result.now ≡ run_part back (state_of s.old) (length out.old) n) }
    ensures* rest { sem 𝓛 (front_of out.entry result (drop (length result.now) out.old)) }
{
    let k = run_lent(s, answer, out, n, back);
    &mut out[..k]
}
