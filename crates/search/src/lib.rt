// The search for a state whose count is only roughly known: the least count of a range at which an IV and mode lead to a dump's registers.
#![tactic(auto)]

ghost use Rattle.std.specs.Prelude.{◌≡◌, ◌++◌, ◌+◌, ◌-◌, ◌^◌, ◌≤◌, ◌<◌};
ghost use Rattle.scope.specs.Limits.{most_blocks};
ghost use Rattle.scope.specs.Machine.{answer_number};
ghost use Rattle.words.specs.Machine.{bytes_of};
ghost use Rattle.aes.specs.Unround.{unsub};
ghost use Rattle.aes.specs.Tables.{Holds};
ghost use Rattle.cipher.specs.Machine.{registers_of};
ghost use Rattle.start.specs.Trace;
ghost use Rattle.start.specs.Machine.{traced_of};
ghost use Rattle.search.specs.Search.{Searches};
ghost use Rattle.search.specs.Counts;
ghost use Rattle.search.specs.Counts.{range_number, told};
ghost use Rattle.search.specs.Machine.{searched_of, Unwalked};

use cipher::Registers;
use scope::Refusal;
use start::{Mode, Origin};
use words::Block;

// What is found: the count, the IV's bytes 0 to 7 and 8 to 15, low byte first, the mode, and the steps walked.
#[derive(Clone, Copy)]
pub struct Located {
    pub count: u64,
    pub lo: u64,
    pub hi: u64,
    pub mode: Mode,
    pub steps: u64,
}

// A refusal, and the steps walked: 0 but for 6.
#[derive(Clone, Copy)]
pub struct NotFound {
    pub refusal: Refusal,
    pub steps: u64,
}

// A refusal before the walk.
impl From<Refusal> for NotFound {
    ghost from_gives = { Unwalked };

    fn from(refusal: Refusal) -> NotFound {
        NotFound { refusal, steps: 0 }
    }
}

// A trace's answer at a count, with the steps walked.
fn answer(t: Result<Origin, Refusal>, c: u64, steps: u64) -> Result<Located, NotFound>
    ensures { searched_of result ≡ told (traced_of t) c steps }
{
    match t {
        Ok(o) => Ok(Located {
            count: c,
            lo: o.lo,
            hi: o.hi,
            mode: o.mode,
            steps,
        }),
        Err(refusal) => Err(NotFound { refusal, steps }),
    }
}

// What is found at count c, from registers that lie c steps back: 16 steps more, both modes tried.
fn tried(
    s: Registers,
    c: u64,
    walked: u64,
    low: Block,
    high: Block,
    inverse: &[u8; 256],
) -> Result<Located, NotFound>
    requires { (walked + 16 < 2 ^ 64) × Holds unsub inverse.now }
    ensures { searched_of result ≡ told (Trace.unload (bytes_of low ++ bytes_of high) (Trace.loaded (bytes_of low ++ bytes_of high) (registers_of s))) c (walked + 16) }
{
    let w = start::loaded(s, walked, low, high, inverse);
    answer(start::unload(w.registers, low, high), c, w.steps)
}

// The counts from the lowest to the highest, in turn. The registers go back to the lowest once, and then one step for each count.
fn upward(
    s: Registers,
    lowest: u64,
    highest: u64,
    low: Block,
    high: Block,
    inverse: &[u8; 256],
) -> Result<Located, NotFound>
    requires { (lowest ≤ highest) × (highest ≤ most_blocks) × Holds unsub inverse.now }
    ensures { searched_of result ≡ Counts.upward (bytes_of low ++ bytes_of high) (registers_of s) lowest lowest (highest - lowest) }
{
    let mut w = start::walked_back(s, lowest, 0, inverse);
    for c in lowest..highest {
        match tried(w.registers, c, w.steps, low, high, inverse) {
            Ok(l) => {
                return Ok(l);
            }
            Err(r) => {
                w = start::walked_back(w.registers, 1, r.steps, inverse);
            }
        }
    }
    tried(w.registers, highest, w.steps, low, high, inverse)
}

// Whether a search goes on its walk. Refused: 1 for the key's length, 8 for the dump's, 9 for a highest count over the limit, 18 for a lowest above it.
fn range_allowed(dump: &[u8], key: &[u8], lowest: u64, highest: u64) -> Result<(), Refusal>
    ensures { answer_number result ≡ range_number dump.now key.now lowest highest }
{
    if key.len() != 32 {
        return Err(Refusal::KeyLength);
    }
    if dump.len() != 112 {
        return Err(Refusal::BadBlock);
    }
    if scope::MOST_BLOCKS < highest {
        return Err(Refusal::CountTooHigh);
    }
    if highest < lowest {
        return Err(Refusal::RangeOrder);
    }
    Ok(())
}

// The least count from the lowest to the highest, both included, at which an IV and mode lead to the registers of a dump under a key, with these and with the
// steps walked. A dump is bytes 16 to 127 of a suspended session's block. Refused: 1 for the key's length, 8 for a dump that is not 112 bytes, 9 for a highest
// count over 65,538, 18 for a lowest above the highest, 6, with the steps walked, where no count in the range fits.
pub fn search(dump: &[u8], key: &[u8], lowest: u64, highest: u64) -> Result<Located, NotFound>
    ensures leads { Searches dump.now key.now lowest highest (searched_of result) }
    ensures counts { searched_of result ≡ Counts.search dump.now key.now lowest highest }
{
    range_allowed(dump, key, lowest, highest)?;
    let low = words::load(key, 0);
    let high = words::load(key, 16);
    let s = suspended::get_registers(dump, 0);
    let inverse = aes::inverse_sbox();
    upward(s, lowest, highest, low, high, &inverse)
}
