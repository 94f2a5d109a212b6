// The layout rules of the block of 512 bytes that a suspended session is kept in.
#![tactic(auto)]

ghost use Rattle.std.specs.Prelude.{◌≡◌, ◌%◌, ◌<◌};
ghost use Rattle.layout.specs.Rules.{phase_length, well_laid};

// The length that grows in a phase, modulo 16.
fn pending_count(phase: u8, ad: u64, text: u64) -> usize
    ensures { (result ≡ phase_length phase ad text % 16) × (result < 16) }
{
    if phase == 0 {
        (ad % 16) as usize
    } else {
        (text % 16) as usize
    }
}

// Whether bytes obey every layout rule. All rules are tested once there are 512 bytes to test them on.
pub fn well_laid(block: &[u8]) -> bool
    ensures { result ≡ well_laid block.now }
{
    if block.len() != 512 {
        return false;
    }
    let phase = block[0];
    let ad = fields::get(block, 4, 4);
    let text = fields::get(block, 8, 4);
    let n = pending_count(phase, ad, text);
    let behind = fields::all_zero(block, 144 + n, 16 - n);
    let zero1 = fields::all_zero(block, 1, 3);
    let zero12 = fields::all_zero(block, 12, 4);
    let zero160 = fields::all_zero(block, 160, 348);
    let sum = fields::check_holds(block);
    (phase <= 1)
        & (ad <= scope::MOST_DATA)
        & (text <= scope::MOST_TEXT)
        & ((phase != 0) | (text == 0))
        & behind
        & zero1
        & zero12
        & zero160
        & sum
}
