// Outputs of 64 bytes: what stands in one before a call, and whether it holds what the call must leave.

// What stands at each place of an output before a call.
const BEFORE: u8 = 0xa5;

pub fn fresh() -> [u8; 64] {
    [BEFORE; 64]
}

// Whether an output has these bytes at its front, and behind them what stood there before.
pub fn holds(out: &[u8], front: &[u8]) -> bool {
    match out.strip_prefix(front) {
        Some(rest) => rest.iter().all(|b| *b == BEFORE),
        None => false,
    }
}
