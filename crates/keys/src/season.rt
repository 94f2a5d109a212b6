// The season: its key, and the numbers and the keys of its stays.
pub const KEY: [u8; 32] = *b"\
    \x00\x01\x02\x03\x04\x05\x06\x07\x08\x09\x0a\x0b\x0c\x0d\x0e\x0f\
    \x10\x11\x12\x13\x14\x15\x16\x17\x18\x19\x1a\x1b\x1c\x1d\x1e\x1f";

// A key that nothing is stored under.
pub const OTHER_KEY: [u8; 32] = *b"\
    \xff\xfe\xfd\xfc\xfb\xfa\xf9\xf8\xf7\xf6\xf5\xf4\xf3\xf2\xf1\xf0\
    \xef\xee\xed\xec\xeb\xea\xe9\xe8\xe7\xe6\xe5\xe4\xe3\xe2\xe1\xe0";

// Bytes that each go on from the one before by a step, modulo 256.
fn bytes(first: u8, step: u8) -> [u8; 32] {
    let mut r = [first; 32];
    for i in 1..32 {
        r[i] = r[i - 1].wrapping_add(step);
    }
    r
}

// Stay n's number.
pub fn iv(n: u8) -> [u8; 16] {
    let b = bytes((16 * n as u64 % 256) as u8, 1);
    words::to_bytes(words::load(&b, 0))
}

pub fn stay_key(n: u8) -> [u8; 32] {
    bytes(((7 * n as u64 + 1) % 256) as u8, 3)
}
