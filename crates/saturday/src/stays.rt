// The stays: the key, the IV and the text of each. Stay i has the key of bytes (7 * i + j) mod 256, the IV of i mod 33 and 15 zeros, and a text of 1, 4,096, 4,097 or 20,000
// bytes as i mod 4 is 0, 1, 2 or 3. Byte k of the text is (first byte of the IV + k) mod 251.

// Bytes that count up to a last one, and from 0 again: as many as the longest piece has and one more.
fn count(first: u8, last: u8) -> [u8; 4097] {
    let mut r = [0u8; 4097];
    let mut b = first;
    for x in r.iter_mut() {
        *x = b;
        b = if b == last { 0 } else { b.wrapping_add(1) };
    }
    r
}

// A key, and bytes behind it.
pub fn key(i: u8) -> [u8; 4097] {
    count(i.wrapping_mul(7), 255)
}

// An IV, and a zero behind it.
pub fn iv(i: u8) -> [u8; 17] {
    let mut r = [0u8; 17];
    r[0] = i % 33;
    r
}

pub fn length(i: u8) -> u64 {
    match i % 4 {
        0 => 1,
        1 => 4096,
        2 => 4097,
        _ => 20000,
    }
}

// What a text goes on with from one of its bytes.
pub fn text(from: u8) -> [u8; 4097] {
    count(from, 250)
}
