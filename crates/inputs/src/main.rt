// Inputs of the program, good and malformed, and what the library answers on each. Those that are malformed are so for one reason each, beside
// a good one.
#![tactic(auto)]

use std::io;

// The name of an input, and what is answered on it.
fn show(rt: &impl Print, name: &[u8], input: &[u8]) -> io::Result<()> {
    rt.write_all(name)?;
    let mut out = [0u8; command::MOST_OUTPUT];
    let k = command::answer(input, &mut out);
    rt.write_all(&out[..k])
}

// The paper's SNOW-V-GCM vector 5, and lines of no digits.
const GOOD: [(&[u8], &[u8]); 3] = [
    (
        b"vector 5: ",
        b"505152535455565758595a5b5c5d5e5f0a1a2a3a4a5a6a7a8a9aaabacadaeafa\n0123456789abcdeffedcba9876543210\n\n30313233343536373839\n",
    ),
    (
        b"with data: ",
        b"505152535455565758595a5b5c5d5e5f0a1a2a3a4a5a6a7a8a9aaabacadaeafa\n0123456789abcdeffedcba9876543210\n00ff\n30313233343536373839\n",
    ),
    (
        b"no text: ",
        b"505152535455565758595a5b5c5d5e5f0a1a2a3a4a5a6a7a8a9aaabacadaeafa\n0123456789abcdeffedcba9876543210\n\n\n",
    ),
];

// Too few lines, or something after the fourth.
const UNENDED: [(&[u8], &[u8]); 7] = [
    (b"empty: ", b""),
    (b"one byte 0a: ", b"\n"),
    (
        b"three lines: ",
        b"505152535455565758595a5b5c5d5e5f0a1a2a3a4a5a6a7a8a9aaabacadaeafa\n0123456789abcdeffedcba9876543210\n\n",
    ),
    (
        b"fourth line not ended: ",
        b"505152535455565758595a5b5c5d5e5f0a1a2a3a4a5a6a7a8a9aaabacadaeafa\n0123456789abcdeffedcba9876543210\n\n30313233343536373839",
    ),
    (
        b"fifth line: ",
        b"505152535455565758595a5b5c5d5e5f0a1a2a3a4a5a6a7a8a9aaabacadaeafa\n0123456789abcdeffedcba9876543210\n\n30313233343536373839\n\n",
    ),
    (
        b"a byte after: ",
        b"505152535455565758595a5b5c5d5e5f0a1a2a3a4a5a6a7a8a9aaabacadaeafa\n0123456789abcdeffedcba9876543210\n\n30313233343536373839\n0",
    ),
    (
        b"empty line in front: ",
        b"\n505152535455565758595a5b5c5d5e5f0a1a2a3a4a5a6a7a8a9aaabacadaeafa\n0123456789abcdeffedcba9876543210\n\n30313233343536373839\n",
    ),
];

// Bytes that are no lower-case digits, those beside the digits' ranges among them; an odd number of digits.
const DIGITS: [(&[u8], &[u8]); 11] = [
    (
        b"upper case: ",
        b"505152535455565758595A5b5c5d5e5f0a1a2a3a4a5a6a7a8a9aaabacadaeafa\n0123456789abcdeffedcba9876543210\n\n30313233343536373839\n",
    ),
    (
        b"carriage return: ",
        b"505152535455565758595a5b5c5d5e5f0a1a2a3a4a5a6a7a8a9aaabacadaeafa\n0123456789abcdeffedcba9876543210\n\n30313233343536373839\r\n",
    ),
    (
        b"space: ",
        b"505152535455565758595a5b5c5d5e5f0a1a2a3a4a5a6a7a8a9aaabacadaeafa\n0123456789abcdeffedcba9876543210\n\n30313233343536373839 0\n",
    ),
    (
        b"byte 2f: ",
        b"505152535455565758595a5b5c5d5e5f0a1a2a3a4a5a6a7a8a9aaabacadaeafa\n0123456789abcdeffedcba9876543210\n\n303132333435363738390/\n",
    ),
    (
        b"byte 3a: ",
        b"505152535455565758595a5b5c5d5e5f0a1a2a3a4a5a6a7a8a9aaabacadaeafa\n0123456789abcdeffedcba9876543210\n\n303132333435363738390:\n",
    ),
    (
        b"byte 60: ",
        b"505152535455565758595a5b5c5d5e5f0a1a2a3a4a5a6a7a8a9aaabacadaeafa\n0123456789abcdeffedcba9876543210\n\n303132333435363738390`\n",
    ),
    (
        b"byte 67: ",
        b"505152535455565758595a5b5c5d5e5f0a1a2a3a4a5a6a7a8a9aaabacadaeafa\n0123456789abcdeffedcba9876543210\n\n303132333435363738390g\n",
    ),
    (
        b"byte 00: ",
        b"505152535455565758595a5b5c5d5e5f0a1a2a3a4a5a6a7a8a9aaabacadaeafa\n0123456789abcdeffedcba9876543210\n\n303132333435363738390\x00\n",
    ),
    (
        b"byte ff: ",
        b"505152535455565758595a5b5c5d5e5f0a1a2a3a4a5a6a7a8a9aaabacadaeafa\n0123456789abcdeffedcba9876543210\n\n303132333435363738390\xff\n",
    ),
    (
        b"odd text: ",
        b"505152535455565758595a5b5c5d5e5f0a1a2a3a4a5a6a7a8a9aaabacadaeafa\n0123456789abcdeffedcba9876543210\n\n303132333435363738390\n",
    ),
    (
        b"odd key: ",
        b"505152535455565758595a5b5c5d5e5f0a1a2a3a4a5a6a7a8a9aaabacadaeaf\n0123456789abcdeffedcba9876543210\n\n30313233343536373839\n",
    ),
];

// Four well-formed lines that a seal refuses.
const REFUSED: [(&[u8], &[u8]); 7] = [
    (
        b"key of 31 bytes: ",
        b"505152535455565758595a5b5c5d5e5f0a1a2a3a4a5a6a7a8a9aaabacadaea\n0123456789abcdeffedcba9876543210\n\n30313233343536373839\n",
    ),
    (
        b"key of 33 bytes: ",
        b"505152535455565758595a5b5c5d5e5f0a1a2a3a4a5a6a7a8a9aaabacadaeafa00\n0123456789abcdeffedcba9876543210\n\n30313233343536373839\n",
    ),
    (
        b"no key: ",
        b"\n0123456789abcdeffedcba9876543210\n\n30313233343536373839\n",
    ),
    (
        b"IV of 15 bytes: ",
        b"505152535455565758595a5b5c5d5e5f0a1a2a3a4a5a6a7a8a9aaabacadaeafa\n0123456789abcdeffedcba98765432\n\n30313233343536373839\n",
    ),
    (
        b"IV of 17 bytes: ",
        b"505152535455565758595a5b5c5d5e5f0a1a2a3a4a5a6a7a8a9aaabacadaeafa\n0123456789abcdeffedcba987654321000\n\n30313233343536373839\n",
    ),
    (b"key and IV: ", b"\n\n\n30313233343536373839\n"),
    (
        b"malformed first: ",
        b"\n0123456789abcdeffedcba9876543210\n\n0\n",
    ),
];

// A text of 8,192 digits and one of 8,194, with a key and an IV of zeros.
fn long_text(rt: &impl Print) -> io::Result<()> {
    let mut input = [b'0'; 8294];
    input[64] = b'\n';
    input[97] = b'\n';
    input[98] = b'\n';
    input[8291] = b'\n';
    show(rt, b"8,192 digits: ", &input[..8292])?;
    input[8291] = b'0';
    input[8293] = b'\n';
    show(rt, b"8,194 digits: ", &input[..8294])
}

// Four lines of 8,192 digits, which are too long for a key but well formed, and one byte more.
fn longest(rt: &impl Print) -> io::Result<()> {
    let mut input = [b'0'; 32773];
    input[8192] = b'\n';
    input[16385] = b'\n';
    input[24578] = b'\n';
    input[32771] = b'\n';
    show(rt, b"longest input: ", &input[..32772])?;
    show(rt, b"longer input: ", &input[..32773])
}

fn main(rt: HostRuntime) -> io::Result<()> {
    for cases in [&GOOD[..], &UNENDED[..], &DIGITS[..], &REFUSED[..]] {
        for (name, input) in cases {
            show(&rt, name, input)?;
        }
    }
    longest(&rt)?;
    long_text(&rt)
}
