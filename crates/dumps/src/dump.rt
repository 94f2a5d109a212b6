// The dumps that are searched: 112 bytes of registers, without their count.
ghost use Rattle.std.specs.Prelude.{◌≡◌, ◌*◌, length};

use cipher::Registers;
use scope::Refusal;
use start::Mode;

pub const KEY: [u8; 32] = *b"\
    \x00\x01\x02\x03\x04\x05\x06\x07\x08\x09\x0a\x0b\x0c\x0d\x0e\x0f\
    \x10\x11\x12\x13\x14\x15\x16\x17\x18\x19\x1a\x1b\x1c\x1d\x1e\x1f";

// A key that no dump comes from.
pub const OTHER_KEY: [u8; 32] = *b"\
    \xff\xfe\xfd\xfc\xfb\xfa\xf9\xf8\xf7\xf6\xf5\xf4\xf3\xf2\xf1\xf0\
    \xef\xee\xed\xec\xeb\xea\xe9\xe8\xe7\xe6\xe5\xe4\xe3\xe2\xe1\xe0";

const IV: [u8; 16] = *b"\x20\x21\x22\x23\x24\x25\x26\x27\x28\x29\x2a\x2b\x2c\x2d\x2e\x2f";

// A dump that no IV and mode lead to under the key.
pub const FOREIGN: [u8; 112] = [0x5a; 112];

// Room for as many blocks as are ever drawn.
fn room() -> [u8; 16 * 65538]
    ensures { 16 * 65538 ≡ length result }
{
    [0; 16 * 65538]
}

// The registers n blocks behind a start.
fn reached(mode: Mode, n: usize) -> Result<Registers, Refusal> {
    let key = KEY;
    let iv = IV;
    let s = start::start(&key, &iv, mode)?;
    let mut out = room();
    let t = cipher::run_core(s, &mut out, n, false)?;
    Ok(t.registers)
}

// Their dump; the foreign one where a call is refused, as none is here.
pub fn at(mode: Mode, n: usize) -> [u8; 112] {
    let mut d = FOREIGN;
    if let Ok(s) = reached(mode, n) {
        suspended::put_registers(&mut d, 0, s);
    }
    d
}

// The same with a byte behind it.
pub fn longer(mode: Mode, n: usize) -> [u8; 113] {
    let mut d = [0; 113];
    d[..112].copy_from_slice(&at(mode, n));
    d
}

// The suspended block of a session with 20 bytes of text, which has drawn 4 blocks.
fn suspended_session() -> Result<[u8; 512], Refusal> {
    let key = KEY;
    let iv = IV;
    let mut s = session::begin(&key, &iv)?;
    let mut out = [0; 20];
    session::text(&mut s, b"one guest, one night", &mut out)?;
    let mut block = [0; 512];
    suspend::suspend(&s, &mut block)?;
    Ok(block)
}

// The same, zeros where a call is refused, as none is here. Its bytes 16 to 127 are a dump.
pub fn suspended_block() -> [u8; 512] {
    suspended_session().unwrap_or([0; 512])
}
