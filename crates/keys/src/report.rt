// What the program writes of bytes, and the number that a call answers with.
use scope::Refusal;
use std::io;

// The number of a call's answer, 0 where it is accepted.
pub fn number<T: Copy>(answer: Result<T, Refusal>) -> u64 {
    match answer {
        Ok(_) => 0,
        Err(e) => e.number(),
    }
}

pub fn hex(rt: &impl Print, s: &[u8]) -> io::Result<()> {
    for b in s {
        print!(rt; "{b:02x}")?;
    }
    Ok(())
}
