// What the program writes of an answer and of bytes.
use std::{fmt, io};

// What a seal answers with.
pub fn answer<E: fmt::Display + Drop>(rt: &impl Print, answer: Result<(), E>) -> io::Result<()> {
    match answer {
        Ok(()) => print!(rt; "accepted"),
        Err(e) => print!(rt; "{e}"),
    }
}

// The digits of bytes in hex.
#[derive(Clone, Copy)]
struct Digits<'a>(&'a [u8]);

impl<'a> fmt::Display for Digits<'a> {
    fn fmt<W: fmt::Write>(&self, f: &mut fmt::Formatter<W>) -> fmt::Result {
        for b in self.0 {
            write!(f, "{b:02x}")?;
        }
        Ok(())
    }
}

// One print for all the bytes, since each print is a write.
pub fn hex(rt: &impl Print, s: &[u8]) -> io::Result<()> {
    print!(rt; "{}", Digits(s))
}
