// How blocks and answers are written.
use scope::Refusal;
use start::{Mode, Origin};
use std::fmt;
use words::Block;

// A block in hex, byte 0 first, which is the low byte of its first word.
#[derive(Clone, Copy)]
pub struct Hex(pub Block);

impl fmt::Display for Hex {
    fn fmt<W: fmt::Write>(&self, f: &mut fmt::Formatter<W>) -> fmt::Result {
        let z = self.0;
        let w0 = z.w0.swap_bytes();
        let w1 = z.w1.swap_bytes();
        let w2 = z.w2.swap_bytes();
        let w3 = z.w3.swap_bytes();
        write!(f, "{w0:08x}{w1:08x}{w2:08x}{w3:08x}")
    }
}

// What a run answers: it is lent a number, as document 01 has it.
#[derive(Clone, Copy)]
pub struct Answer(pub u64);

impl fmt::Display for Answer {
    fn fmt<W: fmt::Write>(&self, f: &mut fmt::Formatter<W>) -> fmt::Result {
        match self.0 {
            0 => write!(f, "accepted"),
            n => write!(f, "refused {n}"),
        }
    }
}

pub fn mode(m: Mode) -> &'static str {
    match m {
        Mode::Plain => "plain mode",
        Mode::Sealed => "sealed mode",
    }
}

// Where a state comes from, or why a trace refuses it.
#[derive(Clone, Copy)]
pub struct Traced(pub Result<Origin, Refusal>);

impl fmt::Display for Traced {
    fn fmt<W: fmt::Write>(&self, f: &mut fmt::Formatter<W>) -> fmt::Result {
        match self.0 {
            Ok(o) => {
                // The IV's bytes in order: each half has its low byte first.
                let lo = o.lo.swap_bytes();
                let hi = o.hi.swap_bytes();
                write!(f, "IV {lo:016x}{hi:016x}, {}", mode(o.mode))
            }
            Err(e) => write!(f, "{e}"),
        }
    }
}
