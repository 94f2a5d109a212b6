// How the answer to a search is written.
use search::{Located, NotFound};
use start::Mode;
use std::fmt;

fn mode(m: Mode) -> &'static str {
    match m {
        Mode::Plain => "plain mode",
        Mode::Sealed => "sealed mode",
    }
}

// What a search answers.
#[derive(Clone, Copy)]
pub struct Answer(pub Result<Located, NotFound>);

impl fmt::Display for Answer {
    fn fmt<W: fmt::Write>(&self, f: &mut fmt::Formatter<W>) -> fmt::Result {
        match self.0 {
            Ok(l) => {
                // The IV's bytes in order: each half has its low byte first.
                let lo = l.lo.swap_bytes();
                let hi = l.hi.swap_bytes();
                write!(
                    f,
                    "count {}, IV {lo:016x}{hi:016x}, {}, {} steps",
                    l.count,
                    mode(l.mode),
                    l.steps
                )
            }
            Err(r) => write!(f, "{}, {} steps", r.refusal, r.steps),
        }
    }
}
