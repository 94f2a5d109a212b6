// How answers and comparisons are written.
use scope::Refusal;
use std::io;

// A call's line; and what the call gives, where it is accepted.
pub fn verdict<T: Copy>(
    rt: &impl Print,
    name: &str,
    answer: Result<T, Refusal>,
) -> io::Result<Option<T>> {
    match answer {
        Ok(_) => println!(rt; "{name}: accepted")?,
        Err(e) => println!(rt; "{name}: {e}")?,
    }
    Ok(answer.ok())
}

pub fn agreement(agrees: bool) -> &'static str {
    if agrees { "agrees" } else { "differs" }
}
