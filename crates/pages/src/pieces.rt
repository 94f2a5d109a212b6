// A page sealed by a session, in pieces of one size, with an empty piece of data and of text before the others and behind them.
ghost use Rattle.std.specs.Prelude.{◌≤◌, ◌≡◌, length};

use crate::output;
use scope::Refusal;
use session::Session;

fn all_data(s: &mut Session, ad: &[u8], size: usize) -> Result<(), Refusal>
    requires { 1 ≤ size }
{
    session::data(s, b"")?;
    for piece in ad.chunks(size) {
        session::data(s, piece)?;
    }
    session::data(s, b"")
}

pub fn all_text(s: &mut Session, whole: &[u8], out: &mut [u8], size: usize) -> Result<(), Refusal>
    requires { (1 ≤ size) × (length whole.now ≤ length out.old) }
    ensures { length out.new ≡ length out.old }
{
    session::text(s, b"", out)?;
    for (piece, part) in whole.chunks(size).zip(out[..whole.len()].chunks_mut(size)) {
        session::text(s, piece, part)?;
    }
    session::text(s, b"", out)
}

// Whether a session finishes with this tag and the IV that it was begun with.
pub fn finishes(s: &mut Session, tag: &[u8], iv: &[u8]) -> Result<bool, Refusal> {
    let c = session::finish(s)?;
    Ok(c.tag.as_slice() == tag && c.iv.as_slice() == iv)
}

// Whether the session gives this ciphertext, tag and IV.
pub fn seals(
    key: &[u8],
    iv: &[u8],
    ad: &[u8],
    whole: &[u8],
    cipher: &[u8],
    tag: &[u8],
    size: usize,
) -> Result<bool, Refusal>
    requires { (1 ≤ size) × (length whole.now ≤ 64) }
{
    let mut s = session::begin(key, iv)?;
    all_data(&mut s, ad, size)?;
    let mut out = output::fresh();
    all_text(&mut s, whole, &mut out, size)?;
    Ok(finishes(&mut s, tag, iv)? && output::holds(&out, cipher))
}
