// Pages of 0 to 50 bytes of data and 0 to 50 of text, by a session that is suspended and resumed at one cut, at each in turn, beside the page
// sealed whole.
ghost use Rattle.std.specs.Prelude.{◌≤◌, length};

use crate::{output, pieces};
use scope::Refusal;
use session::Session;

const DATA: [u8; 50] = *b"arrival 2026-07-03, departure 2026-07-17, pitch 12";

const TEXT: [u8; 50] = *b"two adults, one child, one tent, tax of 1.10 a day";

// The session that resume gives for the block of a session suspended. One of another IV counts as one that has no origin.
pub fn resumed(s: &Session, key: &[u8], iv: &[u8]) -> Result<Session, Refusal> {
    let mut block = [0; 512];
    suspend::suspend(s, &mut block)?;
    let r = suspend::resume(key, &block)?;
    if r.iv.as_slice() != iv {
        return Err(Refusal::NoOrigin);
    }
    Ok(r)
}

// Whether the page sealed whole has this output, and the session finishes with its tag and IV.
fn agrees(
    s: &mut Session,
    key: &[u8],
    iv: &[u8],
    ad: &[u8],
    text: &[u8],
    sealed: &[u8; 64],
) -> Result<bool, Refusal> {
    let mut out = output::fresh();
    let tag = page::seal(key, iv, ad, text, &mut out)?;
    Ok(out == *sealed && pieces::finishes(s, &tag, iv)?)
}

fn data_cut(key: &[u8], iv: &[u8], ad: &[u8], text: &[u8], cut: usize) -> Result<bool, Refusal>
    requires { cut ≤ length ad.now }
{
    let mut s = session::begin(key, iv)?;
    session::data(&mut s, &ad[..cut])?;
    let mut t = resumed(&s, key, iv)?;
    session::data(&mut t, &ad[cut..])?;
    let mut out = output::fresh();
    session::text(&mut t, text, &mut out)?;
    agrees(&mut t, key, iv, ad, text, &out)
}

fn text_cut(key: &[u8], iv: &[u8], ad: &[u8], text: &[u8], cut: usize) -> Result<bool, Refusal>
    requires { (cut ≤ length text.now) × (length text.now ≤ 64) }
{
    let mut s = session::begin(key, iv)?;
    session::data(&mut s, ad)?;
    let mut out = output::fresh();
    session::text(&mut s, &text[..cut], &mut out[..cut])?;
    let mut t = resumed(&s, key, iv)?;
    session::text(&mut t, &text[cut..], &mut out[cut..text.len()])?;
    agrees(&mut t, key, iv, ad, text, &out)
}

// A page cut at each place of its data, and then of its text.
fn cut_page(key: &[u8], iv: &[u8], ad: &[u8], text: &[u8]) -> bool
    requires { length text.now ≤ 64 }
{
    (0..=ad.len()).all(|cut| data_cut(key, iv, ad, text, cut) == Ok(true))
        && (0..=text.len()).all(|cut| text_cut(key, iv, ad, text, cut) == Ok(true))
}

fn every_text(key: &[u8], iv: &[u8], ad: &[u8], text: &[u8]) -> bool
    requires { length text.now ≤ 64 }
{
    (0..=text.len()).all(|n| cut_page(key, iv, ad, &text[..n]))
}

fn every_page(key: &[u8], iv: &[u8], ad: &[u8], text: &[u8]) -> bool
    requires { length text.now ≤ 64 }
{
    (0..=ad.len()).all(|n| every_text(key, iv, &ad[..n], text))
}

pub fn cuts(key: &[u8], iv: &[u8]) -> bool {
    let data = DATA;
    let text = TEXT;
    every_page(key, iv, &data, &text)
}
