// Document 01's greatest length of text, 1,048,576 bytes, and one byte more, in a session and whole.
ghost use Rattle.std.specs.Prelude.{◌≡◌, ◌≤◌, length};

use crate::report::{agreement, verdict};
use crate::sealed::{IV_2, KEY_2};
use crate::{cuts, pieces};
use scope::Refusal;
use session::Session;
use std::io;

// Room for a byte more than the greatest length.
fn room() -> [u8; 1048577]
    ensures { 1048577 ≡ length result }
{
    [0; 1048577]
}

// A session that took a text in pieces of 65,536.
fn told(key: &[u8; 32], iv: &[u8; 16], text: &[u8], out: &mut [u8]) -> Result<Session, Refusal>
    requires { length text.now ≤ length out.old }
    ensures { length out.new ≡ length out.old }
{
    let mut s = session::begin(key, iv)?;
    pieces::all_text(&mut s, text, out, 65536)?;
    Ok(s)
}

// The tag of a session that took the first n bytes, was suspended and resumed, and was offered a byte more.
fn in_pieces(
    rt: &impl Print,
    key: &[u8; 32],
    iv: &[u8; 16],
    text: &[u8],
    out: &mut [u8],
    n: usize,
) -> io::Result<Option<[u8; 16]>>
    requires { (n ≤ length text.now) × (n ≤ length out.old) }
{
    let Some(before) = verdict(
        rt,
        "session, text of 1048576 bytes in pieces of 65536",
        told(key, iv, &text[..n], out),
    )?
    else {
        return Ok(None);
    };
    let Some(mut s) = verdict(
        rt,
        "session, suspended and resumed",
        cuts::resumed(&before, key, iv),
    )?
    else {
        return Ok(None);
    };
    verdict(
        rt,
        "session, one byte more",
        session::text(&mut s, b"\x00", out),
    )?;
    let closing = verdict(rt, "session, finished", session::finish(&mut s))?;
    Ok(closing.map(|c| c.tag))
}

// The tag of the first n bytes sealed whole; then all of them, a byte more.
fn whole(
    rt: &impl Print,
    key: &[u8; 32],
    iv: &[u8; 16],
    text: &[u8],
    out: &mut [u8],
    n: usize,
) -> io::Result<Option<[u8; 16]>>
    requires { n ≤ length text.now }
{
    let tag = verdict(
        rt,
        "whole, text of 1048576 bytes",
        page::seal(key, iv, b"", &text[..n], out),
    )?;
    verdict(
        rt,
        "whole, text of 1048577 bytes",
        page::seal(key, iv, b"", text, out),
    )?;
    Ok(tag)
}

pub fn limits(rt: &impl Print) -> io::Result<()> {
    let key = KEY_2;
    let iv = IV_2;
    let text = room();
    let mut out = room();
    let a = in_pieces(rt, &key, &iv, &text, &mut out, 1048576)?;
    let b = whole(rt, &key, &iv, &text, &mut out, 1048576)?;
    let same = agreement(a.is_some() && a == b);
    println!(rt; "tags of 1048576 bytes, session and whole: {same}")
}
