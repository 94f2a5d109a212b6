// A vector of the paper: sealed whole and in pieces, opened, and opened with one bit changed.
ghost use Rattle.std.specs.Prelude.{◌≤◌, ◌<◌, length};

use crate::report::agreement;
use crate::{output, pieces};
use scope::Refusal;
use std::io;

fn seals(key: &[u8], iv: &[u8], ad: &[u8], text: &[u8], cipher: &[u8], tag: &[u8]) -> bool {
    let mut out = output::fresh();
    page::seal(key, iv, ad, text, &mut out).is_ok_and(|t| t.as_slice() == tag)
        && output::holds(&out, cipher)
}

// Whether an opening gives this answer and leaves these bytes at the front of the output, and nothing else.
fn opens(
    key: &[u8],
    iv: &[u8],
    ad: &[u8],
    cipher: &[u8],
    tag: &[u8],
    answer: Result<(), Refusal>,
    text: &[u8],
) -> bool {
    let mut out = output::fresh();
    page::open(key, iv, ad, cipher, tag, &mut out) == answer && output::holds(&out, text)
}

fn refused(key: &[u8], iv: &[u8], ad: &[u8], cipher: &[u8], tag: &[u8]) -> bool {
    opens(key, iv, ad, cipher, tag, Err(Refusal::BadTag), b"")
}

// These bytes with one bit of byte `at` flipped, in room for 64.
fn changed(x: &[u8], at: usize) -> [u8; 64]
    requires { (length x.now ≤ 64) × (at < length x.now) }
{
    let mut y = [0; 64];
    y[..x.len()].copy_from_slice(x);
    y[at] ^= 0x10;
    y
}

// Whether a page is refused whichever byte of its tag is changed; and so of its ciphertext and its data.
fn tag_refused(key: &[u8], iv: &[u8], ad: &[u8], cipher: &[u8], tag: &[u8]) -> bool
    requires { length tag.now ≤ 64 }
{
    (0..tag.len()).all(|at| {
        let x = changed(tag, at);
        refused(key, iv, ad, cipher, &x[..tag.len()])
    })
}

fn cipher_refused(key: &[u8], iv: &[u8], ad: &[u8], cipher: &[u8], tag: &[u8]) -> bool
    requires { length cipher.now ≤ 64 }
{
    (0..cipher.len()).all(|at| {
        let x = changed(cipher, at);
        refused(key, iv, ad, &x[..cipher.len()], tag)
    })
}

fn data_refused(key: &[u8], iv: &[u8], ad: &[u8], cipher: &[u8], tag: &[u8]) -> bool
    requires { length ad.now ≤ 64 }
{
    (0..ad.len()).all(|at| {
        let x = changed(ad, at);
        refused(key, iv, &x[..ad.len()], cipher, tag)
    })
}

// The parts that a vector has, and whether a change in any is refused: the end of its line.
fn changes(
    rt: &impl Print,
    key: &[u8],
    iv: &[u8],
    ad: &[u8],
    cipher: &[u8],
    tag: &[u8],
) -> io::Result<()>
    requires { (length ad.now ≤ 64) × (length cipher.now ≤ 64) × (length tag.now ≤ 64) }
{
    let ciphertext = if cipher.is_empty() {
        ""
    } else {
        ", ciphertext"
    };
    let data = if ad.is_empty() { "" } else { ", data" };
    let always = tag_refused(key, iv, ad, cipher, tag)
        && cipher_refused(key, iv, ad, cipher, tag)
        && data_refused(key, iv, ad, cipher, tag);
    let verdict = if always {
        "refused"
    } else {
        "not always refused"
    };
    println!(rt;
        "; tag{ciphertext}{data} changed: {verdict} {}",
        Refusal::BadTag.number()
    )
}

// Whether a vector comes out in pieces of 1, of 7 and of 16 bytes.
fn seals_in_pieces(
    key: &[u8],
    iv: &[u8],
    ad: &[u8],
    text: &[u8],
    cipher: &[u8],
    tag: &[u8],
) -> Result<bool, Refusal>
    requires { length text.now ≤ 64 }
{
    let by_1 = pieces::seals(key, iv, ad, text, cipher, tag, 1)?;
    let by_7 = pieces::seals(key, iv, ad, text, cipher, tag, 7)?;
    let by_16 = pieces::seals(key, iv, ad, text, cipher, tag, 16)?;
    Ok(by_1 && by_7 && by_16)
}

// Vector number v: a line.
pub fn vector(
    rt: &impl Print,
    v: u64,
    key: &[u8],
    iv: &[u8],
    ad: &[u8],
    text: &[u8],
    cipher: &[u8],
    tag: &[u8],
) -> io::Result<()>
    requires { (length ad.now ≤ 64) × (length text.now ≤ 64) × (length cipher.now ≤ 64) × (length tag.now ≤ 64) }
{
    let whole = seals(key, iv, ad, text, cipher, tag);
    let cut = seals_in_pieces(key, iv, ad, text, cipher, tag) == Ok(true);
    let sealed = agreement(whole && cut);
    let opened = agreement(opens(key, iv, ad, cipher, tag, Ok(()), text));
    print!(rt;
        "SNOW-V-GCM {v}: sealed whole, in pieces of 1, 7 and 16 bytes: {sealed}; opened: {opened}"
    )?;
    changes(rt, key, iv, ad, cipher, tag)
}
