// Runs the paper's six SNOW-V-GCM vectors, sealed whole and in pieces and opened, document 01's greatest length of text, sessions suspended and
// resumed, and blocks that are refused, and writes what agrees. The file `stdout` has what it must write.
#![tactic(auto)]

mod blocks;
mod cuts;
mod limits;
mod output;
mod pieces;
mod report;
mod sealed;
mod vector;

use std::io;

// The vectors without text.
fn without_text(rt: &impl Print) -> io::Result<()> {
    let key_1 = sealed::KEY_1;
    let iv_1 = sealed::IV_1;
    let key_2 = sealed::KEY_2;
    let iv_2 = sealed::IV_2;
    let data = sealed::DATA_3;
    let tag_1 = sealed::TAG_1;
    let tag_2 = sealed::TAG_2;
    let tag_3 = sealed::TAG_3;
    let tag_4 = sealed::TAG_4;
    vector::vector(rt, 1, &key_1, &iv_1, b"", b"", b"", &tag_1)?;
    vector::vector(rt, 2, &key_2, &iv_2, b"", b"", b"", &tag_2)?;
    vector::vector(rt, 3, &key_1, &iv_1, &data, b"", b"", &tag_3)?;
    vector::vector(rt, 4, &key_2, &iv_2, &data, b"", b"", &tag_4)
}

fn with_text(rt: &impl Print) -> io::Result<()> {
    let key = sealed::KEY_2;
    let iv = sealed::IV_2;
    let text_5 = sealed::TEXT_5;
    let cipher_5 = sealed::CIPHER_5;
    let tag_5 = sealed::TAG_5;
    let data_6 = sealed::DATA_6;
    let text_6 = sealed::TEXT_6;
    let cipher_6 = sealed::CIPHER_6;
    let tag_6 = sealed::TAG_6;
    vector::vector(rt, 5, &key, &iv, b"", &text_5, &cipher_5, &tag_5)?;
    vector::vector(rt, 6, &key, &iv, &data_6, &text_6, &cipher_6, &tag_6)
}

fn suspended(rt: &impl Print) -> io::Result<()> {
    let key = sealed::KEY_2;
    let iv = sealed::IV_2;
    let agreed = report::agreement(cuts::cuts(&key, &iv));
    println!(rt;
        "pages of 0 to 50 bytes of data and of text, suspended and resumed at each cut: {agreed}"
    )?;
    blocks::rules(rt, &key, &iv)?;
    blocks::states(rt, &key, &iv)
}

fn main(rt: HostRuntime) -> io::Result<()> {
    without_text(&rt)?;
    with_text(&rt)?;
    limits::limits(&rt)?;
    suspended(&rt)
}
