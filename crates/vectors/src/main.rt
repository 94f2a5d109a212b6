// Runs the paper's three SNOW-V keystream vectors, and the documents' cases of the greatest count of blocks, and writes what agrees. The file
// `stdout` has what it must write.
#![tactic(auto)]

mod call;
mod far_end;
mod keystream;
mod lent;
mod report;
mod vector;

use std::io;

fn main(rt: HostRuntime) -> io::Result<()> {
    vector::vector(
        &rt,
        1,
        keystream::KEY_1,
        keystream::IV_1,
        keystream::INITIAL_1,
        keystream::KEYSTREAM_1,
    )?;
    vector::vector(
        &rt,
        2,
        keystream::KEY_2,
        keystream::IV_2,
        keystream::INITIAL_2,
        keystream::KEYSTREAM_2,
    )?;
    vector::vector(
        &rt,
        3,
        keystream::KEY_3,
        keystream::IV_3,
        keystream::INITIAL_3,
        keystream::KEYSTREAM_3,
    )?;
    far_end::plain(&rt)?;
    far_end::sealed(&rt)
}
