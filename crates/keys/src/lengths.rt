// Keys and numbers of other lengths on the season's store, and a store without a block.
use crate::copies;
use std::io;

pub fn lines(rt: &impl Print, kept: [u8; 2048]) -> io::Result<()> {
    print!(rt; "key of 31 bytes: ")?;
    copies::store(rt, 31, 16, 32, kept, 2048)?;
    copies::fetch(rt, 31, 16, kept, 2048)?;
    print!(rt; "\nstay key of 31 bytes: ")?;
    copies::store(rt, 32, 16, 31, kept, 2048)?;
    print!(rt; "\nnumber of 15 bytes: ")?;
    copies::store(rt, 32, 15, 32, kept, 2048)?;
    copies::fetch(rt, 32, 15, kept, 2048)?;
    copies::erase(rt, 15, kept, 2048)?;
    println!(rt)?;
    copies::line(rt, "no block", kept, 0)
}
