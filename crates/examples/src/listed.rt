// A program and its listing, both ways, and texts that are none: refusals 24 and 27.
use crate::say::{read_listing, write_listing};
use std::io;

pub fn examples(rt: &impl Print) -> io::Result<()> {
    write_listing(rt, "an init cut short", b"QLS\x00\x01\x00\x00\x02\x01\x00")?;
    write_listing(rt, "an init", b"QLS\x00\x01\x00\x00\x03\x01\x00\x07")?;
    write_listing(
        rt,
        "an if with empty blocks",
        b"QLS\x00\x01\x00\x00\x06\x0a\x01\x00\x00\x00\x00",
    )?;
    read_listing(rt, "an init", b"program 1\nmain\n  init 0 7\n")?;
    read_listing(
        rt,
        "a slot with a leading zero",
        b"program 1\nmain\n  init 00 7\n",
    )?;
    read_listing(rt, "an if without its else", b"program 1\nmain\n  if 1\n")?;
    read_listing(rt, "no text", b"")?;
    read_listing(
        rt,
        "two inits into eleven bytes",
        b"program 1\nmain\n  init 0 7\n  init 1 8\n",
    )
}
