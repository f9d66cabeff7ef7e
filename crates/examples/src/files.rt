// What no file may be: refusals 1 to 10.
use crate::say::{read_device, read_program};
use std::io;

pub fn refusals(rt: &impl Print) -> io::Result<()> {
    device_headers(rt)?;
    device_bodies(rt)?;
    program_lengths(rt)?;
    program_headers(rt)?;
    nested(rt)?;
    cut_short(rt)?;
    statements(rt)
}

fn device_headers(rt: &impl Print) -> io::Result<()> {
    read_device(rt, "a device of 8 bytes", b"QLG\x00\x01\x00\x01\x00")?;
    read_device(
        rt,
        "a device marked as a program",
        b"QLS\x00\x01\x00\x01\x00\x00\x01",
    )?;
    read_device(
        rt,
        "a device of version 2",
        b"QLG\x00\x02\x00\x01\x00\x00\x01",
    )?;
    read_device(
        rt,
        "a device with no location",
        b"QLG\x00\x01\x00\x00\x00\x00",
    )?;
    read_device(
        rt,
        "a device with 1,025 edges",
        b"QLG\x00\x01\x00\x01\x04\x01\x01",
    )
}

fn device_bodies(rt: &impl Print) -> io::Result<()> {
    read_device(
        rt,
        "a device with a byte too many",
        b"QLG\x00\x01\x00\x01\x00\x00\x01\x00",
    )?;
    read_device(
        rt,
        "a device with a third owner",
        b"QLG\x00\x01\x00\x02\x00\x00\x01\x03",
    )?;
    read_device(
        rt,
        "an edge from 1 to 0",
        b"QLG\x00\x01\x00\x02\x00\x01\x01\x01\x01\x00",
    )?;
    read_device(
        rt,
        "an edge twice",
        b"QLG\x00\x01\x00\x02\x00\x02\x01\x01\x00\x01\x00\x01",
    )
}

fn program_lengths(rt: &impl Print) -> io::Result<()> {
    read_program(rt, "a program of 7 bytes", b"QLS\x00\x01\x00\x00")?;
    read_program(rt, "a program of 4,097 bytes", &[0; 4097])
}

fn program_headers(rt: &impl Print) -> io::Result<()> {
    read_program(
        rt,
        "a program marked as a device",
        b"QLG\x00\x01\x00\x00\x00",
    )?;
    read_program(rt, "a program of version 2", b"QLS\x00\x02\x00\x00\x00")?;
    read_program(
        rt,
        "a program with 16 functions",
        b"QLS\x00\x01\x10\x00\x00",
    )?;
    read_program(
        rt,
        "two arguments of one parameter",
        b"QLS\x00\x01\x01\x01\x02\x00\x00\x00\x00",
    )
}

// Eight loops, each in the one before: the last one's block has depth 9.
fn nested(rt: &impl Print) -> io::Result<()> {
    let program = b"QLS\x00\x01\x00\x00\x20\
        \x0b\x00\x00\x1c\x0b\x00\x00\x18\x0b\x00\x00\x14\x0b\x00\x00\x10\
        \x0b\x00\x00\x0c\x0b\x00\x00\x08\x0b\x00\x00\x04\x0b\x00\x00\x00";
    read_program(rt, "eight nested loops", program)
}

fn cut_short(rt: &impl Print) -> io::Result<()> {
    read_program(rt, "an init cut short", b"QLS\x00\x01\x00\x00\x02\x01\x00")?;
    read_program(
        rt,
        "a main block longer than its file",
        b"QLS\x00\x01\x00\x00\x01",
    )?;
    read_program(rt, "a byte after main", b"QLS\x00\x01\x00\x00\x00\x00")
}

fn statements(rt: &impl Print) -> io::Result<()> {
    read_program(rt, "a statement of kind 14", b"QLS\x00\x01\x00\x00\x01\x0e")?;
    read_program(rt, "a free of slot 32", b"QLS\x00\x01\x00\x00\x02\x03\x20")?;
    read_program(
        rt,
        "a call of a function not there",
        b"QLS\x00\x01\x00\x00\x04\x0c\x00\x00\x00",
    )
}
