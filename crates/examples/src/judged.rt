// What a program that reads may not do on the grid: refusals 11 to 19.
use crate::grid::check;
use std::io;

pub fn refusals(rt: &impl Print) -> io::Result<()> {
    slots(rt)?;
    locations(rt)?;
    calls(rt)?;
    blocks(rt)?;
    branches(rt)?;
    body(rt)
}

fn slots(rt: &impl Print) -> io::Result<()> {
    check(
        rt,
        "a free of an unbound slot",
        b"QLS\x00\x01\x00\x00\x02\x03\x00",
        1,
    )?;
    check(
        rt,
        "two inits of one slot",
        b"QLS\x00\x01\x00\x00\x06\x01\x00\x00\x01\x00\x01",
        1,
    )
}

fn locations(rt: &impl Print) -> io::Result<()> {
    check(
        rt,
        "an init at location 6",
        b"QLS\x00\x01\x00\x00\x03\x01\x00\x06",
        1,
    )?;
    check(
        rt,
        "an init for job 2",
        b"QLS\x00\x01\x00\x00\x03\x01\x00\x00",
        2,
    )?;
    check(
        rt,
        "two inits at one location",
        b"QLS\x00\x01\x00\x00\x06\x01\x00\x00\x01\x01\x00",
        1,
    )
}

// A function of two parameters called at 0 and 0; a qubit at 0 given to a function at 1.
fn calls(rt: &impl Print) -> io::Result<()> {
    let twice = b"QLS\x00\x01\x01\x02\x00\x00\x00\x00\x06\
        \x0c\x00\x02\x00\x00\x00";
    check(rt, "a call with one location twice", twice, 1)?;
    let elsewhere = b"QLS\x00\x01\x01\x01\x01\x00\x00\x00\x0b\
        \x01\x00\x00\x0c\x00\x01\x01\x01\x00\x03\x00";
    check(rt, "an argument that is elsewhere", elsewhere, 1)
}

// Main's own block may end with live qubits; a block of an if and a function's may not.
fn blocks(rt: &impl Print) -> io::Result<()> {
    check(
        rt,
        "a qubit left at main's end",
        b"QLS\x00\x01\x00\x00\x03\x01\x00\x00",
        1,
    )?;
    let branch = b"QLS\x00\x01\x00\x00\x0c\
        \x0d\x00\x01\x0a\x00\x00\x03\x01\x01\x00\x00\x00";
    check(rt, "a qubit left at a branch's end", branch, 1)?;
    let function = b"QLS\x00\x01\x01\x01\x00\x00\x03\x01\x00\x00\x00\x00";
    check(rt, "a qubit left at a function's end", function, 1)
}

// The then-block frees a qubit, the else-block does not.
fn branches(rt: &impl Print) -> io::Result<()> {
    let program = b"QLS\x00\x01\x00\x00\x10\
        \x01\x00\x00\x0d\x01\x00\x0a\x01\x00\x02\x03\x00\x00\x00\x03\x00";
    check(rt, "a qubit freed in one branch", program, 1)
}

// A loop's body frees a qubit made before it.
fn body(rt: &impl Print) -> io::Result<()> {
    let program = b"QLS\x00\x01\x00\x00\x11\
        \x01\x00\x00\x0d\x01\x00\x07\x02\x01\x0b\x02\x00\x02\x03\x00\x03\x00";
    check(rt, "a qubit freed in a loop", program, 1)
}
