// One line for each call: what was asked, and its answer.
use std::{fmt, io};

// Bytes in hexadecimal, a space before each.
#[derive(Clone, Copy)]
struct Hex<'a>(&'a [u8]);

impl fmt::Display for Hex<'_> {
    fn fmt<W: fmt::Write>(&self, f: &mut fmt::Formatter<W>) -> fmt::Result {
        for byte in self.0 {
            write!(f, " {byte:02x}")?;
        }
        Ok(())
    }
}

// The number of locations.
pub fn read_device(rt: &impl Print, what: &str, device: &[u8]) -> io::Result<()> {
    match abwakiris::reads::read_device(device) {
        Ok(n) => println!(rt; "read {what}: {n} locations"),
        Err(x) => println!(rt; "read {what}: {x}"),
    }
}

pub fn read_program(rt: &impl Print, what: &str, program: &[u8]) -> io::Result<()> {
    match abwakiris::reads::read_program(program) {
        Ok(()) => println!(rt; "read {what}: readable"),
        Err(x) => println!(rt; "read {what}: {x}"),
    }
}

// `OK`, the command count and the number left live, as the printing program has it.
pub fn check(
    rt: &impl Print,
    what: &str,
    device: &[u8],
    program: &[u8],
    job: u64,
) -> io::Result<()> {
    match abwakiris::checks::check(device, program, job) {
        Ok(n) => println!(rt; "check {what}: OK {} {}", n.count, n.live),
        Err(x) => println!(rt; "check {what}: {x}"),
    }
}

// The number of locations, and the buffer.
// The parameters are those of the call, behind the way out of `main` and the words of the line.
pub fn route(
    rt: &impl Print,
    what: &str,
    device: &[u8],
    job: u64,
    occupancy: &[u8],
    first: u64,
    second: u64,
    buffer: &mut [u8],
) -> io::Result<()> {
    match abwakiris::routes::route(device, job, occupancy, first, second, buffer) {
        Ok(n) => println!(rt; "route {what}: {n} locations, buffer{}", Hex(buffer)),
        Err(x) => println!(rt; "route {what}: {x}"),
    }
}

// How many steps each job moved, the records and the map.
// The parameters are those of the call, as above.
pub fn run(
    rt: &impl Print,
    what: &str,
    device: &[u8],
    first: &[u8],
    second: &[u8],
    schedule: &[u8],
    records: &mut [u8],
    map: &mut [u8],
) -> io::Result<()> {
    match abwakiris::runs::run(device, first, second, schedule, records, map) {
        Ok(moved) => {
            let records = Hex(records);
            let map = Hex(map);
            println!(rt;
                "run {what}: moved {} and {}, records{records}, map{map}",
                moved.first, moved.second
            )
        }
        Err(x) => println!(rt; "run {what}: {x}"),
    }
}

// The number of bytes, and the lines.
pub fn write_listing(rt: &impl Print, what: &str, program: &[u8]) -> io::Result<()> {
    let mut listing = [0u8; 64];
    match abwakiris::listings::write_listing(program, &mut listing) {
        Ok(n) => {
            println!(rt; "list {what}: {n} bytes")?;
            match listing.get(..n) {
                Some(lines) => rt.write_all(lines),
                None => Ok(()),
            }
        }
        Err(x) => println!(rt; "list {what}: {x}"),
    }
}

// The number of bytes, and the buffer, which has eleven.
pub fn read_listing(rt: &impl Print, what: &str, listing: &[u8]) -> io::Result<()> {
    let mut program = [0xaau8; 11];
    match abwakiris::listings::read_listing(listing, &mut program) {
        Ok(n) => println!(rt; "unlist {what}: {n} bytes, buffer{}", Hex(&program)),
        Err(x) => println!(rt; "unlist {what}: {x}"),
    }
}
