// What a call asks, in order: that its locations are inside the region, that no location and no slot is given twice, that each argument is a qubit at
// its location, and that the other locations are free.
ghost use Rattle.std.specs.Prelude.{map, ◌&&◌, ◌≡◌, ℕ, ◌≤◌, ◌<◌, eqb, length, get_or};
ghost use Rattle.std.specs.List.{list_all};
ghost use Rattle.rules.specs.Basics.{byte, distinct};
ghost use Rattle.sets.specs.Sets.{has};
ghost use Rattle.steps.specs.Said.{said_at, itself};
ghost use Rattle.steps.specs.State.{place_of, location_at, located_in};
ghost use Rattle.steps.specs.Calling.{argument_at, Arguments, Callable};

use crate::floor::Floor;
use crate::job::Job;
use crate::slots::Slots;
use answers::Fault;
use rules::place::{Location, SlotNumber};
use sets::bytes::no_repeat;

// The locations that a call's place bytes name.
// Sixteen, of which the call has the first few: no heap.
pub fn actuals(bytes: &[u8], job: &Job) -> [Location; 16]
    requires { (length bytes.now ≤ 16) × (0 < job.now.depth → (i : ℕ) → i < length bytes.now → byte bytes.now i < 16) }
    ensures { (i : ℕ) → i < length bytes.now → location_at result i ≡ located_in job.now (byte bytes.now i) }
{
    let mut places = [Location(0); 16];
    // by number: those past the call's are left, and each is said of by its number
    for i in 0..bytes.len() {
        places[i] = job.located(bytes[i]);
    }
    places
}

// Two tests of one line each: the test as a parameter would stand in the clause as well.
pub fn all_inside(floor: &Floor<'_>, places: &[Location]) -> bool
    ensures { result ≡ list_all (λ l. has floor.now.owned l.0) places.now }
{
    places.iter().all(|l| floor.is_inside(*l))
}

pub fn all_free(floor: &Floor<'_>, places: &[Location]) -> bool
    ensures { result ≡ list_all (λ l. has floor.now.owned l.0 && eqb (get_or floor.now.map.now l.0 0) 0) places.now }
{
    places.iter().all(|l| floor.is_free(*l))
}

// Whether no location comes twice.
pub fn no_location_twice(places: &[Location]) -> bool
    requires { length places.now ≤ 16 }
    ensures { result ≡ distinct (map (λ l. l.0) places.now) }
{
    no_repeat(&numbers(places)[..places.len()])
}

// The numbers of at most 16 locations.
// The one test for repeats goes over bytes; a set of locations would be the same loop.
fn numbers(places: &[Location]) -> [u8; 16]
    requires { length places.now ≤ 16 }
    ensures { (i : ℕ) → i < length places.now → get_or result i 0 ≡ (location_at places.now i).0 }
{
    let mut numbers = [0; 16];
    for i in 0..places.len() {
        numbers[i] = places[i].0;
    }
    numbers
}

// One argument is a qubit at its location.
fn argument(slots: &Slots, x: SlotNumber, l: Location) -> Result<(), Fault>
    ensures { (o : ℕ) → said_at itself result o ≡ argument_at slots.now x l o }
{
    let k = slots.qubit(x)?;
    if k != l {
        return Err(Fault::Elsewhere);
    }
    Ok(())
}

// Each argument in turn.
pub fn arguments(slots: &Slots, given: &[u8], places: &[Location]) -> Result<(), Fault>
    requires { (length given.now ≤ length places.now) × ((i : ℕ) → i < length given.now → byte given.now i < 32) }
    ensures { Arguments slots.now given.now (map place_of places.now) result }
{
    // by number: the bound of an argument's slot is known by its place in the list
    for i in 0..given.len() {
        argument(slots, SlotNumber::known(given[i]), places[i])?;
    }
    Ok(())
}

// All that a call asks, its locations being known: the first of them are its arguments', which are given in slots.
// Typing asks this of the file's own bytes, a step of the locations that they name: the tests are the same, what they are over is not.
pub fn callable(
    slots: &Slots,
    given: &[u8],
    places: &[Location],
    floor: &Floor<'_>,
) -> Result<(), Fault>
    requires { (length given.now ≤ length places.now) × (length places.now ≤ 16) × ((i : ℕ) → i < length given.now → byte given.now i < 32) }
    ensures { Callable slots.now given.now (map place_of places.now) floor.now.owned floor.now.map.now result }
{
    if !all_inside(floor, places) {
        return Err(Fault::Outside);
    }
    if !no_location_twice(places) || !no_repeat(given) {
        return Err(Fault::Twice);
    }
    arguments(slots, given, places)?;
    if !all_free(floor, &places[given.len()..]) {
        return Err(Fault::Taken);
    }
    Ok(())
}
