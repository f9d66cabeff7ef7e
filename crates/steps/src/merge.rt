// The merge: it asks for a route between its two qubits over the free locations of the region.
ghost use Rattle.steps.specs.Performing.{Merges, Routes};

use crate::Act;
use crate::floor::Floor;
use crate::operations::Performed;
use crate::slots::{Slot, Slots};
use answers::Fault;
use route::distance;
use rules::place::{Location, SlotNumber};

// The merge of the qubits at two locations, which binds a slot to its outcome.
fn join(
    slots: &Slots,
    y: SlotNumber,
    l: Location,
    k: Location,
    floor: &Floor<'_>,
    outcome: bool,
) -> Result<Performed, Fault>
    ensures { Routes slots.now y l k floor.now.rows.now floor.now.owned floor.now.map.now outcome result }
{
    let edges = distance(floor.rows, floor.free(), l.0, k.0).ok_or(Fault::NoPath)?;
    Ok(Performed {
        slots: slots.bind(y, Slot::Bool(outcome)),
        edges,
        act: Act::Quiet,
    })
}

pub fn merge(
    slots: &Slots,
    y: SlotNumber,
    x: SlotNumber,
    z: SlotNumber,
    floor: &Floor<'_>,
    outcome: bool,
) -> Result<Performed, Fault>
    ensures { Merges slots.now y x z floor.now.rows.now floor.now.owned floor.now.map.now outcome result }
{
    slots.may_bind(y)?;
    let l = slots.qubit(x)?;
    let k = slots.qubit(z)?;
    if x.index() == z.index() {
        return Err(Fault::Twice);
    }
    join(slots, y, l, k, floor, outcome)
}
