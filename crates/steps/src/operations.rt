// The operations: what each asks of the slots and of the region, in order, and what it does to them.
ghost use Rattle.std.specs.Prelude.{Bool, ◌≡◌, ℕ};
ghost use Rattle.rules.specs.Syntax.{free, gate, measure, new_ref, get_ref, set_ref, constant};
ghost use Rattle.steps.specs.Performing.{performed, Performs, Inits};

use crate::Act;
use crate::floor::Floor;
use crate::slots::{Slot, Slots};
use answers::Fault;
use rules::place::{Location, SlotNumber};

// An operation that moved: the slots after it, the edges of a merge, and what it does to the map.
#[derive(Clone, Copy)]
pub struct Performed {
    pub slots: Slots,
    pub edges: u8,
    pub act: Act,
}

impl Performed {
    // With no edges.
    fn new(slots: Slots, act: Act) -> Self
        ensures { result ≡ performed slots 0 act }
    {
        Performed {
            slots,
            edges: 0,
            act,
        }
    }
}

// These are the rules' operations, as typing's are: its `Setting` as a trait would add six methods, and a step also says what it does to the map.
pub fn init(
    slots: &Slots,
    x: SlotNumber,
    l: Location,
    floor: &Floor<'_>,
) -> Result<Performed, Fault>
    ensures { Inits slots.now x l floor.now.owned floor.now.map.now result }
{
    slots.may_bind(x)?;
    if !floor.is_inside(l) {
        return Err(Fault::Outside);
    }
    if !floor.is_free(l) {
        return Err(Fault::Taken);
    }
    Ok(Performed::new(slots.occupy(x, l), Act::Takes(l)))
}

pub fn free(slots: &Slots, x: SlotNumber) -> Result<Performed, Fault>
    ensures { (v : Bool) → Performs slots.now v (λ d. free x) result }
{
    let l = slots.qubit(x)?;
    Ok(Performed::new(slots.release(x), Act::Gives(l)))
}

pub fn gate(slots: &Slots, x: SlotNumber) -> Result<Performed, Fault>
    ensures { (v : Bool) (g : ℕ) → Performs slots.now v (λ d. gate g x) result }
{
    slots.qubit(x)?;
    Ok(Performed::new(*slots, Act::Quiet))
}

pub fn measure(
    slots: &Slots,
    y: SlotNumber,
    x: SlotNumber,
    outcome: bool,
) -> Result<Performed, Fault>
    ensures { (b : ℕ) → Performs slots.now outcome (λ d. measure y b x) result }
{
    slots.may_bind(y)?;
    slots.qubit(x)?;
    Ok(Performed::new(slots.bind(y, Slot::Bool(outcome)), Act::Quiet))
}

pub fn new_reference(slots: &Slots, r: SlotNumber, y: SlotNumber) -> Result<Performed, Fault>
    ensures { (v : Bool) → Performs slots.now v (λ d. new_ref r y) result }
{
    slots.may_bind(r)?;
    let b = slots.boolean(y)?;
    Ok(Performed::new(slots.bind(r, Slot::Reference(b)), Act::Quiet))
}

pub fn get_reference(slots: &Slots, y: SlotNumber, r: SlotNumber) -> Result<Performed, Fault>
    ensures { (v : Bool) → Performs slots.now v (λ d. get_ref y r) result }
{
    slots.may_bind(y)?;
    let b = slots.reference(r)?;
    Ok(Performed::new(slots.bind(y, Slot::Bool(b)), Act::Quiet))
}

pub fn set_reference(slots: &Slots, r: SlotNumber, y: SlotNumber) -> Result<Performed, Fault>
    ensures { (v : Bool) → Performs slots.now v (λ d. set_ref r y) result }
{
    slots.reference(r)?;
    let b = slots.boolean(y)?;
    Ok(Performed::new(slots.bind(r, Slot::Reference(b)), Act::Quiet))
}

pub fn constant(slots: &Slots, y: SlotNumber, value: bool) -> Result<Performed, Fault>
    ensures { (v : Bool) → Performs slots.now v (λ d. constant y value) result }
{
    slots.may_bind(y)?;
    Ok(Performed::new(slots.bind(y, Slot::Bool(value)), Act::Quiet))
}
