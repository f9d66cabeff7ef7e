// Slots, as typing knows them: a bool's value is not known. A qubit's place is its number in the body, a location in main and a parameter in a
// function.
ghost use Rattle.std.specs.Prelude.{◌≡◌};
ghost use Rattle.rules.specs.Syntax.{Side};
ghost use Rattle.rules.specs.Slots.{is_classical};
ghost use Rattle.typing.specs.Stands.{kind_of, place_of};

// Not the slots of steps with other types: a step needs the location and the bool that it finds, typing only which of the four it is.
#[derive(Clone, Copy, Debug, PartialEq, Eq)]
pub enum Slot {
    Unbound,
    Qubit(u8),
    Bool,
    Reference,
}

impl Slot {
    // The place of the qubit that it holds, if it holds one.
    pub fn qubit(self) -> Option<u8>
        ensures { result ≡ place_of self }
    {
        match self {
            Slot::Qubit(place) => Some(place),
            Slot::Unbound | Slot::Bool | Slot::Reference => None,
        }
    }

    pub fn is_classical(self) -> bool
        ensures { (d : Side) → result ≡ is_classical (kind_of d self) }
    {
        matches!(self, Slot::Bool | Slot::Reference)
    }
}
