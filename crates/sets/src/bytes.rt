// Tests over a row of bytes, as the locations and the slots of a call.
ghost use Rattle.std.specs.Prelude.{◌≡◌};
ghost use Rattle.std.specs.List.{list_all};
ghost use Rattle.sets.specs.Bytes.{all_apart};
ghost use Rattle.sets.specs.Sets.{has};

use super::LocationSet;

// Whether each of the bytes is in the set. (`steps` asks the same of locations, which are no bytes.)
pub fn all_in(bytes: &[u8], set: LocationSet) -> bool
    ensures { result ≡ list_all (has set) bytes.now }
{
    bytes.iter().all(|&b| set.contains(b))
}

// Whether no byte comes twice: from the last to the first, with the set of those after it.
pub fn no_repeat(bytes: &[u8]) -> bool
    ensures { result ≡ all_apart bytes.now }
{
    let mut later = LocationSet::empty();
    // by index: what is yielded from the end is no rest of the list, which is what `all_apart` goes over
    for i in (0..bytes.len()).rev() {
        let b = bytes[i];
        if later.contains(b) {
            return false;
        }
        later = later.add(b);
    }
    true
}
