// What a job's steps stand on: the rows of its region, its own locations, and the occupancy map that both jobs share. A location is free where it is
// the job's and the map has it as free.
ghost use Rattle.std.specs.Prelude.{◌&&◌, ◌≡◌, ℕ, eqb, get_or};
ghost use Rattle.sets.specs.Sets.{has};

use device::free::free_in;
use rules::place::Location;
use sets::LocationSet;
use sets::rows::Rows;

#[derive(Clone, Copy)]
pub struct Floor<'a> {
    pub rows: &'a Rows,
    pub owned: LocationSet,
    pub map: &'a [u8; 256],
}

impl Floor<'_> {
    pub fn is_inside(&self, l: Location) -> bool
        ensures { result ≡ has self.now.owned l.0 }
    {
        self.owned.contains(l.0)
    }

    pub fn is_free(&self, l: Location) -> bool
        ensures { result ≡ (has self.now.owned l.0 && eqb (get_or self.now.map.now l.0 0) 0) }
    {
        self.is_inside(l) && self.map[l.0 as usize] == 0
    }

    // All free locations.
    pub fn free(&self) -> LocationSet
        ensures { (y : ℕ) → has result y ≡ (has self.now.owned y && eqb (get_or self.now.map.now y 0) 0) }
    {
        let map = self.map;
        free_in(self.owned, map)
    }
}
