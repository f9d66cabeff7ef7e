// A table of 256 rows: row x is the set of the locations that x is joined to.
ghost use Rattle.std.specs.Prelude.{false, ◌&&◌, ◌||◌, ◌≡◌, ℕ, eqb};
ghost use Rattle.sets.specs.Sets.{has, row_of};

use super::LocationSet;

#[derive(Clone, Copy)]
pub struct Rows {
    pub rows: [LocationSet; 256],
}

impl Rows {
    // No location is joined to any.
    pub fn empty() -> Self
        ensures { (u v : ℕ) → has (row_of result u) v ≡ false }
    {
        Rows {
            rows: [LocationSet::empty(); 256],
        }
    }

    // The locations that x is joined to.
    pub fn row(&self, x: u8) -> LocationSet
        ensures { result ≡ row_of self.now x }
    {
        self.rows[x as usize]
    }

    // Joins x to y, in this direction alone.
    pub fn join(&mut self, x: u8, y: u8)
        ensures { (u v : ℕ) → has (row_of self.new u) v ≡ ((eqb u x && eqb v y) || has (row_of self.old u) v) }
    {
        self.rows[x as usize].insert(y);
    }
}
