// The walk over blocks: a loop goes over a block's statements, runs of quiet ones in one move; only nesting and callees recurse. The free locations are
// lent, and each walk leaves there what is free after it. A frame is lent too, as the numbers of its slots' locations, to the one block that may change
// it. They are no struct: a callee has a frame of its own, and its caller's free locations.
ghost use Rattle.std.specs.Prelude.{◌≡◌};
ghost use Rattle.rules.specs.Basics.{byte};
ghost use Rattle.rules.specs.Region.{Region};
ghost use Rattle.sets.specs.Sets.{has};
ghost use Rattle.device.specs.Reader.{RowsOf};
ghost use Rattle.walking.specs.Names.{names_of};
ghost use Rattle.walking.specs.Stands.{no_path, BlockAt, StatementAt, BlockWalked, StatementWalked, CallWalked};

use super::body::Body;
use super::positions::statement_end;
use super::quiet::Quiet;
use program::functions::FunctionTable;
use route::distance;
use rules::place::Location;
use rules::positions::block_end;
use rules::statements::Kind;
use sets::LocationSet;
use sets::rows::Rows;

// What a walk goes over: a program's bytes, its functions, its runs of quiet statements, and the rows of the region.
#[derive(Clone, Copy)]
pub struct Walk<'a> {
    pub bytes: &'a [u8],
    pub functions: &'a FunctionTable,
    pub quiet: &'a Quiet,
    pub rows: &'a Rows,
}

// No path joins the qubits of the merge at a place.
// A walk has this one refusal, so its error is the place alone, and its type says that it is no other.
#[derive(Clone, Copy, Debug, PartialEq, Eq)]
pub struct NoPath {
    pub place: usize,
}

impl Walk<'_> {
    // Whether no path over free locations joins two ends. On its own, so that the copy that it searches is no part of each block's stack.
    fn no_path(&self, free: &LocationSet, a: Location, b: Location) -> bool
        ensures { (R : Region) → RowsOf R self.now.rows.now → result ≡ no_path R (has free.now) a.0 b.0 }
    {
        distance(self.rows, *free, a.0, b.0).is_none()
    }

    // The block at `at` of a body: its slots are where the frame says.
    #[cycle(walk_block_walk_call_walk_if_walk_while)]
    pub fn walk_block(
        &self,
        body: &Body<'_>,
        at: usize,
        frame: &mut [u8; 32],
        free: &mut LocationSet,
    ) -> Result<(), NoPath>
        requires { BlockAt self.now body.now.before (names_of body.now) at }
        ensures { BlockWalked self.now body.now.before (names_of body.now) at frame.old free.old result free.new }
    {
        let stop = block_end(self.bytes, at);
        let mut p = self.quiet.skip(at + 2, stop);
        // no range counts this loop: where the next statement stands is what this one answers
        while p != stop {
            let kind = Kind::known(self.bytes[p]);
            // before the rest: to find it after a callee returns takes longer
            let next = self.quiet.skip(statement_end(self.bytes, p), stop);
            match kind {
                Kind::Init | Kind::Magic => {
                    let location = body.location_of(self.bytes[p + 2]);
                    frame[self.bytes[p + 1] as usize] = location.0;
                    free.erase(location.0);
                }
                Kind::Free => {
                    let location = Location(frame[self.bytes[p + 1] as usize]);
                    free.insert(location.0);
                }
                Kind::Merge => {
                    let a = Location(frame[self.bytes[p + 3] as usize]);
                    let b = Location(frame[self.bytes[p + 5] as usize]);
                    if self.no_path(free, a, b) {
                        return Err(NoPath { place: p });
                    }
                }
                Kind::If => self.walk_if(body, p, frame, free)?,
                Kind::While => self.walk_while(body, p, frame, free)?,
                Kind::Call => self.walk_call(body, p, free)?,
                // a quiet one is met where it ends the file
                Kind::Gate | Kind::Measure | Kind::Ref | Kind::Get | Kind::Set | Kind::Bool => {}
            }
            p = next;
        }
        Ok(())
    }

    // The then-block, then the else-block; on with what the then-block left free.
    #[cycle(walk_block_walk_call_walk_if_walk_while)]
    fn walk_if(
        &self,
        body: &Body<'_>,
        at: usize,
        frame: &[u8; 32],
        free: &mut LocationSet,
    ) -> Result<(), NoPath>
        requires { StatementAt self.now body.now.before (names_of body.now) at × (byte self.now.bytes.now at ≡ 10) }
        ensures { StatementWalked self.now body.now.before (names_of body.now) at frame.now free.old result free.new }
    {
        let mut other = *free;
        let mut inner = *frame;
        self.walk_block(body, at + 2, &mut inner, free)?;
        inner = *frame;
        self.walk_block(body, block_end(self.bytes, at + 2), &mut inner, &mut other)
    }

    // The body once; on with what was free before it.
    #[cycle(walk_block_walk_call_walk_if_walk_while)]
    fn walk_while(
        &self,
        body: &Body<'_>,
        at: usize,
        frame: &[u8; 32],
        free: &LocationSet,
    ) -> Result<(), NoPath>
        requires { StatementAt self.now body.now.before (names_of body.now) at × (byte self.now.bytes.now at ≡ 11) }
        ensures { StatementWalked self.now body.now.before (names_of body.now) at frame.now free.now result free.now }
    {
        let mut inside = *free;
        let mut inner = *frame;
        self.walk_block(body, at + 2, &mut inner, &mut inside)
    }

    // The callee's body at the call's locations; the caller's frame stays.
    #[cycle(walk_block_walk_call_walk_if_walk_while)]
    fn walk_call(&self, body: &Body<'_>, at: usize, free: &mut LocationSet) -> Result<(), NoPath>
        requires { StatementAt self.now body.now.before (names_of body.now) at × (byte self.now.bytes.now at ≡ 12) }
        ensures { CallWalked self.now body.now.before (names_of body.now) at free.old result free.new }
    {
        let f = self.bytes[at + 1];
        let mut inner = [0; 16];
        let mut entry = [0; 32];
        body.enter(
            self.bytes,
            at + 4,
            self.bytes[at + 2] as usize,
            &mut inner,
            &mut entry,
        );
        let callee = Body {
            before: f as usize,
            names: Some(&inner),
        };
        self.walk_block(&callee, self.functions.head(f).body, &mut entry, free)
    }
}
