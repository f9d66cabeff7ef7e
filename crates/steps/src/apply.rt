// What a step does to the occupancy map.
ghost use Rattle.steps.specs.Applying.{Applies};

use crate::Act;

// A location that is taken holds the job's number, one that is given back holds 0.
// The map is the one that a run writes for its caller (`written` of the rules, `abwakiris_run`): 0 is nobody.
pub fn apply(act: Act, job: u8, map: &mut [u8; 256])
    ensures { Applies act job map.old map.new }
{
    match act {
        Act::Quiet => {}
        Act::Takes(l) => map[l.0 as usize] = job,
        Act::Gives(l) => map[l.0 as usize] = 0,
    }
}
