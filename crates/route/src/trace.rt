// The route written down, by its hops.
ghost use Rattle.std.specs.Prelude.{◌≡◌, length};
ghost use Rattle.route.specs.Hops.{hops};

// The locations from a on along the hops, as many as there is room for.
pub fn trace(hop: &[u8; 256], a: u8, out: &mut [u8])
    ensures { out.new ≡ hops hop.now (length out.old) a }
{
    let mut x = a;
    for place in out {
        *place = x;
        x = hop[x as usize];
    }
}
