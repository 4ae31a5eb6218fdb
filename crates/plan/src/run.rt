// How many bytes a chain of Prefixes has.
ghost use Rattle.std.specs.Prelude.{◌<◌};
ghost use Rattle.plan.specs.Run.{RunAt, Measured};

use fields::body::Prefix;

// The bytes of the chain at a slot; none where no Prefix is.
pub fn long(f: &[u8], slot: usize) -> usize
    requires { RunAt f.now slot }
    ensures { Measured f.now slot result × (result < 65536) }
{
    let mut s = slot;
    let mut n = 0;
    while let Some(place) = chain::prefix_at(f, s) {
        n += Prefix::length(f, place);
        s = Prefix::child(f, place);
    }
    n
}
