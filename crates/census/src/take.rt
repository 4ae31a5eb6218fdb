// One body or extent claims its units of the map, and is counted.
ghost use Rattle.std.specs.Prelude.{◌≡◌, ◌+◌, ◌*◌, ◌%◌, ◌<◌, ◌≤◌, length};
ghost use Rattle.layout.specs.Kind.{number_of};
ghost use Rattle.census.specs.Told.{Tally, BodyTold, ExtentTold};

use crate::{Bounds, Sums};
use claims::claim;
use layout::kind::Kind;

// A body of the kind at o: it lies between D and B, and there are no more than U.
pub fn body(map: &mut [u64], kind: Kind, o: usize, bounds: Bounds, t: Sums) -> Option<Sums>
    requires room { bounds.next ≤ 512 * length map.old }
    requires tally { Tally bounds.given 0 t }
    requires place { (o % 8 ≡ 0) × (o < 1048576) }
    ensures { BodyTold bounds.start bounds.given bounds.next (number_of kind) o map.old t map.new result }
{
    if bounds.given <= t.slots {
        return None;
    }
    let size = kind.body_size();
    if o < bounds.start {
        return None;
    }
    if bounds.next < o + size {
        return None;
    }
    if !claim(map, o / 8, size / 8) {
        return None;
    }
    Some(Sums {
        slots: t.slots + 1,
        bytes: t.bytes + size,
        ..t
    })
}

// An extent of n bytes at e, between D and B.
pub fn extent(map: &mut [u64], e: usize, n: usize, bounds: Bounds, t: Sums) -> Option<Sums>
    requires room { bounds.next ≤ 512 * length map.old }
    requires tally { Tally bounds.given 1 t }
    requires whole { (e % 8 ≡ 0) × (n % 8 ≡ 0) }
    requires within { e + n ≤ bounds.next }
    ensures { ExtentTold bounds.given e n map.old t map.new result }
{
    if !claim(map, e / 8, n / 8) {
        return None;
    }
    Some(Sums {
        bytes: t.bytes + n,
        leaves: t.leaves + 1,
        ..t
    })
}
