// Put of a key that is there: "with the same value length the extent is overwritten and nothing is needed; otherwise a new extent, and
// the old one's size is added to X." The stamp is the new one in either case.
#![tactic(auto)]

ghost use Rattle.std.specs.Prelude.{◌+◌, ◌<◌, ◌≤◌, length};
ghost use Rattle.model.specs.Edition.{Edition, SomeEdition};
ghost use Rattle.leaf_new.specs.Make.{value_of};
ghost use Rattle.leaf_new.specs.Put.{PutStep};
ghost use Rattle.put_replace.specs.Put.{Present, Restamped};

use descent::spot::Spot;
use fields::body::Leaf;
use leaf_new::Record;
use moves::fill;
use room::heap;

// The stamp of the Leaf at a place, written if it is another: edition 1 writes none.
fn restamp(f: &mut [u8], place: usize, stamp: usize)
    requires { (place + 16 ≤ length f.old) × (stamp < 18446744073709551616) }
    ensures { Restamped f.old f.new place stamp }
{
    if Leaf::stamp(f, place) == stamp {
        return;
    }
    Leaf::set_stamp(f, place, stamp);
}

// The Leaf of the key stands at the spot.
pub fn replace(f: &mut [u8], r: Record, spot: Spot)
    requires { SomeEdition (λ E. Present E f.old r.key.now (value_of r) spot) }
    ensures { (E : Edition) → Present E f.old r.entry.key.now (value_of r.entry) spot
        → PutStep E f.old r.entry.key.now (value_of r.entry) f.new }
{
    let place = spot.here.place;
    let k = r.key.len();
    let n = r.value.len();
    let old = Leaf::value_length(f, place);
    let was = Leaf::extent(f, place);
    if n == old {
        fill::paste(f, was + k, r.value);
        restamp(f, place, r.stamp);
        return;
    }
    let extent = heap::extend(f, r.key, r.value);
    Leaf::write(f, place, extent, k, n, r.stamp);
    heap::retire(f, was, Leaf::rounded(k + old));
}
