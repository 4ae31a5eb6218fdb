// Put of a new key at a Leaf of another key: "a Leaf with another key, q walked bytes shared from there: a Node4, and a Prefix if q > 0", a chain
// of them for a longer beginning. The bodies that it writes serve a cut Prefix too.
#![tactic(auto)]

pub mod parts;

ghost use Rattle.leaf_new.specs.Make.{value_of};
ghost use Rattle.leaf_new.specs.Put.{PutStep};
ghost use Rattle.put_split.specs.Split.{AtOther};

use descent::spot::Spot;
use editions::Editioned;
use layout::kind::Kind;
use leaf_new::Record;
use room::heap;

// A Leaf of another key: a Node4 has both Leaves, under a row of Prefixes of the walked bytes that the keys share from there.
pub fn split_leaf<E: Editioned>(f: &mut [u8], r: Record, spot: Spot, edition: E)
    requires { AtOther (E.rules edition) f.old r.key.now r.word.now (value_of r) spot }
    ensures { PutStep (E.rules edition) f.old r.entry.key.now (value_of r.entry) f.new }
{
    let here = spot.here;
    let from = spot.depth;
    let to = from + spot.shared;
    let b = keys::at(r.word, to);
    let c = parts::old_byte(f, here.place, to, edition);
    let node = heap::take(f, Kind::Node4);
    let need = chain::bodies_of(spot.shared);
    let mut row: [usize; chain::MOST] = [0; chain::MOST];
    chain::take_row(f, &mut row, 0, need);
    parts::fork(f, node, r, b, c, here.slot);
    let top = chain::write_row(f, &row, &r.word[from..to], node);
    room::link::relink(f, here.link, top);
    leaf_new::count_record(f);
}
