// Put of a new key at an inner node without its byte, and in an empty frame: "an inner node without that byte: nothing if not full, else
// the next kind, and the old body is freed"; "empty frame: EmptyRoot is freed".
#![tactic(auto)]

ghost use Rattle.layout.specs.Kind.{number_of};
ghost use Rattle.model.specs.Edition.{Edition, SomeEdition};
ghost use Rattle.leaf_new.specs.Make.{value_of};
ghost use Rattle.leaf_new.specs.Put.{PutStep};
ghost use Rattle.put_add.specs.Missing.{Open, Full, Vacant};
ghost use Rattle.put_add.specs.Grown.{Fills, Filled};

use descent::spot::Spot;
use fields::header::Header;
use inner::{carry, change};
use layout::entry::Entry;
use layout::kind::Kind;
use leaf_new::Record;
use room::heap;

// The node is not full: the Leaf is its child.
pub fn add_child(f: &mut [u8], r: Record, spot: Spot)
    requires { SomeEdition (λ E. Open E f.old r.key.now r.word.now (value_of r) spot) }
    ensures { (E : Edition) → Open E f.old r.entry.key.now r.entry.word.now (value_of r.entry) spot
        → PutStep E f.old r.entry.key.now (value_of r.entry) f.new }
{
    let here = spot.here;
    let b = keys::at(r.word, spot.depth);
    let leaf = leaf_new::new_leaf(f, r);
    change::add(f, here.place, here.kind, b, leaf);
    leaf_new::count_record(f);
}

// The body of slot n takes the children of the one at `from`, and the Leaf at byte b.
fn refill(f: &mut [u8], from: usize, kind: Kind, n: usize, up: Kind, b: u8, leaf: usize)
    requires { Fills f.old from (number_of kind) n (number_of up) leaf }
    ensures { Filled f.old f.new from (number_of kind) n (number_of up) b leaf }
{
    let body = Entry::read(f, n);
    change::empty(f, body.place, up);
    carry::carry(f, from, kind, body.place, up);
    change::add(f, body.place, up, b, leaf);
}

// The node is full: a body of the next kind takes its place.
pub fn grow(f: &mut [u8], r: Record, spot: Spot)
    requires { SomeEdition (λ E. Full E f.old r.key.now r.word.now (value_of r) spot) }
    ensures { (E : Edition) → Full E f.old r.entry.key.now r.entry.word.now (value_of r.entry) spot
        → PutStep E f.old r.entry.key.now (value_of r.entry) f.new }
{
    let here = spot.here;
    let b = keys::at(r.word, spot.depth);
    let up = here.kind.up().unwrap();
    let n = heap::take(f, up);
    let leaf = leaf_new::new_leaf(f, r);
    refill(f, here.place, here.kind, n, up, b, leaf);
    room::link::relink(f, here.link, n);
    heap::release(f, here.slot, here.kind);
    leaf_new::count_record(f);
}

// The frame is empty: the Leaf is the root.
pub fn first_record(f: &mut [u8], r: Record)
    requires { SomeEdition (λ E. Vacant E f.old r.key.now (value_of r)) }
    ensures { (E : Edition) → Vacant E f.old r.entry.key.now (value_of r.entry)
        → PutStep E f.old r.entry.key.now (value_of r.entry) f.new }
{
    let old = Header::root(f);
    let leaf = leaf_new::new_leaf(f, r);
    room::link::relink(f, Header::AT_ROOT, leaf);
    heap::release(f, old, Kind::EmptyRoot);
    leaf_new::count_record(f);
}
