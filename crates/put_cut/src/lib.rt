// Put of a new key whose way ends within a Prefix: "a Prefix of p bytes matched for q < p: a Node4; the part before has q bytes, the part
// after p - 1 - q. Both non-empty: one more Prefix. One: the old body is rewritten. None: it is freed." Of a chain the part after goes on in the
// bodies below.
#![tactic(auto)]

pub mod after;

ghost use Rattle.model.specs.Edition.{Edition, SomeEdition};
ghost use Rattle.leaf_new.specs.Make.{value_of};
ghost use Rattle.leaf_new.specs.Put.{PutStep};
ghost use Rattle.put_cut.specs.Cut.{AtPart, NoneBefore, SomeBefore};

use descent::spot::Spot;
use fields::body::Prefix;
use layout::kind::Kind;
use leaf_new::Record;
use put_split::parts;
use room::heap;

// No part before: the Node4 takes the place of the Prefix, which has the part after, or is freed.
fn cut_first(f: &mut [u8], r: Record, spot: Spot)
    requires { SomeEdition (λ E. NoneBefore E f.old r.key.now r.word.now (value_of r) spot) }
    ensures { (E : Edition) → NoneBefore E f.old r.entry.key.now r.entry.word.now (value_of r.entry) spot → PutStep E f.old r.entry.key.now (value_of r.entry) f.new }
{
    let here = spot.here;
    let b = keys::at(r.word, spot.depth);
    let c = Prefix::byte(f, here.place, 0);
    let node = heap::take(f, Kind::Node4);
    let rest = after::drop_first(f, here.slot, here.place);
    parts::fork(f, node, r, b, c, rest.slot);
    room::link::relink(f, here.link, node);
    chain::free_row(f, &[here.slot], 0, usize::from(rest.spare));
    leaf_new::count_record(f);
}

// The Prefix keeps the part before, above the Node4.
fn cut_within(f: &mut [u8], r: Record, spot: Spot)
    requires { SomeEdition (λ E. SomeBefore E f.old r.key.now r.word.now (value_of r) spot) }
    ensures { (E : Edition) → SomeBefore E f.old r.entry.key.now r.entry.word.now (value_of r.entry) spot → PutStep E f.old r.entry.key.now (value_of r.entry) f.new }
{
    let here = spot.here;
    let q = spot.shared;
    let b = keys::at(r.word, spot.depth + q);
    let c = Prefix::byte(f, here.place, q);
    let node = heap::take(f, Kind::Node4);
    let below = after::split_off(f, here.place, q + 1);
    parts::fork(f, node, r, b, c, below);
    prefix_body::keep(f, here.place, q, node);
    leaf_new::count_record(f);
}

// A Node4 stands between the parts, with the new Leaf as its other child.
pub fn cut_prefix(f: &mut [u8], r: Record, spot: Spot)
    requires { SomeEdition (λ E. AtPart E f.old r.key.now r.word.now (value_of r) spot) }
    ensures { (E : Edition) → AtPart E f.old r.entry.key.now r.entry.word.now (value_of r.entry) spot → PutStep E f.old r.entry.key.now (value_of r.entry) f.new }
{
    if spot.shared == 0 {
        cut_first(f, r, spot);
        return;
    }
    cut_within(f, r, spot);
}
