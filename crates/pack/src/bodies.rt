// "bodies follow one another from D in that order, a Leaf's extent right after its body": each body and extent is written in a lent part of
// the output that starts at its offset, and its slot's entry in the table.
ghost use Rattle.std.specs.Prelude.{[], ◌∷◌};
ghost use Rattle.layout.specs.Kind.{number_of};
ghost use Rattle.layout.specs.Entry.{entry_of};
ghost use Rattle.pack_body.specs.Part.{part_body};
ghost use Rattle.pack.specs.Laid.{Laid, LeafFits, LeafLaid, PrefixFits, PrefixLaid, NodeFits, ChildFits, ChildLaid};

use fields::body::Prefix;
use layout::entry::Entry;
use layout::kind::Kind;
use pack_body::inner_node;

// The next slot, and the next place of the output.
#[derive(Clone, Copy, Debug, PartialEq, Eq)]
pub struct Next {
    pub slot: usize,
    pub place: usize,
}

// `leaf`, `prefix` and `node` stand each in a part of the stack of its own (`inline(never)`): what they keep is not kept at every level of the walk.
// `child` is a part of the walk: set apart it costs a call for each child, and the walk keeps no less.

// The Leaf at o of the frame, and its extent.
#[inline(never)]
pub fn leaf(f: &[u8], out: &mut [u8], o: usize, next: Next) -> Next
    requires { LeafFits f.now o out.old next }
    ensures { LeafLaid f.now o out.old next out.new result }
{
    let at = next.place;
    Entry::write(out, next.slot, Kind::Leaf.number(), at);
    let used = pack_body::leaf::copy(&mut out[at..], at, f, o);
    Next {
        slot: next.slot + 1,
        place: at + used,
    }
}

// The Prefix at o of the frame; its child takes the next slot.
#[inline(never)]
pub fn prefix(f: &[u8], out: &mut [u8], o: usize, next: Next) -> Next
    requires { PrefixFits f.now o out.old next }
    ensures { PrefixLaid f.now o out.old next out.new result }
{
    let at = next.place;
    Entry::write(out, next.slot, Kind::Prefix.number(), at);
    pack_body::prefix::copy(&mut out[at..], next.slot + 1, f, o);
    Next {
        slot: next.slot + 1,
        place: at + Prefix::SIZE,
    }
}

// An inner node of n children, none of them there yet.
#[inline(never)]
pub fn node(out: &mut [u8], kind: Kind, n: usize, next: Next) -> Next
    requires { NodeFits (number_of kind) out.old next }
    ensures { Laid (entry_of (number_of kind) next.place ∷ []) (part_body (number_of kind) n [] []) next out.old out.new result }
{
    let at = next.place;
    Entry::write(out, next.slot, kind.number(), at);
    inner_node::start(&mut out[at..], kind, n);
    Next {
        slot: next.slot + 1,
        place: at + kind.body_size(),
    }
}

// Its i-th child from 0, at byte b. The node's body lies at `at`.
pub fn child(out: &mut [u8], at: usize, kind: Kind, i: usize, b: u8, slot: usize)
    requires { ChildFits out.old at (number_of kind) i }
    ensures { ChildLaid at (number_of kind) i b slot out.old out.new }
{
    inner_node::child(&mut out[at..], kind, i, b, slot);
}
