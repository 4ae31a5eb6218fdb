// Children added and removed in an inner body of any kind.
ghost use Rattle.std.specs.Prelude.{◌+◌, ◌≤◌, ◌<◌, length};
ghost use Rattle.layout.specs.Kind.{number_of, body_size};
ghost use Rattle.inner.specs.Inner.{NodeOpen, NodeHas, Emptied, Added, Removed};

use fields::body::{Node4, Node16};
use layout::kind::Kind;
use node::sorted;
use node_big::{node48, node256};

// A body of no children.
pub fn empty(f: &mut [u8], o: usize, kind: Kind)
    requires { (4 ≤ number_of kind) × (number_of kind ≤ 7) × (o + body_size (number_of kind) ≤ length f.old) }
    ensures { Emptied f.old f.new o (number_of kind) }
{
    moves::clear(f, o, kind.body_size());
}

// A child at byte b, which has none, in a body that is not full.
pub fn add(f: &mut [u8], o: usize, kind: Kind, b: u8, slot: usize)
    requires { NodeOpen f.old o (number_of kind) × (1 ≤ slot) × (slot < 4294967296) }
    ensures { Added f.old f.new o (number_of kind) b slot }
{
    match kind {
        Kind::Node4 => sorted::add::<Node4>(f, o, b, slot),
        Kind::Node16 => sorted::add::<Node16>(f, o, b, slot),
        Kind::Node48 => node48::add(f, o, b, slot),
        _ => node256::add(f, o, b, slot),
    }
}

// The child at byte b goes.
pub fn remove(f: &mut [u8], o: usize, kind: Kind, b: u8)
    requires { NodeHas f.old o (number_of kind) b }
    ensures { Removed f.old f.new o (number_of kind) b }
{
    match kind {
        Kind::Node4 => sorted::remove::<Node4>(f, o, b),
        Kind::Node16 => sorted::remove::<Node16>(f, o, b),
        Kind::Node48 => node48::remove(f, o, b),
        _ => node256::remove(f, o, b),
    }
}
