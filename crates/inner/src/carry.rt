// Children carried over to a body of another kind.
ghost use Rattle.std.specs.Prelude.{◌≡◌, ◌+◌, ◌≤◌, ◌<◌, length};
ghost use Rattle.layout.specs.Kind.{number_of, body_size, most};
ghost use Rattle.inner.specs.Inner.{appended, Carry, Carried};

use crate::visit;
use fields::body::{Node, Node4, Node16};
use layout::kind::Kind;
use node::sorted;
use node_big::{node48, node256};

// The i-th child, behind the others: byte b, and in a Node48 place i + 1. The count is left.
pub fn append(f: &mut [u8], o: usize, kind: Kind, i: usize, b: u8, slot: usize)
    requires { (4 ≤ number_of kind) × (number_of kind ≤ 7) × (o + body_size (number_of kind) ≤ length f.old) × (i < most (number_of kind)) }
    ensures { f.new ≡ appended f.old o (number_of kind) i b slot }
{
    match kind {
        Kind::Node4 => sorted::append::<Node4>(f, o, i, b, slot),
        Kind::Node16 => sorted::append::<Node16>(f, o, i, b, slot),
        Kind::Node48 => node48::append(f, o, i, b, slot),
        _ => node256::append(f, o, b, slot),
    }
}

// The children of the body at `from` go to the zeroed one at `to`, in byte order; the count is written last.
pub fn carry(f: &mut [u8], from: usize, kind: Kind, to: usize, kind2: Kind)
    requires { Carry f.old from (number_of kind) to (number_of kind2) }
    ensures { Carried f.old f.new from (number_of kind) to (number_of kind2) }
{
    let n = Node::count(f, from);
    let mut at = 0;
    for i in 0..n {
        let k = visit::child_at(f, from, kind, i, at);
        append(f, to, kind2, i, k.byte as u8, k.slot);
        at = k.byte + 1;
    }
    Node::set_count(f, to, n);
}
