// The children of an inner body of any kind, in byte order.
ghost use Rattle.std.specs.Prelude.{◌≡◌, List, ℕ, ◌≤◌, ◌<◌};
ghost use Rattle.layout.specs.Kind.{number_of};
ghost use Rattle.model.specs.Body.{InnerAt, byte_in, child_in};
ghost use Rattle.node.specs.Kids.{Next, Reached};
ghost use Rattle.inner.specs.Inner.{NodeSome, Visit};

use fields::body::{Node4, Node16};
use layout::kind::Kind;
use node::{Child, sorted};
use node_big::{node48, node256};

// The i-th child from 0, of a walk that is past the bytes below `from`: where the walk starts 0, then one more than the byte of the
// child before. All of them together cost 256 steps and one for each child.
pub fn child_at(f: &[u8], o: usize, kind: Kind, i: usize, from: usize) -> Child
    requires { Visit f.now o (number_of kind) i from }
    ensures { (result.byte < 256) × ((ks : List (ℕ × ℕ)) → InnerAt f.now o (number_of kind) ks → Reached ks i from → (result.byte ≡ byte_in ks i) × (result.slot ≡ child_in ks i)) }
{
    match kind {
        Kind::Node4 => sorted::child_at::<Node4>(f, o, i),
        Kind::Node16 => sorted::child_at::<Node16>(f, o, i),
        _ => next_child(f, o, kind, from).unwrap(),
    }
}

// The first child whose byte is `from` or more.
pub fn next_child(f: &[u8], o: usize, kind: Kind, from: usize) -> Option<Child>
    requires { NodeSome f.now o (number_of kind) × (from ≤ 256) }
    ensures { (ks : List (ℕ × ℕ)) → InnerAt f.now o (number_of kind) ks → Next from ks result }
{
    match kind {
        Kind::Node4 => sorted::next::<Node4>(f, o, from),
        Kind::Node16 => sorted::next::<Node16>(f, o, from),
        Kind::Node48 => node48::next(f, o, from),
        _ => node256::next(f, o, from),
    }
}
