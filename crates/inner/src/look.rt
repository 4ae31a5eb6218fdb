// Looking up in an inner body of any kind.
ghost use Rattle.std.specs.Prelude.{◌≡◌, List, ℕ, ◌+◌, ◌≤◌, ◌<◌, length};
ghost use Rattle.layout.specs.Kind.{number_of};
ghost use Rattle.model.specs.Body.{InnerAt, look_kid};
ghost use Rattle.node.specs.Kids.{slot_in, place_of};
ghost use Rattle.inner.specs.Inner.{place_at, link_at, NodeSome};

use fields::body::{Node, Node4, Node16};
use layout::kind::Kind;
use node::{Seat, sorted};
use node_big::{node48, node256};

// How many children are in use.
pub fn count(f: &[u8], o: usize) -> usize
    requires { o + 2 ≤ length f.now }
    ensures { (result < 65536) × ((kind : ℕ) (ks : List (ℕ × ℕ)) → InnerAt f.now o kind ks → result ≡ length ks) }
{
    Node::count(f, o)
}

// The child of byte b, and where it stands: four bytes that a caller may write.
pub fn seat(f: &[u8], o: usize, kind: Kind, b: u8) -> Seat
    requires { NodeSome f.now o (number_of kind) }
    ensures { (ks : List (ℕ × ℕ)) → InnerAt f.now o (number_of kind) ks → (slot_in result.slot ≡ look_kid b ks) × (result.link ≡ link_at o (number_of kind) (place_of b ks) (place_at f.now o (number_of kind) b) b) }
{
    match kind {
        Kind::Node4 => sorted::seat::<Node4>(f, o, b),
        Kind::Node16 => sorted::seat::<Node16>(f, o, b),
        Kind::Node48 => node48::seat(f, o, b),
        _ => node256::seat(f, o, b),
    }
}
