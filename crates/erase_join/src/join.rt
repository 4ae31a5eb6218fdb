// "A Node4 that falls to one child is freed": the child is read, and joins what stands above.
ghost use Rattle.std.specs.Prelude.{◌≡◌, List, [], ◌∷◌, ℕ, ◌<◌};
ghost use Rattle.layout.specs.Kind.{node4_kind};
ghost use Rattle.model.specs.Edition.{Edition, SomeEdition};
ghost use Rattle.model.specs.Body.{InnerAt};
ghost use Rattle.node.specs.Kids.{remove_kid};
ghost use Rattle.erase_remove.specs.Erase.{EraseStep};
ghost use Rattle.erase_join.specs.Erase.{Pair};
ghost use Rattle.erase_join.specs.Lone.{Couple, AtSpot, Above, HasRoom};

use crate::lone;
use crate::lone::Lone;
use descent::spot::{Body, Spot};
use fields::body::Prefix;
use inner::visit;
use layout::entry::Entry;
use layout::kind::Kind;
use node::Child;

// Of the two children of a Node4 the one that is not at byte b.
pub fn other_child(f: &[u8], o: usize, b: u8) -> Child
    requires { Couple f.now o b }
    ensures { (result.byte < 256) × ((ks : List (ℕ × ℕ)) → InnerAt f.now o node4_kind ks → remove_kid b ks ≡ (result.byte, result.slot) ∷ []) }
{
    let first = visit::child_at(f, o, Kind::Node4, 0, 0);
    if first.byte == usize::from(b) {
        return visit::child_at(f, o, Kind::Node4, 1, first.byte + 1);
    }
    first
}

// What the join has to know of the spot.
fn read(f: &[u8], key: &[u8], spot: Spot) -> Lone
    requires { SomeEdition (λ E. Pair E f.now key.now spot) }
    ensures { (E : Edition) → Pair E f.now key.now spot → AtSpot E f.now key.now spot result }
{
    let node = spot.node;
    let here = spot.here;
    let other = other_child(f, node.place, spot.byte);
    Lone {
        node: node.slot,
        leaf: here.slot,
        at: here.place,
        byte: other.byte as u8,
        child: other.slot,
    }
}

// How many bytes more the Prefix above has room for; none if there is none.
pub fn spare(f: &[u8], above: Body) -> usize
    requires { Above f.now above }
    ensures { HasRoom f.now above result }
{
    if above.slot == 0 {
        return 0;
    }
    Prefix::MOST - Prefix::length(f, above.place)
}

// The key's Leaf goes, and its Node4 with it.
pub fn join(f: &mut [u8], key: &[u8], spot: Spot)
    requires { SomeEdition (λ E. Pair E f.old key.now spot) }
    ensures { (E : Edition) → Pair E f.old key.now spot → EraseStep E f.old key.now f.new }
{
    let l = read(f, key, spot);
    let node = spot.node;
    let above = spot.above;
    let child = Entry::read(f, l.child);
    if child.kind() != Kind::Leaf {
        if spare(f, above) == 0 {
            lone::up(f, key, l, node.link);
            return;
        }
        lone::over(f, key, l, above);
        return;
    }
    if above.slot == 0 {
        lone::leaf_up(f, key, l, node.link);
        return;
    }
    lone::leaf_over(f, key, l, spot.first, spot.first_link);
}
