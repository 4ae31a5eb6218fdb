// "A Node256 that falls to 37, a Node48 to 12, a Node16 to 3 needs a body of the next smaller kind and frees its own."
ghost use Rattle.std.specs.Prelude.{ℕ, List};
ghost use Rattle.model.specs.Edition.{Edition};
ghost use Rattle.descent.specs.Spot.{SomeDescent};
ghost use Rattle.erase_remove.specs.Erase.{Falls, EraseStep};

use crate::leaf;
use descent::spot::Spot;
use inner::{carry, change};
use layout::entry::Entry;
use room::heap;

// A smaller body is taken and gets the children that stay; the old body and the Leaf go.
pub fn shrink(f: &mut [u8], spot: Spot)
    requires { SomeDescent (λ E k. Falls E f.old k spot) }
    ensures { (E : Edition) (k : List ℕ) → Falls E f.old k spot → EraseStep E f.old k f.new }
{
    let node = spot.node;
    let here = spot.here;
    // a Node4, which has no kind below, is joined
    let Some(smaller) = node.kind.down() else {
        unreachable!()
    };
    let slot = heap::take(f, smaller);
    let new = Entry::read(f, slot);
    change::remove(f, node.place, node.kind, spot.byte);
    change::empty(f, new.place, smaller);
    carry::carry(f, node.place, node.kind, new.place, smaller);
    room::link::relink(f, node.link, slot);
    heap::release(f, node.slot, node.kind);
    leaf::drop_leaf(f, here.slot, here.place);
}
