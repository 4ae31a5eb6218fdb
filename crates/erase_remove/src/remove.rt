// The inner node that holds the Leaf keeps its kind.
ghost use Rattle.std.specs.Prelude.{ℕ, List};
ghost use Rattle.model.specs.Edition.{Edition};
ghost use Rattle.descent.specs.Spot.{SomeDescent};
ghost use Rattle.erase_remove.specs.Erase.{Stays, EraseStep};

use crate::leaf;
use descent::spot::Spot;
use inner::change;

// The byte leaves the node, then the Leaf goes.
pub fn remove_child(f: &mut [u8], spot: Spot)
    requires { SomeDescent (λ E k. Stays E f.old k spot) }
    ensures { (E : Edition) (k : List ℕ) → Stays E f.old k spot → EraseStep E f.old k f.new }
{
    let node = spot.node;
    let here = spot.here;
    change::remove(f, node.place, node.kind, spot.byte);
    leaf::drop_leaf(f, here.slot, here.place);
}
