// What the joins share: what is left over is given back.
ghost use Rattle.erase_join.specs.Drop.{Drops, DropsAll};

use erase_remove::leaf;
use layout::kind::Kind;
use room::heap;

// The Node4 is freed, and the Leaf goes.
pub fn drop_both(f: &mut [u8], leaf: usize, node: usize, at: usize)
    requires { Drops f.old leaf node at }
    ensures { DropsAll f.old f.new leaf node at }
{
    heap::release(f, node, Kind::Node4);
    leaf::drop_leaf(f, leaf, at);
}
