// The field that names a body: the root slot field, or a child of another body.
ghost use Rattle.std.specs.Prelude.{◌+◌, ◌≤◌, length};
ghost use Rattle.room.specs.Link.{Relinked};

use fields::body::Node;
use fields::header::Header;

// The field at `at`, the root slot field or a child of a body, names this slot.
pub fn relink(f: &mut [u8], at: usize, slot: usize)
    requires { (64 ≤ length f.old) × (at + 4 ≤ length f.old) }
    ensures { Relinked f.old f.new at slot }
{
    if at == Header::AT_ROOT {
        Header::set_root(f, slot);
        return;
    }
    Node::set_child(f, at, slot);
}
