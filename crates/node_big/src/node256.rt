// Node256: the child of a byte stands at the byte's place, and 0 where there is none.
ghost use Rattle.std.specs.Prelude.{◌≡◌, List, ℕ, ◌+◌, ◌*◌, ◌≤◌, ◌<◌, length};
ghost use Rattle.std.proofs.Math.Option.{none};
ghost use Rattle.layout.specs.Number.{put};
ghost use Rattle.layout.specs.Place.{node256_children};
ghost use Rattle.model.specs.Body.{Node256At, look_kid};
ghost use Rattle.node.specs.Kids.{slot_in, insert_kid, remove_kid, Next};
ghost use Rattle.moves.specs.Moved.{Only};
ghost use Rattle.node_big.specs.Indexed.{In256, Open256, Has256, Wrote256};

use fields::body::{Node, Node256};
use node::{Child, Seat};

// The child of byte b, and where it stands.
pub fn seat(f: &[u8], o: usize, b: u8) -> Seat
    requires { In256 f.now o }
    ensures { ((ks : List (ℕ × ℕ)) → Node256At f.now o ks → slot_in result.slot ≡ look_kid b ks) × (result.link ≡ o + node256_children + 4 * b) }
{
    let link = o + Node256::CHILDREN + Node::CHILD_SIZE * usize::from(b);
    let slot = match Node::child(f, link) {
        0 => None,
        s => Some(s),
    };
    Seat { slot, link }
}

// The first child whose byte is `from` or more.
pub fn next(f: &[u8], o: usize, from: usize) -> Option<Child>
    requires { In256 f.now o × (from ≤ 256) }
    ensures { (ks : List (ℕ × ℕ)) → Node256At f.now o ks → Next from ks result }
{
    for byte in from..Node::BYTE_VALUES {
        let slot = Node256::child(f, o, byte);
        if slot != 0 {
            return Some(Child { byte, slot });
        }
    }
    None
}

// The child of byte b is slot, and n children are in use.
fn write(f: &mut [u8], o: usize, b: u8, slot: usize, n: usize)
    requires { (o + 1032 ≤ length f.old) × (slot < 4294967296) × (n < 65536) }
    ensures { Wrote256 f.old f.new o b slot n }
{
    Node256::set_child(f, o, usize::from(b), slot);
    Node::set_count(f, o, n);
}

// A child more.
pub fn add(f: &mut [u8], o: usize, b: u8, slot: usize)
    requires { Open256 f.old o × (1 ≤ slot) × (slot < 4294967296) }
    ensures { Only f.old f.new o (o + 1032)
        × ((ks : List (ℕ × ℕ)) → Node256At f.old o ks → look_kid b ks ≡ none → Node256At f.new o (insert_kid b slot ks)) }
{
    let n = Node::count(f, o);
    write(f, o, b, slot, n + 1);
}

// A child less.
pub fn remove(f: &mut [u8], o: usize, b: u8)
    requires { Has256 f.old o b }
    ensures { Only f.old f.new o (o + 1032)
        × ((ks : List (ℕ × ℕ)) → Node256At f.old o ks → Node256At f.new o (remove_kid b ks)) }
{
    let n = Node::count(f, o);
    write(f, o, b, 0, n - 1);
}

// The child of byte b, which had none. The count is left.
pub fn append(f: &mut [u8], o: usize, b: u8, slot: usize)
    requires { o + 1032 ≤ length f.old }
    ensures { f.new ≡ put 4 f.old (o + node256_children + 4 * b) slot }
{
    Node256::set_child(f, o, usize::from(b), slot);
}
