// Node48: the index entry of a byte names the place of its child, 1 to 48, or is 0.
ghost use Rattle.std.specs.Prelude.{◌≡◌, List, ℕ, ◌+◌, ◌-◌, ◌*◌, ◌≤◌, ◌<◌, length, set};
ghost use Rattle.std.proofs.Math.Option.{none};
ghost use Rattle.layout.specs.Number.{byte_at, put};
ghost use Rattle.layout.specs.Place.{node48_index, node48_children};
ghost use Rattle.model.specs.Body.{Node48At, look_kid};
ghost use Rattle.node.specs.Kids.{slot_in, insert_kid, remove_kid, Next};
ghost use Rattle.moves.specs.Moved.{Only};
ghost use Rattle.node_big.specs.Indexed.{Lowest, In48, Open48, Has48, Wrote48};

use fields::body::{Node, Node48};
use node::{Child, Seat};

// The number after the last place, which is 48.
const PAST: u8 = Node48::PLACES as u8 + 1;

// The child of byte b, and where it stands.
pub fn seat(f: &[u8], o: usize, b: u8) -> Seat
    requires { In48 f.now o }
    ensures { ((ks : List (ℕ × ℕ)) → Node48At f.now o ks → slot_in result.slot ≡ look_kid b ks)
        × (result.link ≡ o + node48_children + 4 * (byte_at f.now (o + node48_index + b) - 1)) }
{
    let p = Node48::entry(f, o, usize::from(b));
    let children = o + Node48::CHILDREN;
    if p == 0 {
        return Seat {
            slot: None,
            link: children,
        };
    }
    let link = children + Node::CHILD_SIZE * (p - 1);
    Seat {
        slot: Some(Node::child(f, link)),
        link,
    }
}

// The first child whose byte is `from` or more.
pub fn next(f: &[u8], o: usize, from: usize) -> Option<Child>
    requires { In48 f.now o × (from ≤ 256) }
    ensures { (ks : List (ℕ × ℕ)) → Node48At f.now o ks → Next from ks result }
{
    for byte in from..Node::BYTE_VALUES {
        let p = Node48::entry(f, o, byte);
        if p != 0 {
            let slot = Node48::child(f, o, p - 1);
            return Some(Child { byte, slot });
        }
    }
    None
}

// The lowest place from 1 that no entry names, or 49. A search in a search, the outer one left with the place: a rule of the project, and
// no plainer by two `for`s, which give no value.
fn lowest(f: &[u8], o: usize) -> usize
    requires { o + 456 ≤ length f.now }
    ensures { Lowest f.now (o + node48_index) result }
{
    let mut place: u8 = 1;
    let found = 'places: loop {
        if PAST <= place {
            break 'places place;
        }
        for b in 0..Node::BYTE_VALUES {
            if Node48::entry(f, o, b) == usize::from(place) {
                place += 1;
                continue 'places;
            }
        }
        break 'places place;
    };
    usize::from(found)
}

// The entry of byte b is x, the child at place p is slot, and n children are in use.
fn write(f: &mut [u8], o: usize, b: u8, x: u8, p: usize, slot: usize, n: usize)
    requires { (o + 456 ≤ length f.old) × (1 ≤ p) × (p ≤ 48) × (slot < 4294967296) × (n < 65536) }
    ensures { Wrote48 f.old f.new o b x p slot n }
{
    Node48::set_entry(f, o, usize::from(b), x);
    Node48::set_child(f, o, p - 1, slot);
    Node::set_count(f, o, n);
}

// A child more, at the lowest empty place.
pub fn add(f: &mut [u8], o: usize, b: u8, slot: usize)
    requires { Open48 f.old o × (slot < 4294967296) }
    ensures { Only f.old f.new o (o + 456)
        × ((ks : List (ℕ × ℕ)) → Node48At f.old o ks → look_kid b ks ≡ none → Node48At f.new o (insert_kid b slot ks))
        × Lowest f.old (o + node48_index) (byte_at f.new (o + node48_index + b))
        × ((d : ℕ) → d < 256 → (d ≡ b → ⊥) → byte_at f.new (o + node48_index + d) ≡ byte_at f.old (o + node48_index + d)) }
{
    let n = Node::count(f, o);
    let p = lowest(f, o);
    write(f, o, b, p as u8, p, slot, n + 1);
}

// A child less: its entry and its place are empty.
pub fn remove(f: &mut [u8], o: usize, b: u8)
    requires { Has48 f.old o b }
    ensures { Only f.old f.new o (o + 456)
        × ((ks : List (ℕ × ℕ)) → Node48At f.old o ks → Node48At f.new o (remove_kid b ks))
        × ((d : ℕ) → d < 256 → (d ≡ b → ⊥) → byte_at f.new (o + node48_index + d) ≡ byte_at f.old (o + node48_index + d)) }
{
    let n = Node::count(f, o);
    let p = Node48::entry(f, o, usize::from(b));
    write(f, o, b, 0, p, 0, n - 1);
}

// Byte b and its child at place i + 1, which was empty. The count is left.
pub fn append(f: &mut [u8], o: usize, i: usize, b: u8, slot: usize)
    requires { (o + 456 ≤ length f.old) × (i < 48) }
    ensures { f.new ≡ put 4 (set f.old (o + node48_index + b) (i + 1)) (o + node48_children + 4 * i) slot }
{
    Node48::set_entry(f, o, usize::from(b), (i + 1) as u8);
    Node48::set_child(f, o, i, slot);
}
