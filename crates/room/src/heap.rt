// The heap of a frame: bodies are taken and freed, extents given out and retired, R and the root slot set. Taking, freeing, giving
// out and retiring are one function each, and nothing else changes a list, U, B or X.
ghost use Rattle.std.specs.Prelude.{◌≡◌, ℕ, ◌+◌, ◌≤◌, ◌<◌, List, ◌∷◌, length};
ghost use Rattle.layout.specs.Number.{le, put};
ghost use Rattle.layout.specs.Place.{at_b, at_u, at_head, entry_at};
ghost use Rattle.layout.specs.Kind.{number_of, body_size};
ghost use Rattle.layout.specs.Entry.{entry_of, place_of, high_of};
ghost use Rattle.model.specs.Tree.{up8};
ghost use Rattle.model.specs.Item.{Item, body, extent, Same};
ghost use Rattle.model.specs.Frame.{View, Heap};
ghost use Rattle.room.specs.View.{Roomy, recorded, rooted};
ghost use Rattle.room.specs.Step.{Takes, Took, Frees, Freed, Extends, Extended, Retires, Died, Renumbered};

use fields::body::Leaf;
use fields::header::Header;
use layout::entry::Entry;
use layout::kind::Kind;
use moves::{clear, fill};

// The first slot of a kind's list leaves it and is live again.
fn pop(f: &mut [u8], kind: Kind, s: usize)
    requires { (64 ≤ length f.old) × (1 ≤ s) × (entry_at s + 4 ≤ length f.old) }
    ensures { (high_of f.old s < 32768)
        × (f.new ≡ put 4 (put 2 f.old (at_head (number_of kind)) (high_of f.old s)) (entry_at s) (entry_of (number_of kind) (place_of f.old s))) }
{
    let e = Entry::read(f, s);
    Header::set_list_head(f, kind, e.high);
    Entry::write(f, s, kind.number(), e.place);
}

// Slot U + 1 and bytes at B.
fn fresh(f: &mut [u8], kind: Kind) -> usize
    requires { (entry_at (le 4 f.old at_u + 1) + 4 ≤ length f.old) × (le 4 f.old at_b + body_size (number_of kind) ≤ 524288) }
    ensures { (result ≡ le 4 f.old at_u + 1)
        × (f.new ≡ put 4 (put 4 (put 4 f.old at_u result) at_b (le 4 f.old at_b + body_size (number_of kind))) (entry_at result) (entry_of (number_of kind) (le 4 f.old at_b))) }
{
    let s = Header::slots_given(f) + 1;
    let o = Header::next_byte(f);
    let n = kind.body_size();
    Header::set_slots_given(f, s);
    Header::set_next_byte(f, o + n);
    Entry::write(f, s, kind.number(), o);
    s
}

// A body of a kind: its slot. From its list if that isn't empty, else a fresh one.
pub fn take(f: &mut [u8], kind: Kind) -> usize
    requires { Takes f.old (number_of kind) }
    ensures { (h : View) → Heap f.old h → Roomy h (number_of kind) → Took f.old f.new h (number_of kind) result }
{
    let s = Header::list_head(f, kind);
    if s == 0 {
        return fresh(f, kind);
    }
    pop(f, kind, s);
    s
}

// A body goes on its kind's list: zero is written over it.
pub fn release(f: &mut [u8], s: usize, kind: Kind)
    requires { Frees f.old s (number_of kind) }
    ensures { (h : View) (o : ℕ) (rest : List Item) → Heap f.old h → Same h.owned (body s (number_of kind) o ∷ rest) → place_of f.old s ≡ o
        → Freed f.old f.new h s (number_of kind) o rest }
{
    let next = Header::list_head(f, kind);
    let e = Entry::read(f, s);
    clear(f, e.place, kind.body_size());
    Entry::write(f, s, next, e.place);
    Header::set_list_head(f, kind, s);
}

// An extent: key and value at B, which is its place.
pub fn extend(f: &mut [u8], key: &[u8], value: &[u8]) -> usize
    requires { Extends f.old (length key.now + length value.now) }
    ensures { (h : View) → Heap f.old h → h.nums.B + up8 (length key.now + length value.now) ≤ h.nums.F
        → Extended f.old f.new h key.now value.now result }
{
    let place = Header::next_byte(f);
    let k = key.len();
    let size = Leaf::rounded(k + value.len());
    fill::paste(f, place, key);
    fill::paste(f, place + k, value);
    Header::set_next_byte(f, place + size);
    place
}

// The extent of `size` bytes at `place` dies: zero is written over it.
pub fn retire(f: &mut [u8], place: usize, size: usize)
    requires { Retires f.old place size }
    ensures { (h : View) (rest : List Item) → Heap f.old h → Same h.owned (extent place size ∷ rest)
        → Died f.old f.new h place size rest }
{
    clear(f, place, size);
    let x = Header::dead_bytes(f);
    Header::set_dead_bytes(f, x + size);
}

// R is r.
pub fn set_records(f: &mut [u8], r: usize)
    requires { (64 ≤ length f.old) × (r < 4294967296) }
    ensures { (h : View) → Heap f.old h → Renumbered f.old f.new h (recorded h r) }
{
    Header::set_records(f, r);
}

// The root slot is s.
pub fn set_root(f: &mut [u8], s: usize)
    requires { (64 ≤ length f.old) × (s < 65536) }
    ensures { (h : View) → Heap f.old h → Renumbered f.old f.new h (rooted h s) }
{
    Header::set_root(f, s);
}
