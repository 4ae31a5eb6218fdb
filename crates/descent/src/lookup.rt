// Look-up: the place, length and stamp of a key's value with the slots visited, and the value itself as that part of the frame.
ghost use Rattle.model.specs.Edition.{Legal};
ghost use Rattle.model.specs.State.{State};
ghost use Rattle.model.specs.Visits.{visits_in};
ghost use Rattle.model.specs.Frame.{Stands, root_art};
ghost use Rattle.model.specs.Touch.{find_at};
ghost use Rattle.model.specs.Promise.{found_of};
ghost use Rattle.descent.specs.Spot.{Standing};
ghost use Rattle.descent.specs.Lookup.{Looked, Handed};

use crate::spot::End;
use crate::walk;
use editions::Editioned;
use fields::body::Leaf;

// Where a value stands, counted from the frame's start, how long it is, and its stamp.
#[derive(Clone, Copy, Debug, PartialEq, Eq)]
pub struct Located {
    pub place: usize,
    pub length: usize,
    pub stamp: usize,
}

#[derive(Clone, Copy, Debug, PartialEq, Eq)]
pub struct Held {
    // how many slots were visited
    pub slots: usize,
    // none for a key that is not there
    pub value: Option<Located>,
}

// Where a legal key's value stands in a good frame.
pub fn find<E: Editioned>(f: &[u8], key: &[u8], edition: E) -> Held
    requires { Standing (E.rules edition) f.now × Legal (E.rules edition) key.now }
    ensures { (st : State) (W : Stands (E.rules edition) f.now st) → Looked (E.rules edition) f.now key.now st W.root result }
{
    let s = walk::spot_of(f, key, edition.edition());
    match s.end {
        End::Found => {
            let slots = s.visited;
            let leaf = s.here.place;
            let place = Leaf::extent(f, leaf) + key.len();
            let length = Leaf::value_length(f, leaf);
            let stamp = Leaf::stamp(f, leaf);
            let value = Some(Located {
                place,
                length,
                stamp,
            });
            Held { slots, value }
        }
        _ => Held {
            slots: s.visited,
            value: None,
        },
    }
}

// The value as a part of the frame; for an absent key the empty part at its start.
pub fn value<'a, E: Editioned>(f: &'a [u8], key: &[u8], edition: E) -> &'a [u8]
    requires { Standing (E.rules edition) f.now × Legal (E.rules edition) key.now }
    ensures { (st : State) (W : Stands (E.rules edition) f.now st) → Handed f.now f.entry.ref_ptr (found_of (find_at (E.rules edition) W.root key.now) (visits_in (E.rules edition) (root_art W.root) key.now)) result.ref_ptr result.now }
{
    match find(f, key, edition).value {
        Some(v) => &f[v.place..v.place + v.length],
        None => &f[0..0],
    }
}
