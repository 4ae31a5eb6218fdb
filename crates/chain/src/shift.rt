// The run of Prefixes on top of a tree, changed where it stands: freed, or each body gives bytes to the one before it or after it.
ghost use Rattle.chain.specs.Shift.{Frees, RunFreed, Fills, RunFilled, Pushes, RunPushed};

use fields::body::Prefix;
use layout::entry::Entry;
use layout::kind::Kind;
use room::{heap, link};

// The run at this slot is freed, from the first body on; what stands below it stays.
pub fn free(f: &mut [u8], slot: usize)
    requires { Frees f.old slot 5 }
    ensures { RunFreed f.old f.new slot }
{
    let mut top = slot;
    for _ in 0..crate::MOST {
        let Some(place) = crate::prefix_at(f, top) else {
            return;
        };
        let below = Prefix::child(f, place);
        heap::release(f, top, Kind::Prefix);
        top = below;
    }
}

// The Prefix at o is filled up from the run below, whose first slot it names. The last body of that is freed if it has no byte left.
pub fn fill(f: &mut [u8], o: usize, slot: usize)
    requires { Fills f.old o slot 5 }
    ensures { RunFilled f.old f.new o slot }
{
    let mut at = o;
    let mut s = slot;
    for _ in 0..crate::MOST {
        let Some(place) = crate::prefix_at(f, s) else {
            return;
        };
        let n = Prefix::length(f, at);
        if n == Prefix::MOST {
            return;
        }
        if n + Prefix::length(f, place) <= Prefix::MOST {
            prefix_body::onto(f, at, place);
            heap::release(f, s, Kind::Prefix);
            return;
        }
        prefix_body::draw(f, at, place);
        at = place;
        s = Prefix::child(f, at);
    }
}

// The byte b joins in front of the run at this slot, and `at` names it. A full Prefix takes the byte and gives its last one to what is below;
// an inner node gets a Prefix.
pub fn push(f: &mut [u8], slot: usize, b: u8, at: usize)
    requires { Pushes f.old slot b at 5 }
    ensures { RunPushed f.old f.new slot b at }
{
    let mut s = slot;
    let mut byte = b;
    let mut name = at;
    for _ in 0..crate::MOST {
        let Some(place) = crate::prefix_at(f, s) else {
            break;
        };
        link::relink(f, name, s);
        if Prefix::length(f, place) < Prefix::MOST {
            prefix_body::front(f, place, byte);
            return;
        }
        byte = prefix_body::turn(f, place, byte);
        name = place + Prefix::CHILD;
        s = Prefix::child(f, place);
    }
    let new = heap::take(f, Kind::Prefix);
    let body = Entry::read(f, new);
    prefix_body::fresh(f, body.place, byte, s);
    link::relink(f, name, new);
}
