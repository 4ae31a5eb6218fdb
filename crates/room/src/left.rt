// The room that a good frame has for some needs: N - U, F - B, and of each kind's list as many bodies as are asked for.
ghost use Rattle.layout.specs.Kind.{number_of};
ghost use Rattle.model.specs.Edition.{Edition};
ghost use Rattle.model.specs.State.{State};
ghost use Rattle.model.specs.Frame.{View, Heap, Stands};
ghost use Rattle.room.specs.Left.{HasHeap, Listed};
ghost use Rattle.room.specs.Fit.{RoomOf};

use crate::fit::{Needs, Room};
use fields::header::Header;
use layout::entry::Entry;
use layout::kind::Kind;

// Of the first `most` bodies on a kind's list, how many there are.
fn listed(f: &[u8], kind: Kind, most: usize) -> usize
    requires { HasHeap f.now }
    ensures { (h : View) → Heap f.now h → Listed h (number_of kind) most result }
{
    if most == 0 {
        return 0;
    }
    let mut s = Header::list_head(f, kind);
    for n in 0..most {
        if s == 0 {
            return n;
        }
        s = Entry::read(f, s).high;
    }
    most
}

pub fn room_for(f: &[u8], needs: Needs) -> Room
    requires { HasHeap f.now }
    ensures { (E : Edition) (s : State) → Stands E f.now s → RoomOf result s needs }
{
    let mut free = [0; Kind::TABLE];
    for k in 1..Kind::TABLE {
        free[k] = listed(f, Kind::known(k), needs.bodies[k]);
    }
    let capacity = Header::slot_capacity(f);
    let given = Header::slots_given(f);
    Room {
        free,
        slots: capacity - given,
        bytes: f.len() - Header::next_byte(f),
    }
}
