// The lists of freed slots: "the list it is on tells the kind"; the high 15 bits of an entry are the next slot, and 0 ends a list.
ghost use Rattle.std.specs.Prelude.{◌≡◌, ◌+◌, ◌*◌, ◌<◌, ◌≤◌, length};
ghost use Rattle.layout.specs.Kind.{number_of};
ghost use Rattle.census.specs.Told.{Tally, Told};
ghost use Rattle.census.specs.Freed.{ChainItems, ListItems, FreedItems};

use crate::{Bounds, Sums, take};
use fields::header::Header;
use layout::entry::Entry;
use layout::kind::Kind;

// The slots from `head` on, bodies of the kind.
fn chain(
    f: &[u8],
    map: &mut [u64],
    kind: Kind,
    head: usize,
    bounds: Bounds,
    t: Sums,
) -> Option<Sums>
    requires inside { bounds.next ≤ length f.now }
    requires room { bounds.next ≤ 512 * length map.old }
    requires tally { Tally bounds.given 0 t }
    ensures { Told (ChainItems f.now (number_of kind) head) (ChainItems f.now (number_of kind) head) f.now bounds.start bounds.given bounds.next map.old t map.new result }
{
    let mut s = head;
    let mut sums = t;
    // it follows the links of a list and steps no index: a range is no plainer
    while s != 0 {
        if bounds.given < s {
            return None;
        }
        let e = Entry::read(f, s);
        sums = take::body(map, kind, e.place, bounds, sums)?;
        s = e.high;
    }
    Some(sums)
}

// The list of a kind; "list 3 is empty".
fn list(f: &[u8], map: &mut [u64], kind: Kind, bounds: Bounds, t: Sums) -> Option<Sums>
    requires inside { bounds.next ≤ length f.now }
    requires room { bounds.next ≤ 512 * length map.old }
    requires tally { Tally bounds.given 0 t }
    ensures { Told (ListItems f.now (number_of kind)) (ListItems f.now (number_of kind)) f.now bounds.start bounds.given bounds.next map.old t map.new result }
{
    let head = Header::list_head(f, kind);
    match kind {
        Kind::Crossing => {
            if head != 0 {
                return None;
            }
            Some(t)
        }
        _ => chain(f, map, kind, head, bounds, t),
    }
}

// All eight. An empty list has no slots, and nothing of it is counted.
pub fn lists(f: &[u8], map: &mut [u64], bounds: Bounds, t: Sums) -> Option<Sums>
    requires inside { bounds.next ≤ length f.now }
    requires room { bounds.next ≤ 512 * length map.old }
    requires tally { Tally bounds.given 0 t }
    ensures { Told (FreedItems f.now 1) (FreedItems f.now 1) f.now bounds.start bounds.given bounds.next map.old t map.new result }
{
    let mut sums = t;
    for n in 1..Kind::TABLE {
        let kind = Kind::known(n);
        if Header::list_head(f, kind) == 0 {
            continue;
        }
        sums = list(f, map, kind, bounds, sums)?;
    }
    Some(sums)
}
