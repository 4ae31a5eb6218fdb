// The root with all below it, the lists of freed slots, and the sums over both.
ghost use Rattle.std.specs.Prelude.{◌≡◌, [], ◌+◌, ◌-◌, ◌*◌, ◌%◌, ◌<◌, ◌≤◌, length};
ghost use Rattle.editions.specs.Rules.{rules_of};
ghost use Rattle.model.specs.Frame.{Good};
ghost use Rattle.pieces.specs.Decides.{Decides};
ghost use Rattle.claims.specs.Units.{Seen};
ghost use Rattle.census.specs.Told.{Tally, Told};
ghost use Rattle.layout.specs.Number.{le};
ghost use Rattle.layout.specs.Place.{at_u};
ghost use Rattle.audit.specs.Walk.{At, Arrays};
ghost use Rattle.audit.specs.Audit.{ruled, HeaderFits, RootItems, EmptyTold, Unmarked, Closes};

use crate::walk::along;
use census::freed::lists;
use census::{Bounds, Sums, take};
use editions::{Edition, Editioned};
use fields::body::EmptyRoot;
use fields::header::Header;
use layout::entry::Entry;
use layout::kind::Kind;
use pieces::zero_eight;
use shape::leaf::lone_good;
use sweep::swept;

// By which rule a frame is good: its edition's, and whether what is freed has to be wiped.
#[derive(Clone, Copy, Debug, PartialEq, Eq)]
struct Rule {
    edition: Edition,
    wiped: bool,
}

// An EmptyRoot whose body lies at o.
fn empty(f: &[u8], map: &mut [u64], o: usize, bounds: Bounds, t: Sums) -> Option<Sums>
    requires inside { bounds.next ≤ length f.now }
    requires room { bounds.next ≤ 512 * length map.old }
    requires tally { Tally bounds.given 0 t }
    requires place { (o % 8 ≡ 0) × (o < 1048576) }
    ensures { EmptyTold f.now o bounds.start bounds.given bounds.next map.old t map.new result }
{
    let r = take::body(map, Kind::EmptyRoot, o, bounds, t)?;
    if !zero_eight(f, o + EmptyRoot::ZERO) {
        return None;
    }
    Some(r)
}

// A Leaf whose body lies at o, to which no path leads. Tried as one with the walk's, whose second caller it then is: a check took 1.06 to 1.11 of the
// instructions.
fn lone(
    f: &[u8],
    map: &mut [u64],
    o: usize,
    bounds: Bounds,
    t: Sums,
    edition: Edition,
) -> Option<Sums>
    requires inside { bounds.next ≤ length f.now }
    requires room { bounds.next ≤ 512 * length map.old }
    requires tally { Tally bounds.given 0 t }
    requires place { (o % 8 ≡ 0) × (o < 1048576) }
    ensures { At (rules_of edition) f.now [] 1 o bounds.start bounds.given bounds.next map.old t map.new result }
{
    let r = take::body(map, Kind::Leaf, o, bounds, t)?;
    let x = lone_good(f, o, bounds.start, bounds.next, edition)?;
    take::extent(map, x.place, x.size, bounds, r)
}

// The root slot: "EmptyRoot stands only at the root".
fn root(
    f: &[u8],
    map: &mut [u64],
    path: &mut [u8],
    waits: &mut [u32],
    s: usize,
    bounds: Bounds,
    t: Sums,
    edition: Edition,
) -> Option<Sums>
    requires inside { bounds.next ≤ length f.now }
    requires room { bounds.next ≤ 512 * length map.old }
    requires tally { Tally bounds.given 0 t }
    requires few { bounds.given ≤ 10240 }
    requires arrays { Arrays (rules_of edition) bounds.given (length path.old) (length waits.old) }
    ensures { Told (RootItems (rules_of edition) f.now s) (RootItems (rules_of edition) f.now s) f.now bounds.start bounds.given bounds.next map.old t map.new result }
{
    if s < 1 {
        return None;
    }
    if bounds.given < s {
        return None;
    }
    let e = Entry::read(f, s);
    if e.high == Kind::EmptyRoot.number() {
        return empty(f, map, e.place, bounds, t);
    }
    if e.high == Kind::Leaf.number() {
        return lone(f, map, e.place, bounds, t, edition);
    }
    along(f, map, path, waits, s, bounds, t, edition)
}

// "B - D equals the sizes of all of them plus X", U slots in all, and R Leaves.
fn closes(f: &[u8], slots: usize, bytes: usize, leaves: usize) -> bool
    requires { (64 ≤ length f.now) × (bytes < 4294967296 * 4294967296 - 8589934592) }
    ensures { Closes f.now slots bytes leaves result }
{
    if slots != Header::slots_given(f) {
        return false;
    }
    if leaves != Header::records(f) {
        return false;
    }
    Header::data_start(f) + bytes + Header::dead_bytes(f) == Header::next_byte(f)
}

// The units that the map has not marked are zero, where the rule asks for it.
fn unmarked(f: &[u8], map: &[u64], bounds: Bounds, wiped: bool) -> bool
    requires eights { (bounds.start % 8 ≡ 0) × (bounds.next % 8 ≡ 0) }
    requires inside { bounds.next ≤ length f.now }
    requires room { bounds.next ≤ 512 * length map.now }
    ensures { Decides (Unmarked wiped f.now map.now bounds.start bounds.next) result }
{
    if !wiped {
        return true;
    }
    swept(f, map, bounds.start, bounds.next)
}

// All, with a map of units that is still zero. What nothing live has marked is looked at before the freed bodies are marked too.
fn over(f: &[u8], map: &mut [u64], path: &mut [u8], waits: &mut [u32], rule: Rule) -> bool
    requires header { HeaderFits (rules_of rule.edition) f.now }
    requires room { length f.now ≤ 512 * length map.old }
    requires fresh { Seen map.old [] }
    requires arrays { Arrays (rules_of rule.edition) (le 4 f.now at_u) (length path.old) (length waits.old) }
    ensures { Decides (Good (ruled rule.wiped (rules_of rule.edition)) f.now) result }
{
    let bounds = Bounds {
        start: Header::data_start(f),
        given: Header::slots_given(f),
        next: Header::next_byte(f),
    };
    let none = Sums {
        slots: 0,
        bytes: 0,
        leaves: 0,
    };
    let Some(live) = root(
        f,
        map,
        path,
        waits,
        Header::root(f),
        bounds,
        none,
        rule.edition,
    ) else {
        return false;
    };
    if !unmarked(f, map, bounds, rule.wiped) {
        return false;
    }
    let Some(all) = lists(f, map, bounds, live) else {
        return false;
    };
    closes(f, all.slots, all.bytes, live.leaves)
}

// How many lengths a path to an inner node can have, by the edition: so many nodes can wait.
const DEPTHS: usize = 113;

const DEPTHS_SECOND: usize = 512;

// No more nodes wait than slots are given out, and a small frame has often no more than these.
const FEW_SLOTS: usize = 32;

const SOME_SLOTS: usize = 64;

const MANY_SLOTS: usize = 128;

// The same with arrays for the path and for the nodes that wait. They stand in a part of the stack of their own, which no other call takes.
#[inline(never)]
fn with_arrays<const PATH: usize, const WAITS: usize>(f: &[u8], map: &mut [u64], rule: Rule) -> bool
    requires header { HeaderFits (rules_of rule.edition) f.now }
    requires room { length f.now ≤ 512 * length map.old }
    requires fresh { Seen map.old [] }
    requires arrays { Arrays (rules_of rule.edition) (le 4 f.now at_u) PATH WAITS }
    requires waits_fit { WAITS ≤ 512 }
    ensures { Decides (Good (ruled rule.wiped (rules_of rule.edition)) f.now) result }
{
    let mut path = [0u8; PATH];
    let mut waits = [0u32; WAITS];
    over(f, map, &mut path, &mut waits, rule)
}

// The same with arrays that are no longer than they need be.
fn by_slots(f: &[u8], map: &mut [u64], rule: Rule) -> bool
    requires header { HeaderFits (rules_of rule.edition) f.now }
    requires room { length f.now ≤ 512 * length map.old }
    requires fresh { Seen map.old [] }
    ensures { Decides (Good (ruled rule.wiped (rules_of rule.edition)) f.now) result }
{
    let given = Header::slots_given(f);
    match rule.edition {
        Edition::First => {
            if given <= FEW_SLOTS {
                return with_arrays::<DEPTHS, FEW_SLOTS>(f, map, rule);
            }
            with_arrays::<DEPTHS, DEPTHS>(f, map, rule)
        }
        Edition::Second => {
            if given <= FEW_SLOTS {
                return with_arrays::<DEPTHS_SECOND, FEW_SLOTS>(f, map, rule);
            }
            if given <= SOME_SLOTS {
                return with_arrays::<DEPTHS_SECOND, SOME_SLOTS>(f, map, rule);
            }
            if given <= MANY_SLOTS {
                return with_arrays::<DEPTHS_SECOND, MANY_SLOTS>(f, map, rule);
            }
            with_arrays::<DEPTHS_SECOND, DEPTHS_SECOND>(f, map, rule)
        }
    }
}

// Words of the map, 64 units each, and the longest frames that the smaller maps are for.
const SMALLEST_MAP: usize = 8;

const SMALL_MAP: usize = 32;

const LARGE_MAP: usize = 1024;

const SMALLEST_FRAME: usize = 4096;

const SMALL_FRAME: usize = 16384;

// The same with a map of so many words, in a part of the stack of its own.
#[inline(never)]
fn with_map<const WORDS: usize>(f: &[u8], rule: Rule) -> bool
    requires header { HeaderFits (rules_of rule.edition) f.now }
    requires room { length f.now ≤ 512 * WORDS }
    requires words_fit { WORDS ≤ 1024 }
    ensures { Decides (Good (ruled rule.wiped (rules_of rule.edition)) f.now) result }
{
    let mut map = [0u64; WORDS];
    by_slots(f, &mut map, rule)
}

// All, with a map on the stack that is no larger than it need be.
pub fn all<E: Editioned>(f: &[u8], edition: E, wiped: bool) -> bool
    requires { HeaderFits (E.rules edition) f.now }
    ensures { Decides (Good (ruled wiped (E.rules edition)) f.now) result }
{
    let rule = Rule {
        edition: edition.edition(),
        wiped,
    };
    if f.len() <= SMALLEST_FRAME {
        return with_map::<SMALLEST_MAP>(f, rule);
    }
    if f.len() <= SMALL_FRAME {
        return with_map::<SMALL_MAP>(f, rule);
    }
    with_map::<LARGE_MAP>(f, rule)
}
