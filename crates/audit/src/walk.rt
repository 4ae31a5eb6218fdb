// The live tree, parent first and children in byte order, without a call for each level. The path that leads to a body stands in a
// buffer, and the inner nodes whose children are not all counted yet wait in an array, the root's node first: the stack does not grow with the tree.
ghost use Rattle.std.specs.Prelude.{◌≡◌, [], ◌+◌, ◌*◌, ◌%◌, ◌<◌, ◌≤◌, length, take};
ghost use Rattle.layout.specs.Place.{prefix_bytes};
ghost use Rattle.layout.specs.Entry.{place_of, high_of};
ghost use Rattle.pieces.specs.Decides.{Decides};
ghost use Rattle.census.specs.Told.{Tally, Told};
ghost use Rattle.editions.specs.Rules.{rules_of};
ghost use Rattle.audit.specs.Walk.{BelowSlot, Arrays, wait_of, slot_in, depth_in, turn_in, Kept, Extended, At, TreeItems, NodeTold, PrefixTold};

use census::{Bounds, Sums, take};
use editions::{Edition, Editioned};
use fields::body::Prefix;
use inner::look;
use inner::visit::child_at;
use layout::entry::Entry;
use layout::kind::Kind;
use shape::leaf::leaf_good;
use shape::prefix::prefix_good;
use shape_inner::inner_good;

// The slot below a Prefix that is counted, and how many bytes lead to it.
#[derive(Clone, Copy, Debug, PartialEq, Eq)]
pub struct Inner {
    pub sums: Sums,
    pub slot: usize,
    pub entry: Entry,
    pub depth: usize,
}

// A node that waits: its slot, the bytes that lead to it, and the child that the walk is below. A node has at most 256 children, and fewer than
// 512 bytes lead to it, so that all of it is kept as one number.
#[derive(Clone, Copy, Debug, PartialEq, Eq)]
struct Wait {
    slot: usize,
    depth: usize,
    turn: usize,
    ghost slot_fits: { slot < 32768 },
    ghost depth_fits: { depth < 512 },
    ghost turn_fits: { turn < 256 },
}

impl Wait {
    const DEPTH_UNIT: usize = 256;

    const SLOT_UNIT: usize = 131072;
}

impl From<Wait> for u32 {
    ghost from_gives = { λ w n. n ≡ wait_of w.slot w.depth w.turn };

    #[tactic(auto, unfolding(crate::specs::Walk::wait_of))]
    fn from(w: Wait) -> u32 {
        (w.slot * Wait::SLOT_UNIT + w.depth * Wait::DEPTH_UNIT + w.turn) as u32
    }
}

impl From<u32> for Wait {
    ghost from_gives = { λ n w. (w.slot ≡ slot_in n) × (w.depth ≡ depth_in n) × (w.turn ≡ turn_in n) };

    #[tactic(auto, unfolding(crate::specs::Walk::slot_in, crate::specs::Walk::depth_in, crate::specs::Walk::turn_in))]
    fn from(number: u32) -> Wait {
        let n = number as usize;
        Wait {
            slot: n / Wait::SLOT_UNIT,
            depth: n % Wait::SLOT_UNIT / Wait::DEPTH_UNIT,
            turn: n % Wait::DEPTH_UNIT,
        }
    }
}

// A slot of 1 to u that may stand below a Prefix of n bytes: an inner node, or below a full one the next of a chain.
fn below_slot(f: &[u8], s: usize, u: usize, n: usize) -> bool
    requires { 64 + 4 * u ≤ length f.now }
    ensures { Decides (BelowSlot f.now s u n) result }
{
    if s < 1 {
        return false;
    }
    if u < s {
        return false;
    }
    match Kind::try_from(Entry::read(f, s).high) {
        Ok(Kind::Prefix) => n == Prefix::MOST,
        Ok(Kind::Node4 | Kind::Node16 | Kind::Node48 | Kind::Node256) => true,
        _ => false,
    }
}

// The first n bytes of the Prefix at o follow the first bytes of the path, as many as depth.
fn extend(path: &mut [u8], depth: usize, f: &[u8], o: usize, n: usize)
    requires { (depth + n ≤ length path.old) × (o + 128 ≤ length f.now) × (n ≤ 112) }
    ensures { Extended f.now (o + prefix_bytes) depth n path.old path.new }
{
    path[depth..depth + n].copy_from_slice(&f[o + Prefix::BYTES..o + Prefix::BYTES + n]);
}

// The Leaf whose body lies at o: its body and its extent.
fn leaf(
    f: &[u8],
    map: &mut [u64],
    path: &[u8],
    o: usize,
    bounds: Bounds,
    t: Sums,
    edition: Edition,
) -> Option<Sums>
    requires inside { bounds.next ≤ length f.now }
    requires room { bounds.next ≤ 512 * length map.old }
    requires tally { Tally bounds.given 0 t }
    requires place { (o % 8 ≡ 0) × (o < 1048576) }
    ensures { At (rules_of edition) f.now path.now 1 o bounds.start bounds.given bounds.next map.old t map.new result }
{
    let r = take::body(map, Kind::Leaf, o, bounds, t)?;
    let x = leaf_good(f, o, path, bounds.start, bounds.next, edition)?;
    take::extent(map, x.place, x.size, bounds, r)
}

// The inner node that an entry tells: the body alone. A path to it is shorter than the limit.
fn node(
    f: &[u8],
    map: &mut [u64],
    depth: usize,
    entry: Entry,
    bounds: Bounds,
    t: Sums,
    limit: usize,
) -> Option<Sums>
    requires inside { bounds.next ≤ length f.now }
    requires room { bounds.next ≤ 512 * length map.old }
    requires tally { Tally bounds.given 0 t }
    requires other { (entry.high ≡ 1 → ⊥) × (entry.high ≡ 2 → ⊥) }
    requires place { (entry.place % 8 ≡ 0) × (entry.place < 1048576) }
    ensures { NodeTold f.now limit depth entry.high entry.place bounds.start bounds.given bounds.next map.old t map.new result }
{
    if entry.high < Kind::Node4.number() {
        return None;
    }
    if entry.high > Kind::Node256.number() {
        return None;
    }
    let kind = entry.kind();
    let r = take::body(map, kind, entry.place, bounds, t)?;
    if limit <= depth {
        return None;
    }
    if !inner_good(f, entry.place, kind) {
        return None;
    }
    Some(r)
}

// The Prefix of slot s, whose body lies at o, and the way to what stands below it.
fn past_prefix(
    f: &[u8],
    map: &mut [u64],
    path: &mut [u8],
    depth: usize,
    s: usize,
    o: usize,
    bounds: Bounds,
    t: Sums,
) -> Option<Inner>
    requires inside { bounds.next ≤ length f.now }
    requires room { bounds.next ≤ 512 * length map.old }
    requires tally { Tally bounds.given 0 t }
    requires path { (length path.old ≤ 512) × (depth ≤ length path.old) }
    requires slot { (1 ≤ s) × (s ≤ bounds.given) }
    requires kind { 2 ≡ high_of f.now s }
    requires place { (o ≡ place_of f.now s) × (o < 1048576) }
    ensures { Kept depth path.old path.new × PrefixTold f.now (take depth path.old) depth s bounds.start bounds.given bounds.next map.old t path.new map.new result }
{
    let sums = take::body(map, Kind::Prefix, o, bounds, t)?;
    if !prefix_good(f, o) {
        return None;
    }
    let n = Prefix::length(f, o);
    if path.len() <= depth + n {
        return None;
    }
    let slot = Prefix::child(f, o);
    if !below_slot(f, slot, bounds.given, n) {
        return None;
    }
    extend(path, depth, f, o, n);
    Some(Inner {
        sums,
        slot,
        entry: Entry::read(f, slot),
        depth: depth + n,
    })
}

// The tree at slot s, to which no path leads, of a kind other than a Leaf's. The outer loop arrives at a slot: a Prefix leads it to another, and a
// node is counted. The inner one is then at child i of a node: where that is a Leaf it is counted, else the node waits and the outer loop arrives
// at the child; after the last child the inner loop goes back to the node that waits. Both follow slots and step no index: a range is no plainer.
pub fn along<E: Editioned>(
    f: &[u8],
    map: &mut [u64],
    path: &mut [u8],
    waits: &mut [u32],
    s: usize,
    bounds: Bounds,
    t: Sums,
    edition: E,
) -> Option<Sums>
    requires inside { bounds.next ≤ length f.now }
    requires room { bounds.next ≤ 512 * length map.old }
    requires tally { Tally bounds.given 0 t }
    requires slot { (1 ≤ s) × (s ≤ bounds.given) }
    requires other { high_of f.now s ≡ 1 → ⊥ }
    requires few { bounds.given ≤ 10240 }
    requires arrays { Arrays (E.rules edition) bounds.given (length path.old) (length waits.old) }
    ensures { Told (TreeItems (E.rules edition) f.now [] s) (TreeItems (E.rules edition) f.now [] s) f.now bounds.start bounds.given bounds.next map.old t map.new result }
{
    let named = edition.edition();
    let mut waiting = 0;
    let mut sums = t;
    let mut slot = s;
    let mut entry = Entry::read(f, s);
    let mut depth = 0;
    'arrive: loop {
        if entry.high == Kind::Prefix.number() {
            let k = past_prefix(f, map, path, depth, slot, entry.place, bounds, sums)?;
            sums = k.sums;
            slot = k.slot;
            entry = k.entry;
            depth = k.depth;
            continue;
        }
        sums = node(f, map, depth, entry, bounds, sums, path.len())?;
        let mut place = entry.place;
        let mut kind = entry.kind();
        let mut n = look::count(f, place);
        let mut i = 0;
        let mut from = 0;
        'children: loop {
            if i < n {
                let c = child_at(f, place, kind, i, from);
                path[depth] = c.byte as u8;
                if c.slot < 1 {
                    return None;
                }
                if bounds.given < c.slot {
                    return None;
                }
                let e = Entry::read(f, c.slot);
                if e.high == Kind::Leaf.number() {
                    sums = leaf(f, map, &path[..depth + 1], e.place, bounds, sums, named)?;
                    from = c.byte + 1;
                    i += 1;
                    continue;
                }
                waits[waiting] = u32::from(Wait {
                    slot,
                    depth,
                    turn: i,
                });
                waiting += 1;
                slot = c.slot;
                entry = e;
                depth += 1;
                continue 'arrive;
            }
            if waiting == 0 {
                return Some(sums);
            }
            waiting -= 1;
            let w = Wait::from(waits[waiting]);
            slot = w.slot;
            depth = w.depth;
            i = w.turn + 1;
            from = usize::from(path[depth]) + 1;
            let e = Entry::read(f, slot);
            place = e.place;
            kind = e.kind();
            n = look::count(f, place);
        }
    }
}
