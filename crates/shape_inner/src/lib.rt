// The exact test of an inner node's body, of any kind, in a frame whose bytes are arbitrary. Nothing is written.
#![tactic(auto)]

ghost use Rattle.std.specs.Prelude.{◌+◌, ◌*◌, ◌≤◌, ◌<◌, ◌≡◌, length};
ghost use Rattle.layout.specs.Kind.{number_of, body_size};
ghost use Rattle.layout.specs.Place.{node48_children};
ghost use Rattle.model.specs.Body.{Asc};
ghost use Rattle.pieces.specs.Decides.{Decides};
ghost use Rattle.shape_inner.specs.Inner.{CountFits, InnerHere, sorted_kids, Unused, SortedHere, in_use, Unmarked, IndexedHere, kids256};

use fields::body::{Node, Node4, Node16, Node48, Node256, Rows};
use layout::kind::Kind;

// ---- Node4 and Node16

// The n bytes at a place ascend.
fn rising(f: &[u8], at: usize, cap: usize, n: usize) -> bool
    requires { (n ≤ cap) × (at + 5 * cap ≤ length f.now) }
    ensures { Decides (Asc 0 (sorted_kids f.now at (at + cap) n)) result }
{
    // the least that the next byte may be
    let mut low = 0;
    for i in 0..n {
        let b = Rows::byte(f, at, i);
        if b < low {
            return false;
        }
        low = b + 1;
    }
    true
}

// The places from n on are zero.
fn unused(f: &[u8], at: usize, cap: usize, n: usize) -> bool
    requires { (n ≤ cap) × (at + 5 * cap ≤ length f.now) }
    ensures { Decides (Unused f.now at cap n cap) result }
{
    for i in n..cap {
        if Rows::byte(f, at, i) != 0 {
            return false;
        }
        if Rows::child(f, at + cap, i) != 0 {
            return false;
        }
    }
    true
}

// Of cap places, with bytes at a place and children behind them, n are used, in ascending order.
fn sorted_good(f: &[u8], at: usize, cap: usize, n: usize) -> bool
    requires { (n ≤ cap) × (at + 5 * cap ≤ length f.now) }
    ensures { Decides (SortedHere f.now at cap n) result }
{
    if !rising(f, at, cap, n) {
        return false;
    }
    unused(f, at, cap, n)
}

// ---- Node48 and Node256

// 1 for a child or an entry that is in use, 0 for one that is 0. A loop that counts so goes one way, whatever the bytes are.
#[tactic(auto, using(crate::proofs::KidsLaws::in_use_zero, crate::proofs::KidsLaws::in_use_other))]
fn in_use(x: usize) -> usize
    ensures { (result ≡ in_use x) × (result ≤ 1) }
{
    usize::from(x != 0)
}

// ---- Node48

// The children at the places that are not marked are zero.
fn unmarked(f: &[u8], o: usize, seen: &[u8]) -> bool
    requires { (o + 456 ≤ length f.now) × (length seen.now ≡ 256) }
    ensures { Decides (Unmarked f.now (o + node48_children) seen.now) result }
{
    for p in 0..Node48::PLACES {
        if seen[p + 1] != 0 {
            continue;
        }
        if Node48::child(f, o, p) != 0 {
            return false;
        }
    }
    true
}

// The index names n places, no place twice, and the children that it does not name are zero.
fn indexed_good(f: &[u8], o: usize, n: usize) -> bool
    requires { o + 456 ≤ length f.now }
    ensures { Decides (IndexedHere f.now o n) result }
{
    // for each number that an entry can hold as a place: the number itself once it has been named
    let mut seen: [u8; Node::BYTE_VALUES] = [0; Node::BYTE_VALUES];
    // not 0 once a place has been named again
    let mut twice: u8 = 0;
    let mut used: usize = 0;
    for b in 0..Node::BYTE_VALUES {
        let p = Node48::entry(f, o, b);
        twice |= seen[p];
        seen[p] = p as u8;
        used += in_use(p);
    }
    if twice != 0 {
        return false;
    }
    if used != n {
        return false;
    }
    // no entry is above the last place
    if !pieces::all_zero(&seen, Node48::PLACES + 1, Node::BYTE_VALUES) {
        return false;
    }
    unmarked(f, o, &seen)
}

// ---- Node256

// n of the children are there.
fn direct_good(f: &[u8], o: usize, n: usize) -> bool
    requires { o + 1032 ≤ length f.now }
    ensures { Decides (length (kids256 f.now o) ≡ n) result }
{
    let mut used: usize = 0;
    for b in 0..Node::BYTE_VALUES {
        used += in_use(Node256::child(f, o, b));
    }
    used == n
}

// ---- any inner kind

// A node of the kind may have n children.
fn count_fits(kind: Kind, n: usize) -> bool
    ensures { Decides (CountFits (number_of kind) n) result }
{
    if n < kind.fewest_children() {
        return false;
    }
    n <= kind.most_children()
}

// The body at o is a good one of the kind. The tables over kinds are asked only at a kind that is known there.
pub fn inner_good(f: &[u8], o: usize, kind: Kind) -> bool
    requires inner { (4 ≤ number_of kind) × (number_of kind ≤ 7) }
    requires room { o + body_size (number_of kind) ≤ length f.now }
    ensures { Decides (InnerHere f.now o (number_of kind)) result }
{
    let n = Node::count(f, o);
    if Node::zero(f, o) != 0 {
        return false;
    }
    if kind == Kind::Node4 {
        if !count_fits(Kind::Node4, n) {
            return false;
        }
        return sorted_good(f, o + Node4::BYTES, Node4::PLACES, n);
    }
    if Node::zero_more(f, o) != 0 {
        return false;
    }
    match kind {
        Kind::Node16 => {
            if !count_fits(Kind::Node16, n) {
                return false;
            }
            sorted_good(f, o + Node16::BYTES, Node16::PLACES, n)
        }
        Kind::Node48 => {
            if !count_fits(Kind::Node48, n) {
                return false;
            }
            indexed_good(f, o, n)
        }
        _ => {
            if !count_fits(Kind::Node256, n) {
                return false;
            }
            direct_good(f, o, n)
        }
    }
}
