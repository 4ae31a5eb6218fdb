// The descent: from the root slot a step at a time, by the key's walked string.
ghost use Rattle.std.specs.Prelude.{◌≡◌, List, ℕ};
ghost use Rattle.layout.specs.Kind.{number_of};
ghost use Rattle.model.specs.Edition.{Edition as Rules, edition2, Legal};
ghost use Rattle.model.specs.State.{State};
ghost use Rattle.model.specs.Frame.{Stands};
ghost use Rattle.editions.specs.Rules.{rules_of};
ghost use Rattle.descent.specs.Spot.{SpotAt, Standing, Sought, Underway, AtLeaf, AtPrefix, AtNode, Stepped, SomeDescent};

use crate::spot::{End, Spot};
use editions::{Edition, Editioned};
use fields::body::{Leaf, Prefix};
use fields::header::Header;
use inner::look;
use layout::entry::Entry;
use layout::kind::Kind;

// At a Leaf: "Trusting the path without comparing the whole key at the Leaf" is an error.
fn at_leaf(f: &[u8], key: &[u8], s: Spot, place: usize, edition: Edition) -> Spot
    requires { AtLeaf (rules_of edition) f.now key.now s place }
    ensures { Stepped (rules_of edition) f.now key.now s result }
{
    let from = Leaf::extent(f, place);
    let n = Leaf::key_length(f, place);
    if keys::stands_at(key, f, from, n) {
        return s.ended(End::Found, place, Kind::Leaf, 0);
    }
    let to = from + n;
    let q = keys::shared_from(key, &f[from..to], s.depth, edition);
    s.ended(End::Other, place, Kind::Leaf, q)
}

fn at_prefix(f: &[u8], word: &[u8], s: Spot, place: usize) -> Spot
    requires { SomeDescent (λ E k. AtPrefix E f.now k word.now s place) }
    ensures { (E : Rules) (k : List ℕ) → AtPrefix E f.now k word.now s place → Stepped E f.now k s result }
{
    let n = Prefix::length(f, place);
    let q = keys::matched(Prefix::bytes(f, place, n), word, s.depth);
    if q < n {
        return s.ended(End::Parted, place, Kind::Prefix, q);
    }
    let child = Prefix::child(f, place);
    s.below_prefix(place, n, child)
}

fn at_node(f: &[u8], word: &[u8], s: Spot, place: usize, kind: Kind) -> Spot
    requires { SomeDescent (λ E k. AtNode E f.now k word.now s place (number_of kind)) }
    ensures { (E : Rules) (k : List ℕ) → AtNode E f.now k word.now s place (number_of kind) → Stepped E f.now k s result }
{
    let b = keys::at(word, s.depth);
    let seat = look::seat(f, place, kind, b);
    match seat.slot {
        None => s.ended(End::Missing, place, kind, 0),
        Some(child) => s.below_node(place, kind, b, child, seat.link),
    }
}

// One step: deeper, or to the end.
fn step(f: &[u8], key: &[u8], word: &[u8], s: Spot, edition: Edition) -> Spot
    requires { Underway (rules_of edition) f.now key.now s × Sought (rules_of edition) key.now word.now }
    ensures { Stepped (rules_of edition) f.now key.now s result }
{
    let e = Entry::read(f, s.here.slot);
    match e.kind() {
        Kind::Leaf => at_leaf(f, key, s, e.place, edition),
        Kind::Prefix => at_prefix(f, word, s, e.place),
        kind => at_node(f, word, s, e.place, kind),
    }
}

// The way of a legal key through a good frame; `word` is what is read of it on the way.
fn way(f: &[u8], key: &[u8], word: &[u8], edition: Edition) -> Spot
    requires { Standing (rules_of edition) f.now × Sought (rules_of edition) key.now word.now }
    ensures { (st : State) (W : Stands (rules_of edition) f.now st) → SpotAt (rules_of edition) key.now W.root result }
{
    let slot = Header::root(f);
    let e = Entry::read(f, slot);
    let mut s = Spot::start(slot, Header::AT_ROOT);
    if e.kind() == Kind::EmptyRoot {
        return s.ended(End::Empty, e.place, Kind::EmptyRoot, 0);
    }
    // it follows slots down the tree and steps no index: a `for` is no plainer
    loop {
        s = step(f, key, word, s, edition);
        match s.end {
            End::Going => {}
            _ => return s,
        }
    }
}

// Where the way of a legal key through a good frame ends; `word` is what is read of it on the way.
pub fn descend<E: Editioned>(f: &[u8], key: &[u8], word: &[u8], edition: E) -> Spot
    requires { Standing (E.rules edition) f.now × Sought (E.rules edition) key.now word.now }
    ensures { (st : State) (W : Stands (E.rules edition) f.now st) → SpotAt (E.rules edition) key.now W.root result }
{
    way(f, key, word, edition.edition())
}

// Of a short key every walked string has room in a short word.
pub const SHORT_KEY: usize = 31;

pub const SHORT_WORD: usize = 64;

// The same in edition 2 by the walked string of any key, written out in a word of its own.
pub fn descend_long<E: Editioned>(f: &[u8], key: &[u8], edition: E) -> Spot
    requires { Standing (E.rules edition) f.now × Legal (E.rules edition) key.now × (E.rules edition ≡ edition2) }
    ensures { (st : State) (W : Stands (E.rules edition) f.now st) → SpotAt (E.rules edition) key.now W.root result }
{
    let edition = edition.edition();
    let mut word: [u8; keys::LONGEST_WORD] = [0; keys::LONGEST_WORD];
    let n = keys::spell(key, &mut word);
    way(f, key, &word[0..n], edition)
}

// Where the way of a legal key through a good frame ends. Edition 2 reads the walked string, written out, and edition 1 the key itself.
#[inline(always)]
pub fn spot_of(f: &[u8], key: &[u8], edition: Edition) -> Spot
    requires { Standing (rules_of edition) f.now × Legal (rules_of edition) key.now }
    ensures { (st : State) (W : Stands (rules_of edition) f.now st) → SpotAt (rules_of edition) key.now W.root result }
{
    match edition {
        Edition::First => way(f, key, key, edition),
        Edition::Second if key.len() <= SHORT_KEY => {
            let mut word: [u8; SHORT_WORD] = [0; SHORT_WORD];
            let n = keys::spell(key, &mut word);
            way(f, key, &word[0..n], edition)
        }
        Edition::Second => descend_long(f, key, edition),
    }
}
