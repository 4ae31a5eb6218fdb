// The first Leaf of a tree in byte order, and the first whose key is at or above a bound: one way down each, with no array and no recursion. What a
// listing (document 02, Q-1) finds each of its entries by.
#![tactic(auto)]

ghost use Rattle.std.specs.Prelude.{◌≡◌, ℕ, ◌+◌, ◌≤◌, ◌<◌, length, take, drop, List};
ghost use Rattle.std.specs.Ordering.{ordering_index};
ghost use Rattle.layout.specs.Kind.{number_of};
ghost use Rattle.inner.specs.Inner.{NodeSome};
ghost use Rattle.seek.specs.Sub.{Sub, FirstAt};
ghost use Rattle.model.specs.Edition.{Edition, SomeEdition, Value};
ghost use Rattle.model.specs.Body.{LeafAt};
ghost use Rattle.listing.specs.Seek.{weigh, reach};
ghost use Rattle.seek.specs.Seek.{SoughtAt, Guided, Nearer, Falls, FallenBack, LeafSome, Tail, behind_text};

use fields::body::{Leaf, Prefix};
use inner::{look, visit};
use layout::entry::Entry;
use layout::kind::Kind;
use std::cmp::Ordering;

// A tree that lies above the bound, and how many bytes lead to it.
#[derive(Clone, Copy, Debug, PartialEq, Eq)]
pub struct Spare {
    pub slot: usize,
    pub depth: usize,
}

// The tail of a bound past all keys that begin with its text. A tail stays a number: bytes are compared with it, and an enum is no plainer.
const PAST_ALL: usize = 256;

// The first Leaf, in byte order, of the tree at a slot to which `depth` bytes lead: down the lowest children. The place of its body.
pub fn first(f: &[u8], slot: usize, depth: usize) -> usize
    requires { SomeEdition (λ E. Sub E f.now slot depth) }
    ensures { (E : Edition) → Sub E f.now slot depth → FirstAt E f.now slot result }
{
    let mut s = slot;
    let mut d = depth;

    // It follows slots and steps no index: a `for` is no plainer.
    loop {
        let e = Entry::read(f, s);
        match e.kind() {
            Kind::Leaf => return e.place,
            Kind::Prefix => {
                s = Prefix::child(f, e.place);
                d += Prefix::length(f, e.place);
            }
            kind => {
                s = visit::child_at(f, e.place, kind, 0, 0).slot;
                d += 1;
            }
        }
    }
}

// Where all that begins with the n bytes of f from `at` stands to what is left of the bound behind its first d bytes, and `Equal` where these do not
// decide yet: one byte after the other.
fn weigh_each(f: &[u8], at: usize, n: usize, text: &[u8], d: usize, tail: usize) -> Ordering
    requires { (at + n ≤ length f.now) × (d ≤ length text.now) × (n < 65536) × (d < 65536) }
    ensures { ordering_index result ≡ weigh (drop d text.now) tail (take n (drop at f.now)) }
{
    for i in 0..n {
        let x = f[at + i];
        if text.len() <= d + i {
            if tail <= usize::from(x) {
                return Ordering::Greater;
            }
            return Ordering::Less;
        }
        let b = text[d + i];
        if x != b {
            return x.cmp(&b);
        }
    }
    Ordering::Equal
}

// The same. Bytes that the text has do not decide, and are seen to be the same several at a time.
pub fn weigh_bytes(f: &[u8], at: usize, n: usize, text: &[u8], d: usize, tail: usize) -> Ordering
    requires { (at + n ≤ length f.now) × (d ≤ length text.now) × (n < 65536) × (d < 65536) }
    ensures { ordering_index result ≡ weigh (drop d text.now) tail (take n (drop at f.now)) }
{
    if d + n <= text.len() {
        if pieces::same(f, at, text, d, n) {
            return Ordering::Equal;
        }
    }
    weigh_each(f, at, n, text, d, tail)
}

// The first child of a node from byte b on, as what a seek falls back on.
fn nearer(f: &[u8], o: usize, kind: Kind, b: usize, d: usize, old: Option<Spare>) -> Option<Spare>
    requires { NodeSome f.now o (number_of kind) × (b ≤ 256) × (d ≤ 512) }
    ensures { Nearer f.now o (number_of kind) b d old result }
{
    match visit::next_child(f, o, kind, b) {
        Some(child) => Some(Spare {
            slot: child.slot,
            depth: d + 1,
        }),
        None => old,
    }
}

// The first Leaf of what the seek falls back on.
fn fall_back(f: &[u8], spare: Option<Spare>) -> Option<usize>
    requires { SomeEdition (λ E. Falls E f.now spare) }
    ensures { (E : Edition) → FallenBack E f.now spare result }
{
    let spare = spare?;
    Some(first(f, spare.slot, spare.depth))
}

// What stands behind the text for the byte that a longer key has there: past the key that is the text every byte reaches.
fn behind(tail: usize) -> usize
    requires { Tail tail }
    ensures { result ≡ behind_text tail }
{
    tail / PAST_ALL * PAST_ALL
}

// The key of the Leaf at a place is at or above the bound.
fn leaf_reaches(f: &[u8], place: usize, text: &[u8], tail: usize) -> bool
    requires { SomeEdition (λ E. LeafSome E f.now place) × Tail tail }
    ensures { (e : ℕ) (k : List ℕ) (v : Value) → LeafAt f.now place e k v → result ≡ reach text.now tail k }
{
    let from = Leaf::extent(f, place);
    let n = Leaf::key_length(f, place);
    match weigh_bytes(f, from, n, text, 0, behind(tail)) {
        Ordering::Greater => true,
        Ordering::Less => false,
        Ordering::Equal => text.len() <= n && tail == 0,
    }
}

// The place of the body of the first Leaf, in byte order, whose key is at or above the bound of `text` and `tail`, of the tree at slot `root`. The way down is weighed against
// `word`, which guides to that bound in the bytes of walked strings.
pub fn seek(f: &[u8], root: usize, text: &[u8], word: &[u8], tail: usize) -> Option<usize>
    requires { SomeEdition (λ E. Guided E f.now text.now word.now tail root) × Tail tail }
    ensures { (E : Edition) → Guided E f.now text.now word.now tail root → SoughtAt E f.now text.now tail root result }
{
    let mut s = root;
    let mut d = 0;
    let mut spare = None;

    // It follows slots and steps no index: a `for` is no plainer.
    loop {
        let e = Entry::read(f, s);
        match e.kind() {
            Kind::Leaf => {
                if leaf_reaches(f, e.place, text, tail) {
                    return Some(e.place);
                }
                return fall_back(f, spare);
            }
            Kind::Prefix => {
                let n = Prefix::length(f, e.place);
                match weigh_bytes(f, e.place + Prefix::BYTES, n, word, d, tail) {
                    Ordering::Greater => return fall_back(f, Some(Spare { slot: s, depth: d })),
                    Ordering::Less => return fall_back(f, spare),
                    Ordering::Equal => {
                        s = Prefix::child(f, e.place);
                        d += n;
                    }
                }
            }
            kind => {
                if word.len() <= d {
                    return fall_back(f, nearer(f, e.place, kind, tail, d, spare));
                }
                let b = word[d];
                spare = nearer(f, e.place, kind, usize::from(b) + 1, d, spare);
                match look::seat(f, e.place, kind, b).slot {
                    Some(slot) => {
                        s = slot;
                        d += 1;
                    }
                    None => return fall_back(f, spare),
                }
            }
        }
    }
}
