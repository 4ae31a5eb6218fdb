// Node4 and Node16, once for both. Of a body's places the first are in use, as many as the count, with bytes ascending.
ghost use Rattle.std.specs.Prelude.{◌≡◌, refl, List, ℕ, ◌+◌, ◌*◌, ◌≤◌, ◌<◌, length, set};
ghost use Rattle.std.proofs.Math.Option.{none};
ghost use Rattle.layout.specs.Number.{put};
ghost use Rattle.layout.specs.Place.{node4_bytes, node16_bytes};
ghost use Rattle.model.specs.Body.{SortedAt, look_kid, byte_in, child_in};
ghost use Rattle.node.specs.Kids.{slot_in, insert_kid, remove_kid, place_of, rank_of, Next};
ghost use Rattle.moves.specs.Moved.{Only};
ghost use Rattle.node.specs.Sorted.{Row, Half, Sorted, SortedOpen, SortedHas};
ghost use Rattle.node.specs.Word.{First};

use crate::{Child, Seat, word};
use fields::body::{Node, Node4, Node16, Rows};

// A kind that keeps its bytes in ascending order: where in a body they start, and where the children do, right behind as many bytes.
pub trait Ascending {
    ghost BYTES: { ℕ };

    ghost CHILDREN: { ℕ };

    const BYTES: usize;

    const CHILDREN: usize;

    // How many it has room for.
    ghost places: { ℕ };

    ghost behind: { CHILDREN ≡ BYTES + places };
}

impl Ascending for Node4 {
    ghost BYTES = { node4_bytes };

    ghost CHILDREN = { node4_bytes + 4 };

    const BYTES: usize = Node4::BYTES;

    const CHILDREN: usize = Node4::CHILDREN;

    ghost places = { 4 };

    ghost behind = { refl };
}

impl Ascending for Node16 {
    ghost BYTES = { node16_bytes };

    ghost CHILDREN = { node16_bytes + 16 };

    const BYTES: usize = Node16::BYTES;

    const CHILDREN: usize = Node16::CHILDREN;

    ghost places = { 16 };

    ghost behind = { refl };
}

// The place of byte b among the n bytes from `at`, or n: one after the other.
fn scan(f: &[u8], at: usize, n: usize, b: u8) -> usize
    requires { at + n ≤ length f.now }
    ensures { First f.now at n b result }
{
    f[at..at + n].iter().position(|&x| x == b).unwrap_or(n)
}

// Of bytes that fill a word and at most two: where the half begins in which b can stand. The two are told by a choice of numbers, not by a jump.
fn half(f: &[u8], at: usize, n: usize, b: u8) -> usize
    requires { (8 ≤ n) × (n ≤ 16) × (at + n ≤ length f.now) }
    ensures { Half f.now at n b result }
{
    if Rows::byte(f, at, word::BYTES - 1) < usize::from(b) {
        return n - word::BYTES;
    }
    0
}

// The place of byte b among such bytes, ascending from `at`, or n: they are halved, and the half is compared at once.
fn halved(f: &[u8], at: usize, n: usize, b: u8) -> usize
    requires { (8 ≤ n) × (n ≤ 16) × (at + n ≤ length f.now) }
    ensures { (result ≤ n) × ((ks : List (ℕ × ℕ)) → Row f.now at ks → n ≡ length ks → result ≡ place_of b ks) }
{
    let from = half(f, at, n, b);
    let i = word::first(f, at + from, b);
    if i < word::BYTES {
        return from + i;
    }
    n
}

// The place of byte b among the n ascending bytes from `at`, or n. Fewer than a word has are as quickly looked through.
pub fn place(f: &[u8], at: usize, n: usize, b: u8) -> usize
    requires { at + n ≤ length f.now }
    ensures { (result ≤ n) × ((ks : List (ℕ × ℕ)) → Row f.now at ks → n ≡ length ks → result ≡ place_of b ks) }
{
    if word::BYTES <= n {
        if n <= 2 * word::BYTES {
            return halved(f, at, n, b);
        }
    }
    scan(f, at, n, b)
}

// The place where byte b belongs among the n ascending bytes from `at`.
fn rank(f: &[u8], at: usize, n: usize, b: u8) -> usize
    requires { at + n ≤ length f.now }
    ensures { (result ≤ n) × ((ks : List (ℕ × ℕ)) → Row f.now at ks → n ≡ length ks → result ≡ rank_of b ks) }
{
    for i in 0..n {
        if b < f[at + i] {
            return i;
        }
    }
    n
}

// The child of byte b, and where it stands.
pub fn seat<K: Ascending>(f: &[u8], o: usize, b: u8) -> Seat
    requires { Sorted f.now o K.places K.BYTES }
    ensures { (ks : List (ℕ × ℕ)) → SortedAt f.now o K.places K.BYTES ks → (slot_in result.slot ≡ look_kid b ks) × (result.link ≡ o + K.CHILDREN + 4 * place_of b ks) }
{
    let n = Node::count(f, o);
    let i = place(f, o + K::BYTES, n, b);
    let link = o + K::CHILDREN + Node::CHILD_SIZE * i;
    if n <= i {
        return Seat { slot: None, link };
    }
    Seat {
        slot: Some(Node::child(f, link)),
        link,
    }
}

// The child at place i.
pub fn child_at<K: Ascending>(f: &[u8], o: usize, i: usize) -> Child
    requires { Sorted f.now o K.places K.BYTES × (i < K.places) }
    ensures { (result.byte < 256) × ((ks : List (ℕ × ℕ)) → SortedAt f.now o K.places K.BYTES ks → (result.byte ≡ byte_in ks i) × (result.slot ≡ child_in ks i)) }
{
    Child {
        byte: Rows::byte(f, o + K::BYTES, i),
        slot: Rows::child(f, o + K::CHILDREN, i),
    }
}

// The first child whose byte is `from` or more.
pub fn next<K: Ascending>(f: &[u8], o: usize, from: usize) -> Option<Child>
    requires { Sorted f.now o K.places K.BYTES }
    ensures { (ks : List (ℕ × ℕ)) → SortedAt f.now o K.places K.BYTES ks → Next from ks result }
{
    for i in 0..Node::count(f, o) {
        let byte = Rows::byte(f, o + K::BYTES, i);
        if from <= byte {
            let slot = Rows::child(f, o + K::CHILDREN, i);
            return Some(Child { byte, slot });
        }
    }
    None
}

// A child more: the bytes and the children above it move up.
pub fn add<K: Ascending>(f: &mut [u8], o: usize, b: u8, slot: usize)
    requires { SortedOpen f.old o K.places K.BYTES × (slot < 4294967296) }
    ensures { Only f.old f.new o (o + K.BYTES + 5 * K.places)
        × ((ks : List (ℕ × ℕ)) → SortedAt f.old o K.places K.BYTES ks → look_kid b ks ≡ none → SortedAt f.new o K.places K.BYTES (insert_kid b slot ks)) }
{
    let n = Node::count(f, o);
    let at = o + K::BYTES;
    let kids = o + K::CHILDREN;
    let p = rank(f, at, n, b);
    moves::open::<1>(f, at + p, at + n, usize::from(b));
    moves::open::<{ Node::CHILD_SIZE }>(
        f,
        kids + Node::CHILD_SIZE * p,
        kids + Node::CHILD_SIZE * n,
        slot,
    );
    Node::set_count(f, o, n + 1);
}

// A child less: those above it move down.
pub fn remove<K: Ascending>(f: &mut [u8], o: usize, b: u8)
    requires { SortedHas f.old o K.places K.BYTES b }
    ensures { Only f.old f.new o (o + K.BYTES + 5 * K.places)
        × ((ks : List (ℕ × ℕ)) → SortedAt f.old o K.places K.BYTES ks → SortedAt f.new o K.places K.BYTES (remove_kid b ks)) }
{
    let n = Node::count(f, o);
    let at = o + K::BYTES;
    let kids = o + K::CHILDREN;
    let p = place(f, at, n, b);
    moves::close::<1>(f, at + p, at + n);
    moves::close::<{ Node::CHILD_SIZE }>(
        f,
        kids + Node::CHILD_SIZE * p,
        kids + Node::CHILD_SIZE * n,
    );
    Node::set_count(f, o, n - 1);
}

// Byte b and its child at place i, which was empty. The count is left.
pub fn append<K: Ascending>(f: &mut [u8], o: usize, i: usize, b: u8, slot: usize)
    requires { (o + K.BYTES + 5 * K.places ≤ length f.old) × (i < K.places) }
    ensures { f.new ≡ put 4 (set f.old (o + K.BYTES + i) b) (o + K.CHILDREN + 4 * i) slot }
{
    Rows::set_byte(f, o + K::BYTES, i, b);
    Rows::set_child(f, o + K::CHILDREN, i, slot);
}
