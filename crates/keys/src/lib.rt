// Keys and their walked strings in both editions: the refusal that a key gets, its walked string written out or compared with a path, and what
// two keys share.
#![tactic(auto)]

ghost use Rattle.std.specs.Prelude.{◌≡◌, [], ◌+◌, ◌-◌, ◌≤◌, ◌<◌, length, get_or, take, drop};
ghost use Rattle.pieces.specs.Decides.{Decides};
ghost use Rattle.model.specs.Strings.{has_zero, shared};
ghost use Rattle.answers.specs.Number.{done_number};
ghost use Rattle.model.specs.Edition.{escaped};
ghost use Rattle.model.specs.Frame.{Begins};
ghost use Rattle.keys.specs.Word.{Spelt, ended, weight_of, ByteFits};

use answers::Refusal;
use editions::{Edition, Editioned};
use moves::fill;

// the most bytes of a walked string
pub const LONGEST_WORD: usize = 512;

// what follows a byte 0 of a key in the walked strings of edition 2
const ESCAPE: u8 = 255;

// the bytes of the end of a walked string in edition 2
const END: usize = 2;

fn has_zero(key: &[u8]) -> bool
    ensures { result ≡ has_zero key.now }
{
    !pieces::no_zero(key, 0, key.len())
}

// What refuses a key, if anything does.
pub fn fault<E: Editioned>(key: &[u8], edition: E) -> Result<(), Refusal>
    ensures { done_number result ≡ (E.rules edition).key_fault key.now }
{
    let edition = edition.edition();
    if key.is_empty() || key.len() > edition.longest_key() {
        return Err(Refusal::KeyLength);
    }
    if edition == Edition::First && has_zero(key) {
        return Err(Refusal::KeyZero);
    }
    Ok(())
}

// The key is the n bytes of f from a place on.
pub fn stands_at(key: &[u8], f: &[u8], from: usize, n: usize) -> bool
    requires { from + n ≤ length f.now }
    ensures { Decides (take n (drop from f.now) ≡ key.now) result }
{
    if n != key.len() {
        return false;
    }
    pieces::same(f, from, key, 0, n)
}

// ---- the walked string

// How many bytes of the walked string a byte of the key becomes in edition 2.
fn weight(b: u8) -> usize
    ensures { (result ≡ weight_of b) × (1 ≤ result) × (result ≤ 2) }
{
    1 + usize::from(b == 0)
}

// Each byte is followed by what follows a byte 0; the next byte takes that place if it was another.
fn escape(key: &[u8], word: &mut [u8]) -> usize
    requires { (length (escaped key.now) ≤ length word.old) × (length word.old < 65536) }
    ensures { Spelt (escaped key.now) word.new result }
{
    let mut n = 0;
    for &b in key {
        word[n] = b;
        word[n + 1] = ESCAPE;
        n += weight(b);
    }
    word[n] = 0;
    word[n + 1] = 0;
    n + 2
}

// Writes the walked string that a key has in edition 2 to the start of `word`; gives its length. A key without a byte 0 is copied, and any other
// escaped byte by byte.
pub fn spell(key: &[u8], word: &mut [u8]) -> usize
    requires { (length (escaped key.now) ≤ length word.old) × (length word.old < 65536) }
    ensures { Spelt (escaped key.now) word.new result }
{
    if has_zero(key) {
        return escape(key, word);
    }
    let n = key.len();
    fill::paste(word, 0, key);
    word[n] = 0;
    word[n + 1] = 0;
    n + END
}

// The byte of a walked string at a depth, 0 past its end.
pub fn at(word: &[u8], d: usize) -> u8
    ensures { result ≡ get_or word.now d 0 }
{
    word.get(d).copied().unwrap_or(0)
}

// How many bytes of p a walked string has from depth d on: all, if they stand there, and else they are counted one by one.
pub fn matched(p: &[u8], word: &[u8], d: usize) -> usize
    requires { d + length p.now < 65536 }
    ensures { result ≡ shared p.now (drop d word.now) }
{
    if d + p.len() <= word.len() {
        if pieces::same(p, 0, word, d, p.len()) {
            return p.len();
        }
    }
    for q in 0..p.len() {
        if d + q >= word.len() {
            return q;
        }
        if p[q] != word[d + q] {
            return q;
        }
    }
    p.len()
}

// ---- a path, in edition 2

// The walked bytes of a byte of the key stand at a place of the path, as far as the path goes.
fn byte_fits(b: u8, path: &[u8], n: usize) -> bool
    requires { n < length path.now }
    ensures { Decides (ByteFits b path.now n) result }
{
    if path[n] != b {
        return false;
    }
    if b != 0 {
        return true;
    }
    if n + 1 >= path.len() {
        return true;
    }
    path[n + 1] == ESCAPE
}

// What is left of the path at a place is not more than the end of a walked string.
fn ends(path: &[u8], n: usize) -> bool
    ensures { Decides (Begins (escaped []) (drop n path.now)) result }
{
    if n >= path.len() {
        return true;
    }
    if path.len() - n > END {
        return false;
    }
    pieces::all_zero(path, n, path.len())
}

// The walked string of a key begins with the path: byte by byte of the key, until the path is used up.
fn begins_by_byte(key: &[u8], path: &[u8]) -> bool
    ensures { Decides (Begins (escaped key.now) path.now) result }
{
    let mut n = 0;
    for &b in key {
        if n >= path.len() {
            return true;
        }
        if !byte_fits(b, path, n) {
            return false;
        }
        n += weight(b);
    }
    ends(path, n)
}

// How many bytes a string has but for a last byte 0.
fn but_last_zero(path: &[u8]) -> usize
    ensures { result ≤ length path.now }
{
    let n = path.len();
    if n == 0 {
        return 0;
    }
    if path[n - 1] == 0 {
        return n - 1;
    }
    n
}

// The walked string of a key begins with the path, whose bytes are compared together if none of them is 0, or only the last.
pub fn escaped_begins(key: &[u8], path: &[u8]) -> bool
    ensures { Decides (Begins (escaped key.now) path.now) result }
{
    let n = but_last_zero(path);
    if !pieces::no_zero(path, 0, n) {
        return begins_by_byte(key, path);
    }
    if n > key.len() {
        return false;
    }
    if !pieces::same(key, 0, path, 0, n) {
        return false;
    }
    if n == path.len() {
        return true;
    }
    begins_by_byte(&key[n..], &path[n..])
}

// ---- two keys

// How many bytes the walked strings of two keys share in edition 2.
fn shared_escaped(key: &[u8], other: &[u8]) -> usize
    requires { (length key.now < 65536) × (length other.now < 65536) }
    ensures { result ≡ shared (escaped key.now) (escaped other.now) }
{
    let mut n = 0;
    for i in 0..key.len() {
        let b = key[i];
        if i >= other.len() {
            return n + weight(b) - 1;
        }
        if b != other[i] {
            return n;
        }
        n += weight(b);
    }
    if key.len() >= other.len() {
        return n + 2;
    }
    n + weight(other[key.len()]) - 1
}

// The same in edition 1, from depth d on.
fn shared_plain(key: &[u8], other: &[u8], d: usize) -> usize
    requires { length other.now < 65536 }
    ensures { result ≡ shared (drop d (ended key.now)) (drop d (ended other.now)) }
{
    let past = other.len() + 1;
    for i in d..past {
        if i > key.len() {
            return i - d;
        }
        if at(key, i) != at(other, i) {
            return i - d;
        }
    }
    past.saturating_sub(d)
}

// How many walked bytes two keys share from depth d on, up to which they share all.
pub fn shared_from<E: Editioned>(key: &[u8], other: &[u8], d: usize, edition: E) -> usize
    requires { (length key.now < 65536) × (length other.now < 65536) × (d ≤ shared ((E.rules edition).walked key.now) ((E.rules edition).walked other.now)) }
    ensures { result ≡ shared (drop d ((E.rules edition).walked key.now)) (drop d ((E.rules edition).walked other.now)) }
{
    let edition = edition.edition();
    match edition {
        Edition::First => shared_plain(key, other, d),
        Edition::Second => shared_escaped(key, other) - d,
    }
}

fn byte_escaped(key: &[u8], d: usize) -> u8
    requires { length key.now < 65536 }
    ensures { result ≡ get_or (escaped key.now) d 0 }
{
    let mut n = 0;
    for &b in key {
        if d == n {
            return b;
        }
        let m = n + weight(b);
        if d < m {
            return ESCAPE;
        }
        n = m;
    }
    0
}

// The walked byte of a key at a depth, 0 past the end.
pub fn byte_at<E: Editioned>(key: &[u8], d: usize, edition: E) -> u8
    requires { length key.now < 65536 }
    ensures { result ≡ get_or ((E.rules edition).walked key.now) d 0 }
{
    let edition = edition.edition();
    match edition {
        Edition::First => at(key, d),
        Edition::Second => byte_escaped(key, d),
    }
}
