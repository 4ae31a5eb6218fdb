// The entry of a key: the key, or its text up to and including the first delimiter after the prefix; found from a bound on, and written.
ghost use Rattle.std.specs.Prelude.{◌≡◌, List, ◌++◌, ℕ, ◌+◌, ◌≤◌, ◌<◌, length, take, drop};
ghost use Rattle.model.specs.Edition.{SomeEdition, Value};
ghost use Rattle.editions.specs.Rules.{rules_of};
ghost use Rattle.model.specs.Image.{digits};
ghost use Rattle.model.specs.Body.{LeafAt};
ghost use Rattle.seek.specs.Sub.{Sub};
ghost use Rattle.seek.specs.Seek.{LeafSome, Tail};
ghost use Rattle.names.specs.Entry.{maybe, Delimited, CutAt, OfKey, EntryFrom, word_room, SpeltBound, chosen_of};

use editions::Edition;
use fields::body::Leaf;
use layout::number;

// behind the text of a bound: past the key that is the text, and past all keys that begin with it
const PAST_KEY: usize = 1;

const PAST_GROUP: usize = 256;

// the bytes of the length before an entry
pub const LENGTH_SIZE: usize = 2;

// What is asked for: the keys that begin with a prefix, after a start key if there is one, those that share a text up to a delimiter as one.
#[derive(Clone, Copy)]
pub struct Asked<'a> {
    pub prefix: &'a [u8],
    pub start: Option<&'a [u8]>,
    pub delimiter: Option<u8>,
}

// How many bytes of a key its entry has, and what stands behind them in the entry's bound.
#[derive(Clone, Copy, Debug, PartialEq, Eq)]
pub struct Cut {
    pub long: usize,
    pub tail: usize,
}

// An entry, as bytes of the frame, and what stands behind it in its bound.
#[derive(Clone, Copy, Debug, PartialEq, Eq)]
pub struct Entry {
    pub at: usize,
    pub long: usize,
    pub tail: usize,
}

// How many bytes stand before the first delimiter.
fn sought(text: &[u8], delimiter: u8) -> Option<usize>
    ensures { Delimited text.now delimiter result }
{
    text.iter().position(|&b| b == delimiter)
}

// Where the entry of a key ends whose first bytes are a prefix: at a delimiter behind them, if one is sought and there.
pub fn ending(key: &[u8], from: usize, delimiter: Option<u8>) -> Cut
    requires { from ≤ length key.now }
    ensures { CutAt key.now from (maybe delimiter) result }
{
    let Some(delimiter) = delimiter else {
        return Cut {
            long: key.len(),
            tail: PAST_KEY,
        };
    };
    match sought(&key[from..], delimiter) {
        Some(n) => Cut {
            long: from + n + 1,
            tail: PAST_GROUP,
        },
        None => Cut {
            long: key.len(),
            tail: PAST_KEY,
        },
    }
}

// The entry of the key of the Leaf at a place, if it begins with the prefix.
fn of_leaf(f: &[u8], place: usize, asked: Asked) -> Option<Entry>
    requires { SomeEdition (λ E. LeafSome E f.now place) }
    ensures { (e : ℕ) (k : List ℕ) (v : Value) → LeafAt f.now place e k v → OfKey f.now asked.entry.prefix.now (maybe asked.entry.delimiter) k result }
{
    let at = Leaf::extent(f, place);
    let end = at + Leaf::key_length(f, place);
    let key = &f[at..end];
    if key.starts_with(asked.prefix) {
        let c = ending(key, asked.prefix.len(), asked.delimiter);
        return Some(Entry {
            at,
            long: c.long,
            tail: c.tail,
        });
    }
    None
}

// Writes what guides a seek to the bound of a text, and gives its length: in edition 2 the text's walked string without its end, and past the key that
// is the text with the first byte of that. In edition 1 nothing, nor for a text of no byte, from which on a listing of all begins.
fn spelt(text: &[u8], tail: usize, word: &mut [u8], edition: Edition) -> usize
    requires { (word_room (rules_of edition) ≤ length word.old) × (length word.old < 65536) × (length text.now ≤ 255) }
    ensures { SpeltBound (rules_of edition) text.now tail word.new result }
{
    match edition {
        Edition::First => 0,
        Edition::Second if text.is_empty() && tail != PAST_KEY => 0,
        Edition::Second => {
            let n = keys::spell(text, word);
            if tail == PAST_KEY { n - 1 } else { n - 2 }
        }
    }
}

// What guides: in edition 1 the text itself, in edition 2 the first n bytes of the word.
fn chosen<'a>(text: &'a [u8], word: &'a [u8], n: usize, edition: Edition) -> &'a [u8]
    requires { n ≤ length word.now }
    ensures { result.now ≡ chosen_of (rules_of edition) text.now (take n word.now) }
{
    match edition {
        Edition::First => text,
        Edition::Second => &word[..n],
    }
}

// The entry of the first key at or above the bound of a text, if that begins with the prefix.
pub fn from_bound(
    f: &[u8],
    root: usize,
    asked: Asked,
    text: &[u8],
    tail: usize,
    word: &mut [u8],
    edition: Edition,
) -> Option<Entry>
    requires { Sub (rules_of edition) f.now root 0 × Tail tail × (length text.now ≤ 255) × (word_room (rules_of edition) ≤ length word.old) × (length word.old < 65536) }
    ensures { EntryFrom (rules_of edition) f.now root asked.entry.prefix.now (maybe asked.entry.delimiter) text.now tail result }
{
    let n = spelt(text, tail, word, edition);
    let bound = chosen(text, word, n, edition);
    let place = seek::seek(f, root, text, bound, tail)?;
    of_leaf(f, place, asked)
}

// An entry at a place of the buffer: its length in two bytes, then its bytes.
pub fn write(buffer: &mut [u8], at: usize, entry: &[u8])
    requires { (at + (2 + length entry.now) ≤ length buffer.old) × (length entry.now < 65536) }
    ensures { buffer.new ≡ take at buffer.old ++ ((digits 2 (length entry.now) ++ entry.now) ++ drop (at + (2 + length entry.now)) buffer.old) }
{
    number::write::<2>(buffer, at, entry.len());
    moves::fill::paste(buffer, at + LENGTH_SIZE, entry);
}
