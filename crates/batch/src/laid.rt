// A batch's layout: the fields of its header and of a change, and the test of the whole, which takes any bytes.
ghost use Rattle.std.specs.Prelude.{◌≡◌, ◌+◌, ◌≤◌, ◌<◌, length};
ghost use Rattle.editions.specs.Rules.{rules_of};
ghost use Rattle.batch.specs.Layout.{count_in, count_size, offset_at, offset_of, at_stamp, at_key, kind_at, key_long, value_long, stamp_at, end_of, Numbered, sound, changes_of, laid};

use editions::Edition;
use layout::number;

const COUNT_SIZE: usize = 4;

const OFFSET_SIZE: usize = 4;

const AT_KEY_LENGTH: usize = 2;

const AT_VALUE_LENGTH: usize = 4;

const AT_STAMP: usize = 8;

const STAMP_SIZE: usize = 8;

// What a change does.
#[derive(Clone, Copy, Debug, PartialEq, Eq)]
pub enum Change {
    Put,
    Replacement,
    Erase,
}

// A number that is no kind of change.
#[derive(Clone, Copy, Debug, PartialEq, Eq)]
pub struct Unknown;

impl TryFrom<usize> for Change {
    type Error = Unknown;

    ghost try_from_gives = { Numbered };

    fn try_from(kind: usize) -> Result<Change, Unknown> {
        match kind {
            1 => Ok(Change::Put),
            2 => Ok(Change::Replacement),
            3 => Ok(Change::Erase),
            _ => Err(Unknown),
        }
    }
}

pub fn count(b: &[u8]) -> usize
    requires { count_size ≤ length b.now }
    ensures { (result ≡ count_in b.now) × (result < 4294967296) }
{
    number::read::<4>(b, 0)
}

// The offset of change i.
pub fn offset(b: &[u8], i: usize) -> usize
    requires { (i < 4294967296) × (offset_at i + 4 ≤ length b.now) }
    ensures { (result ≡ offset_of b.now i) × (result < 4294967296) }
{
    number::read::<4>(b, COUNT_SIZE + OFFSET_SIZE * i)
}

// What the change at o does, if it is of a known kind.
pub fn kind(b: &[u8], o: usize) -> Result<Change, Unknown>
    requires { (o < 4294967296) × (o + at_stamp ≤ length b.now) }
    ensures { Numbered (kind_at b.now o) result }
{
    Change::try_from(number::read::<2>(b, o))
}

pub fn key_length(b: &[u8], o: usize) -> usize
    requires { (o < 4294967296) × (o + at_stamp ≤ length b.now) }
    ensures { (result ≡ key_long b.now o) × (result < 65536) }
{
    number::read::<2>(b, o + AT_KEY_LENGTH)
}

pub fn value_length(b: &[u8], o: usize) -> usize
    requires { (o < 4294967296) × (o + at_stamp ≤ length b.now) }
    ensures { (result ≡ value_long b.now o) × (result < 4294967296) }
{
    number::read::<4>(b, o + AT_VALUE_LENGTH)
}

// Where the key of a change stands, counted from its start: edition 2 has a stamp before it.
#[tactic(auto, unfolding(crate::specs::Layout::at_key))]
pub fn at_key(edition: Edition) -> usize
    ensures { (result ≡ at_key (rules_of edition)) × (at_stamp ≤ result) × (result ≤ 16) }
{
    match edition {
        Edition::First => AT_STAMP,
        Edition::Second => AT_STAMP + STAMP_SIZE,
    }
}

// The stamp of the change at o.
#[tactic(auto, unfolding(crate::specs::Layout::at_key, crate::specs::Layout::stamp_at))]
pub fn stamp(b: &[u8], o: usize, edition: Edition) -> usize
    requires { (o < 4294967296) × (o + at_key (rules_of edition) ≤ length b.now) }
    ensures { (result ≡ stamp_at (rules_of edition) b.now o) × (result < (rules_of edition).stamps) }
{
    match edition {
        Edition::First => 0,
        Edition::Second => number::read::<8>(b, o + AT_STAMP),
    }
}

// Where the change at o ends.
pub fn end(b: &[u8], o: usize, edition: Edition) -> usize
    requires { (o < 4294967296) × (o + at_key (rules_of edition) ≤ length b.now) }
    ensures { result ≡ end_of (rules_of edition) b.now o }
{
    o + at_key(edition) + key_length(b, o) + value_length(b, o)
}

// The change at o begins after all that stands up to low, lies within the batch, and is of a known kind.
fn is_sound(b: &[u8], low: usize, o: usize, edition: Edition) -> bool
    requires { o < 4294967296 }
    ensures { result ≡ sound (rules_of edition) b.now low o }
{
    if o < low {
        return false;
    }
    if b.len() < o + at_key(edition) {
        return false;
    }
    if b.len() < end(b, o, edition) {
        return false;
    }
    kind(b, o).is_ok()
}

// The bytes are a batch: no offset runs back, overlaps what stands before it or points outside, and every change is of a known kind.
pub fn well_laid(b: &[u8], edition: Edition) -> bool
    ensures { result ≡ laid (changes_of (rules_of edition) b.now) }
{
    if b.len() < COUNT_SIZE {
        return false;
    }
    let n = count(b);
    let mut low = COUNT_SIZE + OFFSET_SIZE * n;
    if b.len() < low {
        return false;
    }
    for i in 0..n {
        let o = offset(b, i);
        if !is_sound(b, low, o, edition) {
            return false;
        }
        low = end(b, o, edition);
    }
    true
}
