// What every put of a new key does: a Leaf with its extent is made, and R grows.
#![tactic(auto)]

ghost use Rattle.leaf_new.specs.Make.{value_of, Makes, NewLeaf, Counts, Counted};

use fields::body::Leaf;
use fields::header::Header;
use layout::entry::Entry;
use layout::kind::Kind;
use room::heap;

// What a put has written: a key, what is read of it on its way (its walked string, or the key itself), its value and their stamp.
#[derive(Clone, Copy, Debug, PartialEq, Eq)]
pub struct Record<'a> {
    pub key: &'a [u8],
    pub word: &'a [u8],
    pub value: &'a [u8],
    pub stamp: usize,
}

// A Leaf for key, value and stamp: its slot. The body is taken first, then the extent.
pub fn new_leaf(f: &mut [u8], r: Record) -> usize
    requires { Makes f.old r.key.now (value_of r) }
    ensures { NewLeaf f.old f.new r.entry.key.now (value_of r.entry) result }
{
    let s = heap::take(f, Kind::Leaf);
    let body = Entry::read(f, s);
    let extent = heap::extend(f, r.key, r.value);
    Leaf::write(f, body.place, extent, r.key.len(), r.value.len(), r.stamp);
    s
}

// One record more.
pub fn count_record(f: &mut [u8])
    requires { Counts f.old }
    ensures { Counted f.old f.new }
{
    let r = Header::records(f);
    heap::set_records(f, r + 1);
}
