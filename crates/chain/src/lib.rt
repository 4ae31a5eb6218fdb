// "A shared beginning longer than 112 bytes is a chain of Prefixes, each full but the last": a row of Prefix bodies is taken, freed, and
// written as the chain of a string, the last piece first.
#![tactic(auto)]

pub mod shift;

ghost use Rattle.std.specs.Prelude.{◌≡◌, ◌+◌, ◌-◌, ◌%◌, ◌≤◌, ◌<◌, length};
ghost use Rattle.layout.specs.Entry.{high_of};
ghost use Rattle.model.specs.Tree.{chain};
ghost use Rattle.chain.specs.Row.{Entered, PrefixThere, Writes, RowWritten, Takes, RowTaken, Frees, RowFreed, Reads, RowRead};

use fields::body::Prefix;
use layout::entry::Entry;
use layout::kind::Kind;
use moves::fill;
use room::heap;

// The most Prefixes of a shared beginning: no walked string has more than 512 bytes.
pub const MOST: usize = 5;

// Divided in 32 bits: a machine of 32 bits has no division of 64, and the archive asks for no function that makes one up.
const FULL: u32 = Prefix::MOST as u32;

// How many Prefixes n bytes come to.
pub fn bodies_of(n: usize) -> usize
    requires { n < 65536 }
    ensures { result ≡ chain n }
{
    ((n + (Prefix::MOST - 1)) as u32 / FULL) as usize
}

// How many of n bytes stand in a Prefix that is not full.
pub fn left_of(n: usize) -> usize
    requires { n < 65536 }
    ensures { result ≡ n % 112 }
{
    (n as u32 % FULL) as usize
}

// Where the body of a Prefix stands, if the entry of this slot says that one stands there.
pub fn prefix_at(f: &[u8], slot: usize) -> Option<usize>
    requires { Entered f.now slot }
    ensures { PrefixThere f.now slot result }
{
    let e = Entry::read(f, slot);
    match e.kind() {
        Kind::Prefix => Some(e.place),
        _ => None,
    }
}

// The bodies of a row become the chain of these bytes above a child: its first slot. The last piece is written first, so that each names the next.
pub fn write_row(f: &mut [u8], row: &[usize], bytes: &[u8], child: usize) -> usize
    requires { Writes f.old row.now bytes.now child }
    ensures { RowWritten f.old f.new row.now bytes.now child 0 0 result }
{
    let mut to = bytes.len();
    let mut below = child;
    for i in (0..bodies_of(to)).rev() {
        let from = i * Prefix::MOST;
        let s = row[i];
        let body = Entry::read(f, s);
        prefix_body::write(f, body.place, below, &bytes[from..to]);
        below = s;
        to = from;
    }
    below
}

// The row gets as many bodies as are needed: those that it lacks are taken.
pub fn take_row(f: &mut [u8], row: &mut [usize], have: usize, need: usize)
    requires { Takes f.old row.old have need }
    ensures { RowTaken f.old f.new row.old row.new have (need - have) (need - have) }
{
    for i in have..need {
        row[i] = heap::take(f, Kind::Prefix);
    }
}

// The bodies of a row from `keep` on are freed, the last one first.
pub fn free_row(f: &mut [u8], row: &[usize], keep: usize, have: usize)
    requires { Frees f.old row.now have × (keep ≤ have) }
    ensures { RowFreed f.old f.new row.now have keep }
{
    for i in (keep..have).rev() {
        heap::release(f, row[i], Kind::Prefix);
    }
}

// A row that was read: its bodies, its bytes, and the slot below the last.
#[derive(Clone, Copy, Debug, PartialEq, Eq)]
pub struct Run {
    pub count: usize,
    pub long: usize,
    pub child: usize,
}

// The bodies and the bytes of the chain at this slot follow those that are there; none where no Prefix is.
pub fn read_row(
    f: &[u8],
    slot: usize,
    row: &mut [usize],
    have: usize,
    bytes: &mut [u8],
    long: usize,
) -> Run
    requires { Reads f.now row.old bytes.old slot have long }
    ensures { RowRead f.now row.old row.new bytes.old bytes.new slot have long result.count result.long result.child × (high_of f.now result.child ≡ 2 → ⊥) }
{
    let mut s = slot;
    let mut count = have;
    let mut n = long;
    while let Some(place) = prefix_at(f, s) {
        let at = place + Prefix::BYTES;
        let m = Prefix::length(f, place);
        let to = at + m;
        fill::paste(bytes, n, &f[at..to]);
        row[count] = s;
        s = Prefix::child(f, place);
        count += 1;
        n += m;
    }
    Run {
        count,
        long: n,
        child: s,
    }
}
