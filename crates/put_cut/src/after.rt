// The part after: the bytes of a shared beginning from some byte of a Prefix on. "A chain of Prefixes, each full but the last": if others
// stand below the Prefix, each of them then has bytes that stood in another.
ghost use Rattle.std.specs.Int.{from_bool};
ghost use Rattle.put_cut.specs.After.{Gathers, RunGathered, Drops, FirstDropped, Splits, SplitOff};

use chain::Run;
use fields::body::Prefix;
use layout::entry::Entry;
use layout::kind::Kind;
use moves::fill;
use room::heap;

// The bytes of the Prefix from q on are the first of `bytes`; those of the chain below follow, and its bodies are the row's from `have` on.
// A row and `have`, bytes and their number stand apart, as chain::read_row takes them and its clause RowRead tells of them, which may not change.
fn gather(f: &[u8], place: usize, q: usize, row: &mut [usize], have: usize, bytes: &mut [u8]) -> Run
    requires { Gathers f.now row.old bytes.old place q have }
    ensures { RunGathered f.now row.old row.new bytes.new place q have result.count result.long result.child }
{
    let n = Prefix::length(f, place);
    let child = Prefix::child(f, place);
    let at = place + Prefix::BYTES;
    fill::paste(bytes, 0, &f[at + q..at + n]);
    chain::read_row(f, child, row, have, bytes, n - q)
}

// ---- the first byte goes

// The slot of what is left, and whether the first body is spare: it isn't if it still has bytes.
#[derive(Clone, Copy, Debug, PartialEq, Eq)]
pub struct Rest {
    pub slot: usize,
    pub spare: bool,
}

// What is left goes to the bodies of the chain; the first one is spare if the others are enough.
fn move_up(f: &mut [u8], slot: usize, place: usize) -> Rest
    requires { Drops f.old slot place }
    ensures { FirstDropped f.old f.new slot place result.slot (from_bool result.spare) }
{
    let mut row: [usize; chain::MOST] = [slot; chain::MOST];
    let mut bytes: [u8; chain::MOST * Prefix::MOST] = [0; chain::MOST * Prefix::MOST];
    let run = gather(f, place, 1, &mut row, 1, &mut bytes);
    let over = run.count - chain::bodies_of(run.long);
    let top = chain::write_row(f, &row[over..], &bytes[..run.long], run.child);
    Rest {
        slot: top,
        spare: over != 0,
    }
}

// The shared beginning from this Prefix on loses its first byte.
pub fn drop_first(f: &mut [u8], slot: usize, place: usize) -> Rest
    requires { Drops f.old slot place }
    ensures { FirstDropped f.old f.new slot place result.slot (from_bool result.spare) }
{
    let child = Prefix::child(f, place);
    if Prefix::length(f, place) == 1 {
        return Rest {
            slot: child,
            spare: true,
        };
    }
    if chain::prefix_at(f, child).is_some() {
        return move_up(f, slot, place);
    }
    prefix_body::drop_first(f, place);
    Rest { slot, spare: false }
}

// ---- the first bytes stay

// The others go to the bodies of the chain below, and to one more if these are not enough.
fn move_down(f: &mut [u8], place: usize, q: usize) -> usize
    requires { Splits f.old place q }
    ensures { SplitOff f.old f.new place q result }
{
    let mut row: [usize; chain::MOST] = [0; chain::MOST];
    let mut bytes: [u8; chain::MOST * Prefix::MOST] = [0; chain::MOST * Prefix::MOST];
    let run = gather(f, place, q, &mut row, 0, &mut bytes);
    let need = chain::bodies_of(run.long);
    chain::take_row(f, &mut row, run.count, need);
    chain::write_row(f, &row, &bytes[..run.long], run.child)
}

// The shared beginning from this Prefix's byte q on, which the Prefix itself does not lose: its slot.
pub fn split_off(f: &mut [u8], place: usize, q: usize) -> usize
    requires { Splits f.old place q }
    ensures { SplitOff f.old f.new place q result }
{
    let child = Prefix::child(f, place);
    if Prefix::length(f, place) == q {
        return child;
    }
    if chain::prefix_at(f, child).is_some() {
        return move_down(f, place, q);
    }
    let s = heap::take(f, Kind::Prefix);
    let body = Entry::read(f, s);
    prefix_body::tail(f, body.place, place, q);
    s
}
