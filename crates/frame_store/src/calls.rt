// The calls on numbers and slices, in either edition.
ghost use Rattle.std.specs.Prelude.{◌≤◌};
ghost use Rattle.editions.specs.Rules.{rules_of};
ghost use Rattle.model.specs.Promise.{FormatPromise, CheckPromise, PutPromise, ReplacePromise, ErasePromise, PackPromise};
ghost use Rattle.store.specs.Write.{value_for};
ghost use Rattle.frame_store.specs.Tells.{Tells};
ghost use Rattle.frame_store.specs.LookUp.{told_of, LookedUp};
ghost use Rattle.frame_store.specs.Info.{Informed};
ghost use Rattle.frame_store.specs.List.{Listed};
ghost use Rattle.frame_store.specs.Batch.{Batched};

use answers::{Found, LookUp};
use editions::Edition;

// the place of a refused change stands above the number's byte
const PLACE_UNIT: u64 = 256;

pub fn format(frame: &mut [u8], length: usize, capacity: usize, edition: Edition) -> u32
    ensures { FormatPromise (rules_of edition) frame.old length capacity result frame.new }
{
    answers::number(store::format::format(frame, length, capacity, edition))
}

pub fn check(frame: &[u8], edition: Edition) -> u32
    ensures { CheckPromise (rules_of edition) frame.now result }
{
    answers::number(store::look::check(frame, edition))
}

// The numbers, where there is room for just so many.
fn tell(out: &mut [u64], numbers: &[u64])
    ensures { Tells out.old numbers.now out.new }
{
    if out.len() == numbers.len() {
        out.copy_from_slice(numbers);
    }
}

// What the edition's look-up tells.
fn tell_found(out: &mut [u64], found: Found, edition: Edition)
    ensures { Tells out.old (told_of (rules_of edition) (record { number = 0; place = found.place; long = found.length; slots = found.slots; stamp = found.stamp })) out.new }
{
    let place = found.place as u64;
    let length = found.length as u64;
    let slots = found.slots as u64;
    match edition {
        Edition::First => tell(out, &[place, length, slots]),
        Edition::Second => tell(out, &[place, length, slots, found.stamp as u64]),
    }
}

// Place, length and slots visited, and in edition 2 the stamp, go into the numbers if there are as many and the call is not refused, and nothing otherwise.
pub fn look_up(frame: &[u8], key: &[u8], out: &mut [u64], edition: Edition) -> u32
    ensures { LookedUp (rules_of edition) frame.now key.now out.old result out.new }
{
    let told = store::look::look_up(frame, key, edition);
    let n = answers::number(told);
    match told {
        Ok(LookUp::Found(found)) => tell_found(out, found, edition),
        Ok(LookUp::Absent { slots }) => {
            let nowhere = Found {
                place: 0,
                length: 0,
                slots,
                stamp: 0,
            };
            tell_found(out, nowhere, edition);
        }
        Err(_) => {}
    }
    n
}

pub fn put(frame: &mut [u8], key: &[u8], value: &[u8], stamp: usize, edition: Edition) -> u32
    ensures { PutPromise (rules_of edition) frame.old key.now (value_for (rules_of edition) value.now stamp) result frame.new }
{
    answers::number(store::put::put(frame, key, value, stamp, edition))
}

pub fn replace(frame: &mut [u8], key: &[u8], value: &[u8], stamp: usize, edition: Edition) -> u32
    ensures { ReplacePromise (rules_of edition) frame.old key.now (value_for (rules_of edition) value.now stamp) result frame.new }
{
    answers::number(store::put::replace(frame, key, value, stamp, edition))
}

pub fn erase(frame: &mut [u8], key: &[u8], edition: Edition) -> u32
    ensures { ErasePromise (rules_of edition) frame.old key.now result frame.new }
{
    answers::number(store::erase::erase(frame, key, edition))
}

pub fn pack(frame: &[u8], out: &mut [u8], edition: Edition) -> u32
    ensures { PackPromise (rules_of edition) frame.now out.old result out.new }
{
    answers::number(pack::pack(frame, out, edition))
}

// F, N, U, B, R, X and the lengths of the lists 1 to 8 go into the fourteen numbers if there are fourteen and the call is not refused,
// and nothing otherwise.
pub fn info(frame: &[u8], counts: &mut [u64], edition: Edition) -> u32
    ensures { Informed (rules_of edition) frame.now counts.old result counts.new }
{
    let told = store::info::info(frame, edition);
    let n = answers::number(told);
    if let Ok(c) = told {
        tell(
            counts,
            &[
                c.frame_length as u64,
                c.slot_capacity as u64,
                c.slots_given as u64,
                c.next_byte as u64,
                c.records as u64,
                c.dead_bytes as u64,
                c.leaf as u64,
                c.prefix as u64,
                c.crossing as u64,
                c.node4 as u64,
                c.node16 as u64,
                c.node48 as u64,
                c.node256 as u64,
                c.empty_root as u64,
            ],
        );
    }
    n
}

// A start key is given if `given` is not 0; a delimiter above 255 is none. How many and whether more remain go into the two numbers if there are two
// and the call is not refused, and nothing otherwise.
pub fn list(
    frame: &[u8],
    prefix: &[u8],
    start: &[u8],
    given: usize,
    delimiter: usize,
    buffer: &mut [u8],
    page: &mut [u64],
    edition: Edition,
) -> u32
    ensures { Listed (rules_of edition) frame.now prefix.now start.now given delimiter buffer.old page.old result buffer.new page.new }
{
    let told = names::list(frame, prefix, start, given != 0, delimiter, buffer, edition);
    let n = answers::number(told);
    if let Ok(p) = told {
        tell(page, &[p.count as u64, u64::from(p.more)]);
    }
    n
}

// A batch: the number, and 256 times the place of the first refused change, counted from 1.
pub fn batch(
    frame: &mut [u8],
    second: &mut [u8],
    changes: &[u8],
    answers: &mut [u8],
    edition: Edition,
) -> u64
    ensures { Batched (rules_of edition) frame.old second.old changes.now answers.old result frame.new second.new answers.new }
{
    match batch::apply(frame, second, changes, answers, edition) {
        Ok(()) => 0,
        Err(stopped) => stopped.refusal.number() as u64 + PLACE_UNIT * (stopped.place as u64),
    }
}
