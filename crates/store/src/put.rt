// Put, replacement, and either of them for those who ask for it: refused in the order of document 01, or as on a good frame.
ghost use Rattle.std.specs.Prelude.{◌≡◌, ◌<◌};
ghost use Rattle.answers.specs.Number.{done_number, number_of, written_number};
ghost use Rattle.editions.specs.Rules.{rules_of};
ghost use Rattle.model.specs.Edition.{unstamped};
ghost use Rattle.model.specs.Promise.{WritePromise, PutPromise, ReplacePromise, PutOrReplacePromise};
ghost use Rattle.put_core.specs.Core.{way_of};
ghost use Rattle.store.specs.Write.{stamp_for, value_for, fault_of};

use answers::{Refusal, Written};
use editions::{Edition, Editioned};
use put_core::Way;

// "A value has 0 to 65,535 bytes."
const LONGEST_VALUE: usize = 65535;

// What refuses a key or a value, if anything does.
pub fn legal(key: &[u8], value: &[u8], edition: Edition) -> Result<(), Refusal>
    ensures { done_number result ≡ fault_of (rules_of edition) key.now (unstamped value.now) }
{
    keys::fault(key, edition)?;
    if value.len() > LONGEST_VALUE {
        return Err(Refusal::ValueLength);
    }
    Ok(())
}

// "Edition 1 keeps zero there", whatever is passed.
fn stamp_for(stamp: usize, edition: Edition) -> usize
    ensures { (result ≡ stamp_for (rules_of edition) stamp) × (result < (rules_of edition).stamps) }
{
    match edition {
        Edition::First => 0,
        Edition::Second => stamp,
    }
}

fn write(
    frame: &mut [u8],
    key: &[u8],
    value: &[u8],
    stamp: usize,
    way: Way,
    edition: Edition,
) -> Result<Written, Refusal>
    ensures { WritePromise (rules_of edition) (way_of way) frame.old key.now (value_for (rules_of edition) value.now stamp) (number_of written_number result) frame.new }
{
    audit::check(frame, edition)?;
    legal(key, value, edition)?;
    let stamp = stamp_for(stamp, edition);
    put_core::write(frame, key, value, stamp, way, edition)
}

pub fn put<E: Editioned>(
    frame: &mut [u8],
    key: &[u8],
    value: &[u8],
    stamp: usize,
    edition: E,
) -> Result<Written, Refusal>
    ensures { PutPromise (E.rules edition) frame.old key.now (value_for (E.rules edition) value.now stamp) (number_of written_number result) frame.new }
{
    write(frame, key, value, stamp, Way::New, edition.edition())
}

pub fn replace<E: Editioned>(
    frame: &mut [u8],
    key: &[u8],
    value: &[u8],
    stamp: usize,
    edition: E,
) -> Result<Written, Refusal>
    ensures { ReplacePromise (E.rules edition) frame.old key.now (value_for (E.rules edition) value.now stamp) (number_of written_number result) frame.new }
{
    write(frame, key, value, stamp, Way::Replacing, edition.edition())
}

pub fn put_or_replace<E: Editioned>(
    frame: &mut [u8],
    key: &[u8],
    value: &[u8],
    stamp: usize,
    edition: E,
) -> Result<Written, Refusal>
    ensures { PutOrReplacePromise (E.rules edition) frame.old key.now (value_for (E.rules edition) value.now stamp) (number_of written_number result) frame.new }
{
    write(frame, key, value, stamp, Way::Either, edition.edition())
}
