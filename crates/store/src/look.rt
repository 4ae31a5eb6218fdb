// The check, and look-up: where the value stands, the slots visited and the stamp, or the value itself as a part of the lent frame.
ghost use Rattle.answers.specs.Number.{done_number};
ghost use Rattle.model.specs.Promise.{CheckPromise, LookUpPromise};
ghost use Rattle.store.specs.Found.{found_in, ValueAt};

use answers::{Found, LookUp, Refusal};
use descent::lookup;
use editions::Editioned;

pub fn check<E: Editioned>(frame: &[u8], edition: E) -> Result<(), Refusal>
    ensures { CheckPromise (E.rules edition) frame.now (done_number result) }
{
    audit::check(frame, edition)
}

pub fn look_up<E: Editioned>(frame: &[u8], key: &[u8], edition: E) -> Result<LookUp, Refusal>
    ensures { LookUpPromise (E.rules edition) frame.now key.now (found_in result) }
{
    let edition = edition.edition();
    audit::check(frame, edition)?;
    keys::fault(key, edition)?;
    let held = lookup::find(frame, key, edition);
    match held.value {
        Some(at) => Ok(LookUp::Found(Found {
            place: at.place,
            length: at.length,
            slots: held.slots,
            stamp: at.stamp,
        })),
        None => Ok(LookUp::Absent { slots: held.slots }),
    }
}

// "a second look-up call hands back the value itself as that part of the lent frame, and for an absent key or a refusal an empty
// part at the frame's start"
pub fn value<'a, E: Editioned>(frame: &'a [u8], key: &[u8], edition: E) -> &'a [u8]
    ensures { ValueAt (E.rules edition) frame.now key.now frame.entry.ref_ptr result.ref_ptr result.now }
{
    let edition = edition.edition();
    if audit::check(frame, edition).is_err() {
        return &frame[..0];
    }
    if keys::fault(key, edition).is_err() {
        return &frame[..0];
    }
    lookup::value(frame, key, edition)
}
