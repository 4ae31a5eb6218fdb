// The exact check of a frame: every rule of "A good frame", of any bytes of any length. Of the frame nothing is written.
#![tactic(auto)]

pub mod walk;
pub mod whole;

ghost use Rattle.answers.specs.Number.{done_number};
ghost use Rattle.model.specs.Promise.{CheckPromise};
ghost use Rattle.audit.specs.Audit.{ruled};

use answers::Refusal;
use editions::Editioned;
use shape::header::{header_good, length_good};

// Refused for its length exactly if the slice's length is outside F's limits or differs from the stored F, done exactly if the frame is good in the
// edition, else refused as no good frame: by the rule that what is freed is wiped, or by the one from before.
pub fn check_by<E: Editioned>(f: &[u8], edition: E, wiped: bool) -> Result<(), Refusal>
    ensures { CheckPromise (ruled wiped (E.rules edition)) f.now (done_number result) }
{
    let edition = edition.edition();
    if !length_good(f) {
        return Err(Refusal::Length);
    }
    if !header_good(f, edition) {
        return Err(Refusal::Frame);
    }
    if !whole::all(f, edition, wiped) {
        return Err(Refusal::Frame);
    }
    Ok(())
}

// The same by the rule in force.
pub fn check<E: Editioned>(f: &[u8], edition: E) -> Result<(), Refusal>
    ensures { CheckPromise (E.rules edition) f.now (done_number result) }
{
    check_by(f, edition.edition(), true)
}
