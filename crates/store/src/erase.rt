// Erase: refused in the order of document 01, absent, or done.
ghost use Rattle.answers.specs.Number.{number_of, erased_number};
ghost use Rattle.model.specs.Promise.{ErasePromise};

use answers::{Erased, Refusal};
use editions::Editioned;

pub fn erase<E: Editioned>(frame: &mut [u8], key: &[u8], edition: E) -> Result<Erased, Refusal>
    ensures { ErasePromise (E.rules edition) frame.old key.now (number_of erased_number result) frame.new }
{
    let edition = edition.edition();
    audit::check(frame, edition)?;
    keys::fault(key, edition)?;
    erase_core::erase(frame, key, edition)
}
