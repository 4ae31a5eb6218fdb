// Format: "zeroes the frame, then sets slot 1 to an EmptyRoot at D".
ghost use Rattle.answers.specs.Number.{done_number};
ghost use Rattle.model.specs.Promise.{FormatPromise};
ghost use Rattle.pieces.specs.Decides.{Decides};
ghost use Rattle.blank.specs.Limits.{Limits};

use answers::Refusal;
use editions::Editioned;
use fields::body::EmptyRoot;
use fields::header::Header;

// "F or N against the limits (D + 8 above F among them)"
fn limits_hold(length: usize, capacity: usize) -> bool
    ensures { Decides (Limits length capacity) result }
{
    if length % 8 != 0 {
        return false;
    }
    if length < Header::LEAST_LENGTH {
        return false;
    }
    if length > Header::MOST_LENGTH {
        return false;
    }
    if capacity % 2 != 0 {
        return false;
    }
    if capacity < Header::LEAST_SLOTS {
        return false;
    }
    if capacity > Header::MOST_SLOTS {
        return false;
    }
    if Header::data_start_of(capacity) + EmptyRoot::SIZE > length {
        return false;
    }
    true
}

pub fn format<E: Editioned>(
    frame: &mut [u8],
    length: usize,
    capacity: usize,
    edition: E,
) -> Result<(), Refusal>
    ensures { FormatPromise (E.rules edition) frame.old length capacity (done_number result) frame.new }
{
    let edition = edition.edition();
    if frame.len() != length {
        return Err(Refusal::Length);
    }
    if !limits_hold(length, capacity) {
        return Err(Refusal::Length);
    }
    blank::lay_out(frame, capacity, edition.number());
    Ok(())
}
