// The frame as format leaves it: "zeroes the frame, then sets slot 1 to an EmptyRoot at D".
#![tactic(auto)]

ghost use Rattle.std.specs.Prelude.{[], ◌≡◌, ◌<◌, length};
ghost use Rattle.blank.specs.Limits.{Limits};
ghost use Rattle.model.specs.Edition.{Edition};
ghost use Rattle.model.specs.Image.{image};

use fields::body::EmptyRoot;
use fields::header::Header;
use layout::entry::Entry;
use layout::kind::Kind;

// Format leaves the frame so, and so does erase of the only record: of an edition only its number is seen there.
pub fn lay_out(frame: &mut [u8], capacity: usize, number: usize)
    requires { Limits (length frame.old) capacity × (number < 4294967296) }
    ensures { (E : Edition) → E.number ≡ number → frame.new ≡ image E (length frame.old) capacity [] }
{
    let start = Header::data_start_of(capacity);
    let bytes = frame.len();
    moves::clear(frame, 0, bytes);
    let header = Header {
        edition: number,
        frame_length: bytes,
        slot_capacity: capacity,
        data_start: start,
        next_byte: start + EmptyRoot::SIZE,
        slots_given: 1,
        records: 0,
        dead_bytes: 0,
        root: 1,
    };
    header.write(frame);
    Entry::write(frame, 1, Kind::EmptyRoot.number(), start);
}
