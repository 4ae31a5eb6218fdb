// The header of a packed frame.
ghost use Rattle.std.specs.Prelude.{◌≤◌, length};
ghost use Rattle.model.specs.Body.{Zero};
ghost use Rattle.pack_body.specs.Part.{HeaderWritten};

use fields::header::Header;

// The slot that the root of a packed frame has.
const ROOT_SLOT: usize = 1;

// The edition's number, F, N, B, U and R over zero bytes; nothing is dead, and no list has a slot. A number, since the format has one there and it is
// read from the frame that is packed.
pub fn write(
    out: &mut [u8],
    edition: usize,
    frame_length: usize,
    capacity: usize,
    next_byte: usize,
    slots: usize,
    records: usize,
)
    requires { (64 ≤ length out.old) × Zero out.old 0 64 × (capacity ≤ 10240) }
    ensures { HeaderWritten out.old out.new edition frame_length capacity next_byte slots records }
{
    let header = Header {
        edition: edition,
        frame_length: frame_length,
        slot_capacity: capacity,
        data_start: Header::data_start_of(capacity),
        next_byte: next_byte,
        slots_given: slots,
        records: records,
        dead_bytes: 0,
        root: ROOT_SLOT,
    };
    header.write(out);
}
