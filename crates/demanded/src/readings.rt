// Demand 2, read back: a record that was put is found with its value and stamp, in the frame and in the frame's packed image.
ghost use Rattle.store.specs.Write.{value_for};
ghost use Rattle.demanded.specs.Readings.{ReadInNew, ReadInImage};

use answers::{LookUp, Refusal, Written};
use editions::Editioned;
use pack::pack;
use store::format::format;
use store::look::look_up;
use store::put::{put, put_or_replace};

#[derive(Clone, Copy, Debug, PartialEq, Eq)]
pub struct InNew {
    pub formatted: Result<(), Refusal>,
    pub put: Result<Written, Refusal>,
    pub found: Result<LookUp, Refusal>,
}

#[derive(Clone, Copy, Debug, PartialEq, Eq)]
pub struct InImage {
    pub put: Result<Written, Refusal>,
    pub packed: Result<(), Refusal>,
    pub found: Result<LookUp, Refusal>,
}

// Format, put, look-up.
pub fn in_new<E: Editioned>(
    frame: &mut [u8],
    length: usize,
    capacity: usize,
    key: &[u8],
    value: &[u8],
    stamp: usize,
    edition: E,
) -> InNew
    ensures { ReadInNew (E.rules edition) frame.old length capacity key.now (value_for (E.rules edition) value.now stamp) result frame.new }
{
    let edition = edition.edition();
    let formatted = format(frame, length, capacity, edition);
    let given = put(frame, key, value, stamp, edition);
    let found = look_up(frame, key, edition);
    InNew {
        formatted,
        put: given,
        found,
    }
}

// Put or replace, pack, look-up in the image.
pub fn in_image<E: Editioned>(
    frame: &mut [u8],
    out: &mut [u8],
    key: &[u8],
    value: &[u8],
    stamp: usize,
    edition: E,
) -> InImage
    ensures { ReadInImage (E.rules edition) frame.old out.old key.now (value_for (E.rules edition) value.now stamp) result frame.new out.new }
{
    let edition = edition.edition();
    let given = put_or_replace(frame, key, value, stamp, edition);
    let packed = pack(frame, out, edition);
    let found = look_up(out, key, edition);
    InImage {
        put: given,
        packed,
        found,
    }
}
