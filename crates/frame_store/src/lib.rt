// The calls for C and Rust, which frame_store_c exports: numbers and slices only. `frame_` is edition 1, `frame2_` is edition 2.
#![tactic(auto)]

mod calls;

ghost use Rattle.model.specs.Edition.{edition1, edition2, unstamped};
ghost use Rattle.model.specs.Promise.{FormatPromise, CheckPromise, PutPromise, ReplacePromise, ErasePromise, PackPromise, PackBeforePromise};
ghost use Rattle.frame_store.specs.LookUp.{LookedUp};
ghost use Rattle.frame_store.specs.Info.{Informed};
ghost use Rattle.frame_store.specs.List.{Listed};
ghost use Rattle.frame_store.specs.Batch.{Batched};

use editions::Edition;

// "Edition 1 keeps zero there."
const NO_STAMP: usize = 0;

// ---- edition 1

pub fn frame_format(frame: &mut [u8], length: usize, capacity: usize) -> u32
    ensures { FormatPromise edition1 frame.old length capacity result frame.new }
{
    calls::format(frame, length, capacity, Edition::First)
}

pub fn frame_check(frame: &[u8]) -> u32
    ensures { CheckPromise edition1 frame.now result }
{
    calls::check(frame, Edition::First)
}

pub fn frame_look_up(frame: &[u8], key: &[u8], found: &mut [u64]) -> u32
    ensures { LookedUp edition1 frame.now key.now found.old result found.new }
{
    calls::look_up(frame, key, found, Edition::First)
}

pub fn frame_put(frame: &mut [u8], key: &[u8], value: &[u8]) -> u32
    ensures { PutPromise edition1 frame.old key.now (unstamped value.now) result frame.new }
{
    calls::put(frame, key, value, NO_STAMP, Edition::First)
}

pub fn frame_replace(frame: &mut [u8], key: &[u8], value: &[u8]) -> u32
    ensures { ReplacePromise edition1 frame.old key.now (unstamped value.now) result frame.new }
{
    calls::replace(frame, key, value, NO_STAMP, Edition::First)
}

pub fn frame_erase(frame: &mut [u8], key: &[u8]) -> u32
    ensures { ErasePromise edition1 frame.old key.now result frame.new }
{
    calls::erase(frame, key, Edition::First)
}

pub fn frame_pack(frame: &[u8], out: &mut [u8]) -> u32
    ensures { PackPromise edition1 frame.now out.old result out.new }
{
    calls::pack(frame, out, Edition::First)
}

// A frame from before is taken too, in which what was freed is not wiped.
pub fn frame_pack_before(frame: &[u8], out: &mut [u8]) -> u32
    ensures { PackBeforePromise frame.now out.old result out.new }
{
    answers::number(pack::pack_before(frame, out))
}

pub fn frame_info(frame: &[u8], counts: &mut [u64]) -> u32
    ensures { Informed edition1 frame.now counts.old result counts.new }
{
    calls::info(frame, counts, Edition::First)
}

pub fn frame_list(
    frame: &[u8],
    prefix: &[u8],
    start: &[u8],
    given: usize,
    delimiter: usize,
    buffer: &mut [u8],
    page: &mut [u64],
) -> u32
    ensures { Listed edition1 frame.now prefix.now start.now given delimiter buffer.old page.old result buffer.new page.new }
{
    calls::list(
        frame,
        prefix,
        start,
        given,
        delimiter,
        buffer,
        page,
        Edition::First,
    )
}

pub fn frame_batch(frame: &mut [u8], second: &mut [u8], changes: &[u8], answers: &mut [u8]) -> u64
    ensures { Batched edition1 frame.old second.old changes.now answers.old result frame.new second.new answers.new }
{
    calls::batch(frame, second, changes, answers, Edition::First)
}

// ---- edition 2

pub fn frame2_format(frame: &mut [u8], length: usize, capacity: usize) -> u32
    ensures { FormatPromise edition2 frame.old length capacity result frame.new }
{
    calls::format(frame, length, capacity, Edition::Second)
}

pub fn frame2_check(frame: &[u8]) -> u32
    ensures { CheckPromise edition2 frame.now result }
{
    calls::check(frame, Edition::Second)
}

pub fn frame2_look_up(frame: &[u8], key: &[u8], found: &mut [u64]) -> u32
    ensures { LookedUp edition2 frame.now key.now found.old result found.new }
{
    calls::look_up(frame, key, found, Edition::Second)
}

pub fn frame2_put(frame: &mut [u8], key: &[u8], value: &[u8], stamp: usize) -> u32
    ensures { PutPromise edition2 frame.old key.now (record { bytes = value.now; stamp = stamp }) result frame.new }
{
    calls::put(frame, key, value, stamp, Edition::Second)
}

pub fn frame2_replace(frame: &mut [u8], key: &[u8], value: &[u8], stamp: usize) -> u32
    ensures { ReplacePromise edition2 frame.old key.now (record { bytes = value.now; stamp = stamp }) result frame.new }
{
    calls::replace(frame, key, value, stamp, Edition::Second)
}

pub fn frame2_erase(frame: &mut [u8], key: &[u8]) -> u32
    ensures { ErasePromise edition2 frame.old key.now result frame.new }
{
    calls::erase(frame, key, Edition::Second)
}

pub fn frame2_pack(frame: &[u8], out: &mut [u8]) -> u32
    ensures { PackPromise edition2 frame.now out.old result out.new }
{
    calls::pack(frame, out, Edition::Second)
}

pub fn frame2_info(frame: &[u8], counts: &mut [u64]) -> u32
    ensures { Informed edition2 frame.now counts.old result counts.new }
{
    calls::info(frame, counts, Edition::Second)
}

pub fn frame2_list(
    frame: &[u8],
    prefix: &[u8],
    start: &[u8],
    given: usize,
    delimiter: usize,
    buffer: &mut [u8],
    page: &mut [u64],
) -> u32
    ensures { Listed edition2 frame.now prefix.now start.now given delimiter buffer.old page.old result buffer.new page.new }
{
    calls::list(
        frame,
        prefix,
        start,
        given,
        delimiter,
        buffer,
        page,
        Edition::Second,
    )
}

pub fn frame2_batch(frame: &mut [u8], second: &mut [u8], changes: &[u8], answers: &mut [u8]) -> u64
    ensures { Batched edition2 frame.old second.old changes.now answers.old result frame.new second.new answers.new }
{
    calls::batch(frame, second, changes, answers, Edition::Second)
}
