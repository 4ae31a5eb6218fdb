// The calls for C and Rust, exported: each is the library's of the same name, with the same clauses. A slice passes as a pointer and a length.
#![tactic(auto)]

ghost use Rattle.model.specs.Edition.{edition1, edition2, unstamped};
ghost use Rattle.model.specs.Promise.{FormatPromise, CheckPromise, PutPromise, ReplacePromise, ErasePromise, PackPromise, PackBeforePromise};
ghost use Rattle.frame_store.specs.LookUp.{LookedUp};
ghost use Rattle.frame_store.specs.Info.{Informed};
ghost use Rattle.frame_store.specs.List.{Listed};
ghost use Rattle.frame_store.specs.Batch.{Batched};

#[unsafe(no_mangle)]
pub extern "C" fn frame_format(frame: &mut [u8], length: usize, capacity: usize) -> u32
    ensures { FormatPromise edition1 frame.old length capacity result frame.new }
{
    frame_store::frame_format(frame, length, capacity)
}

#[unsafe(no_mangle)]
pub extern "C" fn frame_check(frame: &[u8]) -> u32
    ensures { CheckPromise edition1 frame.now result }
{
    frame_store::frame_check(frame)
}

#[unsafe(no_mangle)]
pub extern "C" fn frame_look_up(frame: &[u8], key: &[u8], found: &mut [u64]) -> u32
    ensures { LookedUp edition1 frame.now key.now found.old result found.new }
{
    frame_store::frame_look_up(frame, key, found)
}

#[unsafe(no_mangle)]
pub extern "C" fn frame_put(frame: &mut [u8], key: &[u8], value: &[u8]) -> u32
    ensures { PutPromise edition1 frame.old key.now (unstamped value.now) result frame.new }
{
    frame_store::frame_put(frame, key, value)
}

#[unsafe(no_mangle)]
pub extern "C" fn frame_replace(frame: &mut [u8], key: &[u8], value: &[u8]) -> u32
    ensures { ReplacePromise edition1 frame.old key.now (unstamped value.now) result frame.new }
{
    frame_store::frame_replace(frame, key, value)
}

#[unsafe(no_mangle)]
pub extern "C" fn frame_erase(frame: &mut [u8], key: &[u8]) -> u32
    ensures { ErasePromise edition1 frame.old key.now result frame.new }
{
    frame_store::frame_erase(frame, key)
}

#[unsafe(no_mangle)]
pub extern "C" fn frame_pack(frame: &[u8], out: &mut [u8]) -> u32
    ensures { PackPromise edition1 frame.now out.old result out.new }
{
    frame_store::frame_pack(frame, out)
}

#[unsafe(no_mangle)]
pub extern "C" fn frame_pack_before(frame: &[u8], out: &mut [u8]) -> u32
    ensures { PackBeforePromise frame.now out.old result out.new }
{
    frame_store::frame_pack_before(frame, out)
}

#[unsafe(no_mangle)]
pub extern "C" fn frame_info(frame: &[u8], counts: &mut [u64]) -> u32
    ensures { Informed edition1 frame.now counts.old result counts.new }
{
    frame_store::frame_info(frame, counts)
}

#[unsafe(no_mangle)]
pub extern "C" fn frame_list(
    frame: &[u8],
    prefix: &[u8],
    start: &[u8],
    given: usize,
    delimiter: usize,
    buffer: &mut [u8],
    page: &mut [u64],
) -> u32
    ensures { Listed edition1 frame.now prefix.now start.now given delimiter buffer.old page.old result buffer.new page.new }
{
    frame_store::frame_list(frame, prefix, start, given, delimiter, buffer, page)
}

#[unsafe(no_mangle)]
pub extern "C" fn frame_batch(
    frame: &mut [u8],
    second: &mut [u8],
    changes: &[u8],
    answers: &mut [u8],
) -> u64
    ensures { Batched edition1 frame.old second.old changes.now answers.old result frame.new second.new answers.new }
{
    frame_store::frame_batch(frame, second, changes, answers)
}

#[unsafe(no_mangle)]
pub extern "C" fn frame2_format(frame: &mut [u8], length: usize, capacity: usize) -> u32
    ensures { FormatPromise edition2 frame.old length capacity result frame.new }
{
    frame_store::frame2_format(frame, length, capacity)
}

#[unsafe(no_mangle)]
pub extern "C" fn frame2_check(frame: &[u8]) -> u32
    ensures { CheckPromise edition2 frame.now result }
{
    frame_store::frame2_check(frame)
}

#[unsafe(no_mangle)]
pub extern "C" fn frame2_look_up(frame: &[u8], key: &[u8], found: &mut [u64]) -> u32
    ensures { LookedUp edition2 frame.now key.now found.old result found.new }
{
    frame_store::frame2_look_up(frame, key, found)
}

#[unsafe(no_mangle)]
pub extern "C" fn frame2_put(frame: &mut [u8], key: &[u8], value: &[u8], stamp: usize) -> u32
    ensures { PutPromise edition2 frame.old key.now (record { bytes = value.now; stamp = stamp }) result frame.new }
{
    frame_store::frame2_put(frame, key, value, stamp)
}

#[unsafe(no_mangle)]
pub extern "C" fn frame2_replace(frame: &mut [u8], key: &[u8], value: &[u8], stamp: usize) -> u32
    ensures { ReplacePromise edition2 frame.old key.now (record { bytes = value.now; stamp = stamp }) result frame.new }
{
    frame_store::frame2_replace(frame, key, value, stamp)
}

#[unsafe(no_mangle)]
pub extern "C" fn frame2_erase(frame: &mut [u8], key: &[u8]) -> u32
    ensures { ErasePromise edition2 frame.old key.now result frame.new }
{
    frame_store::frame2_erase(frame, key)
}

#[unsafe(no_mangle)]
pub extern "C" fn frame2_pack(frame: &[u8], out: &mut [u8]) -> u32
    ensures { PackPromise edition2 frame.now out.old result out.new }
{
    frame_store::frame2_pack(frame, out)
}

#[unsafe(no_mangle)]
pub extern "C" fn frame2_info(frame: &[u8], counts: &mut [u64]) -> u32
    ensures { Informed edition2 frame.now counts.old result counts.new }
{
    frame_store::frame2_info(frame, counts)
}

#[unsafe(no_mangle)]
pub extern "C" fn frame2_list(
    frame: &[u8],
    prefix: &[u8],
    start: &[u8],
    given: usize,
    delimiter: usize,
    buffer: &mut [u8],
    page: &mut [u64],
) -> u32
    ensures { Listed edition2 frame.now prefix.now start.now given delimiter buffer.old page.old result buffer.new page.new }
{
    frame_store::frame2_list(frame, prefix, start, given, delimiter, buffer, page)
}

#[unsafe(no_mangle)]
pub extern "C" fn frame2_batch(
    frame: &mut [u8],
    second: &mut [u8],
    changes: &[u8],
    answers: &mut [u8],
) -> u64
    ensures { Batched edition2 frame.old second.old changes.now answers.old result frame.new second.new answers.new }
{
    frame_store::frame2_batch(frame, second, changes, answers)
}
