// Eight bytes in one word, the first of them lowest, compared with a byte all at once.
ghost use Rattle.std.specs.Prelude.{◌≡◌, ◌+◌, ◌≤◌, ◌<◌, length};
ghost use Rattle.layout.specs.Number.{le};
ghost use Rattle.node.specs.Word.{marked, First};

use layout::number;

// The bytes of a word.
pub const BYTES: usize = 8;

const BITS_OF_BYTE: u32 = 8;

// In each byte of a word: 1; every bit but the highest; the highest.
const ONES: u64 = 0x0101_0101_0101_0101;

const LOW_BITS: u64 = 0x7f7f_7f7f_7f7f_7f7f;

const HIGH_BITS: u64 = 0x8080_8080_8080_8080;

// The eight bytes at a place.
fn read(f: &[u8], at: usize) -> u64
    requires { at + 8 ≤ length f.now }
    ensures { result ≡ le 8 f.now at }
{
    number::read::<BYTES>(f, at) as u64
}

// The highest bit of every byte that is b. A byte that differs from b has a bit set: its highest, or one that carries over into it.
fn marks(x: u64, b: u8) -> u64
    ensures { result ≡ marked 8 x b }
{
    let other = x ^ (ONES * u64::from(b));
    let carried = (other & LOW_BITS) + LOW_BITS;
    ((carried | other) & HIGH_BITS) ^ HIGH_BITS
}

// The place of the first byte b among the eight from `at`, or 8.
pub fn first(f: &[u8], at: usize, b: u8) -> usize
    requires { at + 8 ≤ length f.now }
    ensures { First f.now at 8 b result }
{
    let below = u64::trailing_zeros(marks(read(f, at), b));
    (below / BITS_OF_BYTE) as usize
}
