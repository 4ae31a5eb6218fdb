// "In a good frame freed bodies, dead extents and bytes from B on are zero": the units that no live item has claimed are tested, and all
// bytes from B on. Freed bodies claim their units only after that.
#![tactic(auto)]

ghost use Rattle.std.specs.Prelude.{◌≡◌, ◌+◌, ◌*◌, ◌%◌, ◌<◌, ◌≤◌, length};
ghost use Rattle.pieces.specs.Decides.{Decides};
ghost use Rattle.sweep.specs.Sweep.{Lowest, Dropped, Inside, Zeros, Bare, Swept};

use claims::{UNIT, WORD, mask, within};
use pieces::{all_zero, eight};

// A word of the map with every unit claimed.
const FULL: u64 = 0xffff_ffff_ffff_ffff;

// The lowest unit of a word.
fn lowest(bits: u64) -> usize
    requires { bits ≡ 0 → ⊥ }
    ensures { Lowest bits result × (result < 64) }
{
    u64::trailing_zeros(bits) as usize
}

// The units of a word but the lowest.
fn but_lowest(bits: u64) -> u64
    requires { bits ≡ 0 → ⊥ }
    ensures { Dropped bits result × (result < bits) }
{
    bits & (bits - 1)
}

// The units of a word, whose first stands for the bytes at `from`, are zero: all of them, joined.
fn units(f: &[u8], bits: u64, from: usize) -> bool
    requires { Inside f.now bits from }
    ensures { Decides (Zeros f.now bits from) result }
{
    let mut joined = 0;
    let mut left = bits;
    // it steps over digits and no index: a range is no plainer
    while left != 0 {
        joined = joined | eight(f, from + UNIT * lowest(left));
        left = but_lowest(left);
    }
    joined == 0
}

// Of the n units from `at` on, which all stand in one word of the map, those that it has not marked are zero.
fn run(f: &[u8], word: u64, at: usize, n: usize) -> bool
    requires { (1 ≤ n) × (at % 64 + n ≤ 64) × (8 * (at + n) ≤ length f.now) }
    ensures { Decides (Bare f.now word at n) result }
{
    let bits = mask(at % WORD, n);
    if word & bits == 0 {
        return all_zero(f, UNIT * at, UNIT * (at + n));
    }
    units(f, bits & (FULL - word), UNIT * (at - at % WORD))
}

// The bytes from d up to b whose units are not marked, and all from b on, are zero.
pub fn swept(f: &[u8], map: &[u64], d: usize, b: usize) -> bool
    requires { (d % 8 ≡ 0) × (b % 8 ≡ 0) × (d ≤ b) × (b ≤ length f.now) × (b ≤ 512 * length map.now) }
    ensures { Decides (Swept f.now map.now d b) result }
{
    let mut at = d / UNIT;
    let mut left = (b - d) / UNIT;
    // the steps are of changing length: a range is no plainer
    while left > 0 {
        let n = within(at, left);
        if !run(f, map[at / WORD], at, n) {
            return false;
        }
        at += n;
        left -= n;
    }
    all_zero(f, b, f.len())
}
