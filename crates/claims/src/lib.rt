// The map of the exact check: one bit for each unit of 8 bytes of the frame, in words of 64 bits. Every body and every
// live extent claims its units; a unit that is claimed twice is refused.
#![tactic(auto)]

ghost use Rattle.std.specs.Prelude.{◌≡◌, true, false, ◌+◌, ◌*◌, ◌%◌, ◌^◌, ◌<◌, ◌≤◌, length};
ghost use Rattle.claims.specs.Units.{Mask, Run, Claimed, Taken};

// Bytes of a unit, and units in a word of the map.
pub const UNIT: usize = 8;

pub const WORD: usize = 64;

// The bits lo to lo + n - 1 of a word.
pub fn mask(lo: usize, n: usize) -> u64
    requires { (1 ≤ n) × (lo + n ≤ 64) }
    ensures { Mask lo n result }
{
    (0xffff_ffff_ffff_ffff >> (WORD - n)) << lo
}

// How many units from at on stand in at's word, left at most.
pub fn within(at: usize, left: usize) -> usize
    requires { 1 ≤ left }
    ensures { Run at left result }
{
    left.min(WORD - at % WORD)
}

// Units that stand in one word.
fn claim_word(map: &mut [u64], from: usize, count: usize) -> bool
    requires { (1 ≤ count) × (from % 64 + count ≤ 64) × (from + count ≤ 64 * length map.old) }
    ensures { (result ≡ true → Claimed from count map.old map.new) × (result ≡ false → Taken from count map.old) }
{
    let bits = mask(from % WORD, count);
    let word = from / WORD;
    let old = map[word];
    if old & bits != 0 {
        return false;
    }
    map[word] = old | bits;
    true
}

// Units that may stand in several words.
fn claim_across(map: &mut [u64], from: usize, count: usize) -> bool
    requires { (from + count ≤ 64 * length map.old) × (from + count < 2 ^ 64) }
    ensures { (result ≡ true → Claimed from count map.old map.new) × (result ≡ false → Taken from count map.old) }
{
    let mut at = from;
    let mut left = count;
    // the steps are of changing length, a part of a word and then whole words: a range is no plainer
    while left > 0 {
        let n = within(at, left);
        let bits = mask(at % WORD, n);
        let word = at / WORD;
        let old = map[word];
        if old & bits != 0 {
            return false;
        }
        map[word] = old | bits;
        at += n;
        left -= n;
    }
    true
}

// Marks count units from the unit `from` on. False if one of them has its mark already: the map is then of no more use.
pub fn claim(map: &mut [u64], from: usize, count: usize) -> bool
    requires { (from + count ≤ 64 * length map.old) × (from + count < 2 ^ 64) }
    ensures { (result ≡ true → Claimed from count map.old map.new) × (result ≡ false → Taken from count map.old) }
{
    if count == 0 {
        return true;
    }
    if from % WORD + count <= WORD {
        return claim_word(map, from, count);
    }
    claim_across(map, from, count)
}
