// The frame's length and its header.
ghost use Rattle.pieces.specs.Decides.{Decides};
ghost use Rattle.shape.specs.Shape.{LengthFits, NumbersFit, HeaderTold};

use editions::Editioned;
use fields::body::EmptyRoot;
use fields::header::Header;
use layout::entry::Entry;

// The slice's length keeps the limits and is the stored F; if not, refusal 1. A short slice is not read.
pub fn length_good(f: &[u8]) -> bool
    ensures { Decides (LengthFits f.now) result }
{
    let n = f.len();
    if n < Header::LEAST_LENGTH {
        return false;
    }
    if n > Header::MOST_LENGTH {
        return false;
    }
    if n % 8 != 0 {
        return false;
    }
    Header::frame_length(f) == n
}

// N, D, B and U keep their limits in a frame of the length.
fn numbers_fit(length: usize, n: usize, d: usize, b: usize, u: usize) -> bool
    ensures { Decides (NumbersFit length n d b u) result }
{
    if n < Header::LEAST_SLOTS {
        return false;
    }
    if n > Header::MOST_SLOTS {
        return false;
    }
    if n % 2 != 0 {
        return false;
    }
    if d != Header::data_start_of(n) {
        return false;
    }
    if b < d + EmptyRoot::SIZE {
        return false;
    }
    if b > length {
        return false;
    }
    if b % 8 != 0 {
        return false;
    }
    if u < 1 {
        return false;
    }
    u <= n
}

// The header is a good one of the edition, and the entries above U are zero. The slice's length has been passed.
pub fn header_good<E: Editioned>(f: &[u8], edition: E) -> bool
    requires { LengthFits f.now }
    ensures { HeaderTold (E.rules edition) f.now result }
{
    if Header::edition(f) != edition.edition().number() {
        return false;
    }
    let n = Header::slot_capacity(f);
    let d = Header::data_start(f);
    let b = Header::next_byte(f);
    let u = Header::slots_given(f);
    if !numbers_fit(f.len(), n, d, b, u) {
        return false;
    }
    if !pieces::all_zero(f, Header::AT_SPARE, Header::SIZE) {
        return false;
    }
    pieces::all_zero(f, Header::SIZE + Entry::SIZE * u, d)
}
