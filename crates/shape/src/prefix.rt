// A Prefix's body.
ghost use Rattle.std.specs.Prelude.{◌+◌, ◌≤◌, length};
ghost use Rattle.pieces.specs.Decides.{Decides};
ghost use Rattle.shape.specs.Shape.{PrefixHere};

use fields::body::Prefix;

// It has 1 to 112 bytes, and the rest is zero.
pub fn prefix_good(f: &[u8], o: usize) -> bool
    requires { o + 128 ≤ length f.now }
    ensures { Decides (PrefixHere f.now o) result }
{
    let n = Prefix::length(f, o);
    if n < 1 {
        return false;
    }
    if n > Prefix::MOST {
        return false;
    }
    if !Prefix::zeros_good(f, o) {
        return false;
    }
    Prefix::rest_good(f, o, n)
}
