// A Leaf: "a Leaf's extent right after its body".
ghost use Rattle.pack_body.specs.Part.{LeafCopies, LeafCopied};

use fields::body::Leaf;
use moves::fill;

// The Leaf at o of the frame f is copied with its stamp to the part, which starts at `at` of the output, and its extent to the part behind the
// body: how many bytes the two take.
pub fn copy(part: &mut [u8], at: usize, f: &[u8], o: usize) -> usize
    requires { LeafCopies f.now o part.old at }
    ensures { LeafCopied f.now o part.old part.new at result }
{
    let from = Leaf::extent(f, o);
    let key_length = Leaf::key_length(f, o);
    let value_length = Leaf::value_length(f, o);
    let stamp = Leaf::stamp(f, o);
    let to = from + (key_length + value_length);
    let behind = Leaf::SIZE;
    Leaf::write(part, 0, at + Leaf::SIZE, key_length, value_length, stamp);
    fill::paste(&mut part[behind..], 0, &f[from..to]);
    Leaf::SIZE + Leaf::rounded(key_length + value_length)
}
