// A Prefix.
ghost use Rattle.pack_body.specs.Part.{PrefixCopies, PrefixCopied};

use fields::body::Prefix;
use moves::fill;

// The Prefix at o of the frame f is copied to the part, with another child.
pub fn copy(part: &mut [u8], child: usize, f: &[u8], o: usize)
    requires { PrefixCopies f.now o part.old }
    ensures { PrefixCopied f.now o part.old part.new child }
{
    let end = o + Prefix::SIZE;
    fill::paste(part, 0, &f[o..end]);
    Prefix::set_child(part, 0, child);
}
