// A Leaf that no link names any more goes.
ghost use Rattle.std.specs.Prelude.{ℕ, List, ◌∷◌};
ghost use Rattle.model.specs.Edition.{Edition, Value};
ghost use Rattle.model.specs.Item.{Item};
ghost use Rattle.model.specs.Frame.{Lay, View};
ghost use Rattle.model.specs.Frame.Lay.{leaf};
ghost use Rattle.between.specs.Hole.{Step};
ghost use Rattle.between.specs.Work.{Work};
ghost use Rattle.erase_remove.specs.Leaf.{Drops, Dropped};

use fields::body::Leaf;
use fields::header::Header;
use layout::kind::Kind;
use room::heap;

// Its body is listed, its extent dies, and there is one record fewer.
pub fn drop_leaf(f: &mut [u8], slot: usize, place: usize)
    requires { Drops f.old slot place }
    ensures { (E : Edition) (h : View) (xs : List Step) (s : ℕ) (path : List ℕ) (e : ℕ) (k : List ℕ) (v : Value) (ts : List (List ℕ × Lay)) (loose : List Item)
        → Work E f.old h xs s ((path, leaf slot place e k v) ∷ ts) loose → Dropped E f.old f.new h xs s ts loose slot place e k v }
{
    let k = Leaf::key_length(f, place);
    let v = Leaf::value_length(f, place);
    let extent = Leaf::extent(f, place);
    heap::release(f, slot, Kind::Leaf);
    heap::retire(f, extent, Leaf::rounded(k + v));
    let r = Header::records(f);
    heap::set_records(f, r - 1);
}
