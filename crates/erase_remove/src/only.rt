// "Erase of the only record leaves the frame as format leaves it."
ghost use Rattle.std.specs.Prelude.{ℕ, List};
ghost use Rattle.model.specs.Edition.{Edition};
ghost use Rattle.descent.specs.Spot.{SomeDescent};
ghost use Rattle.erase_remove.specs.Erase.{OnlyAt, OnlyStep};

use fields::header::Header;

pub fn erase_only(f: &mut [u8])
    requires { SomeDescent (λ E k. OnlyAt E f.old k) }
    ensures { (E : Edition) (k : List ℕ) → OnlyAt E f.old k → OnlyStep E f.old k f.new }
{
    let slots = Header::slot_capacity(f);
    let edition = Header::edition(f);
    blank::lay_out(f, slots, edition);
}
