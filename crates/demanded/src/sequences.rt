// Any order, not only two: three changes one after another on the frame, and on its copy the last of them before the other two.
ghost use Rattle.std.specs.Prelude.{[], ◌∷◌};
ghost use Rattle.editions.specs.Rules.{rules_of};
ghost use Rattle.demanded.specs.Orders.{call_of};
ghost use Rattle.demanded.specs.Sequences.{InRow, InAnyOrder};

use crate::change::{Answer, Change};
use answers::Refusal;
use editions::{Edition, Editioned};
use pack::pack;

// What three changes answered, one after another, and packing after them.
#[derive(Clone, Copy, Debug, PartialEq, Eq)]
pub struct Three {
    pub first: Result<Answer, Refusal>,
    pub second: Result<Answer, Refusal>,
    pub third: Result<Answer, Refusal>,
    pub packed: Result<(), Refusal>,
}

// Three changes, and what they leave packed. It stands beside `in_order`: an array of answers, for one function of both, would begin with answers
// that no call gave.
fn in_row(
    frame: &mut [u8],
    out: &mut [u8],
    first: Change,
    second: Change,
    third: Change,
    edition: Edition,
) -> Three
    ensures { InRow (rules_of edition) frame.old out.old (call_of (rules_of edition) first.entry ∷ call_of (rules_of edition) second.entry ∷ call_of (rules_of edition) third.entry ∷ []) result frame.new out.new }
{
    Three {
        first: first.make(frame, edition),
        second: second.make(frame, edition),
        third: third.make(frame, edition),
        packed: pack(frame, out, edition),
    }
}

// "If no call of either is refused, every call answers the same and both end frames pack to the same bytes": where the first two are on one
// key they keep their order. None where the slice for the copy has another length than the frame: no call was made. Else what was given on
// the frame, where the third change came last, and on its copy, where it came first.
pub fn last_first<E: Editioned>(
    frame: &mut [u8],
    out: &mut [u8],
    copy: &mut [u8],
    copy_out: &mut [u8],
    first: Change,
    second: Change,
    third: Change,
    edition: E,
) -> Option<(Three, Three)>
    ensures { InAnyOrder (E.rules edition) frame.old out.old copy.old copy_out.old (call_of (E.rules edition) first.entry) (call_of (E.rules edition) second.entry) (call_of (E.rules edition) third.entry) result frame.new out.new copy.new copy_out.new }
{
    let edition = edition.edition();
    if copy.len() != frame.len() {
        return None;
    }
    copy.copy_from_slice(frame);
    let forth = in_row(frame, out, first, second, third, edition);
    let back = in_row(copy, copy_out, third, first, second, edition);
    Some((forth, back))
}
