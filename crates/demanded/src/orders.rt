// Demand 3: two calls in both orders, and two frames packed.
ghost use Rattle.editions.specs.Rules.{rules_of};
ghost use Rattle.demanded.specs.Orders.{call_of, InOrder, Ordered, PackedBoth};

use crate::change::{Answer, Change};
use answers::Refusal;
use editions::{Edition, Editioned};
use pack::pack;

// What two calls answered, one after the other, and packing after them.
#[derive(Clone, Copy, Debug, PartialEq, Eq)]
pub struct Given {
    pub first: Result<Answer, Refusal>,
    pub second: Result<Answer, Refusal>,
    pub packed: Result<(), Refusal>,
}

// Two calls, and what they leave packed.
fn in_order(
    frame: &mut [u8],
    out: &mut [u8],
    first: Change,
    second: Change,
    edition: Edition,
) -> Given
    ensures { InOrder (rules_of edition) frame.old out.old (call_of (rules_of edition) first.entry) (call_of (rules_of edition) second.entry) result frame.new out.new }
{
    Given {
        first: first.make(frame, edition),
        second: second.make(frame, edition),
        packed: pack(frame, out, edition),
    }
}

// "Two calls on different keys, each a put or an erase, give the same answers in both orders and frames that pack to the same bytes,
// if none is refused." Document 02: it "holds for puts, replacements and erases, 11 counted as an answer and not as a refusal".
// None where the slice for the copy has another length than the frame: no call was made. Else what was given on the frame, and on its copy, where the second call came first.
pub fn both_orders<E: Editioned>(
    frame: &mut [u8],
    out: &mut [u8],
    copy: &mut [u8],
    copy_out: &mut [u8],
    first: Change,
    second: Change,
    edition: E,
) -> Option<(Given, Given)>
    ensures { Ordered (E.rules edition) frame.old out.old copy.old copy_out.old (call_of (E.rules edition) first.entry) (call_of (E.rules edition) second.entry) result frame.new out.new copy.new copy_out.new }
{
    let edition = edition.edition();
    if copy.len() != frame.len() {
        return None;
    }
    copy.copy_from_slice(frame);
    let forth = in_order(frame, out, first, second, edition);
    let back = in_order(copy, copy_out, second, first, edition);
    Some((forth, back))
}

// What packing answered for each of two frames.
#[derive(Clone, Copy, Debug, PartialEq, Eq)]
pub struct Packs {
    pub first: Result<(), Refusal>,
    pub second: Result<(), Refusal>,
}

// "Two good frames of equal length and slot capacity pack to the same bytes exactly when they hold the same records."
pub fn pack_both<E: Editioned>(
    first: &[u8],
    first_out: &mut [u8],
    second: &[u8],
    second_out: &mut [u8],
    edition: E,
) -> Packs
    ensures { PackedBoth (E.rules edition) first.now first_out.old second.now second_out.old result first_out.new second_out.new }
{
    let edition = edition.edition();
    Packs {
        first: pack(first, first_out, edition),
        second: pack(second, second_out, edition),
    }
}
