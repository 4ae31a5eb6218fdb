// The plan of an erase.
ghost use Rattle.model.specs.Edition.{Edition, SomeEdition};
ghost use Rattle.plan.specs.Erase.{EraseFrom, PairFrom, ErasePlan};

use crate::run;
use descent::spot::Spot;
use erase_join::join;
use inner::look;
use layout::entry::Entry;
use layout::kind::Kind;
use room::fit::Needs;

// "A Node4 that falls to one child is freed." Where no Prefix above has room, its byte joins in front of what is left: "need .. as many
// Prefixes as the frame then has more".
#[tactic(auto, using(crate::proofs::NoneLaws::none_small))]
fn joining(f: &[u8], key: &[u8], spot: Spot) -> Needs
    requires { SomeEdition (λ E. PairFrom E f.now key.now spot) }
    ensures { (E : Edition) → PairFrom E f.now key.now spot → ErasePlan E f.now key.now spot result }
{
    let none = Needs::none();
    let above = spot.above;
    if join::spare(f, above) != 0 {
        return none;
    }
    let node = spot.node;
    let other = join::other_child(f, node.place, spot.byte);
    let entry = Entry::read(f, other.slot);
    if entry.kind() == Kind::Leaf {
        return none;
    }
    // the last Prefix of the run has room
    if chain::left_of(run::long(f, other.slot)) != 0 {
        return none;
    }
    none.with(Kind::Prefix)
}

// What an erase needs whose Leaf, where the descent ended, stands in an inner node: "A Node256 that falls to 37, a Node48 to 12, a
// Node16 to 3 needs a body of the next smaller kind".
#[tactic(auto, using(crate::proofs::NoneLaws::none_small))]
pub fn erase_needs(f: &[u8], key: &[u8], spot: Spot) -> Needs
    requires { SomeEdition (λ E. EraseFrom E f.now key.now spot) }
    ensures { (E : Edition) → EraseFrom E f.now key.now spot → ErasePlan E f.now key.now spot result }
{
    let node = spot.node;
    let none = Needs::none();
    if look::count(f, node.place) != node.kind.shrink_mark() + 1 {
        return none;
    }
    match node.kind.down() {
        Some(smaller) => none.with(smaller),
        None => joining(f, key, spot),
    }
}
