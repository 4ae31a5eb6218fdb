// Erase on a good frame: the spot is found, the needs are compared with the room, and only then is anything written.
#![tactic(auto)]

ghost use Rattle.answers.specs.Number.{number_of, erased_number};
ghost use Rattle.model.specs.Edition.{Edition, SomeEdition};
ghost use Rattle.erase_remove.specs.Erase.{EraseAt, EraseStep};
ghost use Rattle.erase_core.specs.Core.{Asked, EraseMade};

use answers::{Erased, Refusal};
use descent::spot::{End, Spot};
use descent::walk;
use editions::Editioned;
use erase_join::join;
use erase_remove::{only, remove, shrink};
use inner::look;
use layout::kind::Kind;
use room::{fit, left};

// The edit that the Leaf's node calls for: it keeps its kind, or it falls to the mark of its kind, a Node4 to one child.
fn apply(f: &mut [u8], key: &[u8], spot: Spot)
    requires { SomeEdition (λ E. EraseAt E f.old key.now spot) }
    ensures { (E : Edition) → EraseAt E f.old key.now spot → EraseStep E f.old key.now f.new }
{
    let node = spot.node;
    if look::count(f, node.place) != node.kind.shrink_mark() + 1 {
        remove::remove_child(f, spot);
        return;
    }
    if node.kind == Kind::Node4 {
        join::join(f, key, spot);
        return;
    }
    shrink::shrink(f, spot);
}

// The record of a legal key goes.
pub fn erase<E: Editioned>(f: &mut [u8], key: &[u8], edition: E) -> Result<Erased, Refusal>
    requires { Asked (E.rules edition) f.old key.now }
    ensures { EraseMade (E.rules edition) f.old key.now (number_of erased_number result) f.new }
{
    let spot = walk::spot_of(f, key, edition.edition());
    if spot.end != End::Found {
        return Ok(Erased::Absent);
    }
    // the only record needs nothing
    if spot.node.slot == 0 {
        only::erase_only(f);
        return Ok(Erased::Done);
    }
    let needs = plan::erase::erase_needs(f, key, spot);
    if !fit::fits(left::room_for(f, needs), needs) {
        return Err(Refusal::Room);
    }
    apply(f, key, spot);
    Ok(Erased::Done)
}
