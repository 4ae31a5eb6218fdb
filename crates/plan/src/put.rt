// The plan of a put.
ghost use Rattle.std.specs.Prelude.{◌≡◌, List, [], ℕ, suc, ◌+◌, ◌-◌, ◌<◌, ◌≤◌, eqb};
ghost use Rattle.layout.specs.Kind.{number_of, most, kind_up};
ghost use Rattle.model.specs.Strings.{pick};
ghost use Rattle.model.specs.Edition.{Edition, SomeEdition};
ghost use Rattle.model.specs.Tree.{chain};
ghost use Rattle.room.specs.Fit.{Small, Asks};
ghost use Rattle.plan.specs.Run.{BeginningAt, Begun};
ghost use Rattle.plan.specs.Plan.{with_leaf, fork_takes, grow_takes, Bodies, PutFrom, PutPlan};

use crate::run;
use descent::spot::{End, Spot};
use fields::body::{Leaf, Prefix};
use inner::look;
use layout::kind::Kind;
use room::fit::Needs;

// Two records part: a Node4, and n Prefixes.
#[tactic(auto, using(crate::proofs::NoneLaws::none_small))]
fn forking(n: usize) -> Needs
    requires { n < 65535 }
    ensures { Bodies result (fork_takes n) }
{
    let none = Needs::none();
    let mut next = none.with(Kind::Node4);
    next.bodies[Kind::Prefix as usize] = n;
    next
}

// A shared beginning of n bytes is cut after q of them, which one Prefix holds: how many Prefixes more there are then.
fn cutting(q: usize, n: usize) -> usize
    requires { (q < n) × (q < 112) × (n < 65536) }
    ensures { result ≡ chain q + chain (n - suc q) - chain n }
{
    if q == 0 {
        return 0;
    }
    chain::bodies_of(n - (q + 1)) + 1 - chain::bodies_of(n)
}

// The bytes of a shared beginning from the Prefix at o on: below one that is not full there is no other.
fn beginning(f: &[u8], o: usize) -> usize
    requires { BeginningAt f.now o }
    ensures { Begun f.now o result }
{
    let n = Prefix::length(f, o);
    if n < Prefix::MOST {
        return n;
    }
    n + run::long(f, Prefix::child(f, o))
}

// One more child: the next kind if the node is full. A full Node256 lacks no byte.
#[tactic(auto, using(crate::proofs::NoneLaws::none_small))]
fn growing(count: usize, kind: Kind) -> Needs
    requires { most (number_of kind) ≤ count → 1 ≤ kind_up (number_of kind) }
    ensures { Bodies result (grow_takes count (number_of kind)) }
{
    let none = Needs::none();
    if count < kind.most_children() {
        return none;
    }
    match kind.up() {
        Some(larger) => none.with(larger),
        None => none,
    }
}

// A new record: these bodies, a Leaf and the extent.
fn recording(bodies: Needs, extent: usize) -> Needs
    requires { Small bodies }
    ensures { (takes : List ℕ) → Asks bodies takes 0 → Asks result (with_leaf takes) extent }
{
    let leaf = bodies.with(Kind::Leaf);
    leaf.with_extent(extent)
}

// A new value of a key that is present: its extent, unless the lengths are the same.
fn replacing(new: usize, old: usize, extent: usize) -> Needs
    ensures { Asks result [] (pick (eqb new old) 0 extent) }
{
    let none = Needs::none();
    if new == old {
        return none;
    }
    none.with_extent(extent)
}

// What a put needs whose descent ended at the spot.
#[tactic(auto, using(crate::proofs::NoneLaws::none_small))]
pub fn put_needs(f: &[u8], key: &[u8], value: &[u8], spot: Spot) -> Needs
    requires { SomeEdition (λ E. PutFrom E f.now key.now value.now spot) }
    ensures { Small result × ((E : Edition) → PutPlan E f.now key.now value.now spot result) }
{
    let extent = Leaf::rounded(key.len() + value.len());
    let here = spot.here;
    match spot.end {
        End::Found => replacing(value.len(), Leaf::value_length(f, here.place), extent),
        End::Empty => recording(Needs::none(), extent),
        End::Other => recording(forking(chain::bodies_of(spot.shared)), extent),
        End::Missing => recording(growing(look::count(f, here.place), here.kind), extent),
        _ => {
            let more = cutting(spot.shared, beginning(f, here.place));
            recording(forking(more), extent)
        }
    }
}
