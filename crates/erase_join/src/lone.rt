// The joins: a Leaf, or a run of Prefixes and what is below it, takes the place of the Node4.
ghost use Rattle.model.specs.Edition.{Edition, SomeEdition};
ghost use Rattle.between.specs.Lead.{NotUnder, NotLeaf};
ghost use Rattle.erase_remove.specs.Erase.{EraseStep};
ghost use Rattle.erase_join.specs.Lone.{IsLeaf, Full, Bare, UnderRun, Roomy};

use crate::finish;
use chain::shift;
use descent::spot::Body;
use room::link;

// A Node4 that loses its Leaf, and the child that is left.
#[derive(Clone, Copy, Debug, PartialEq, Eq)]
pub struct Lone {
    pub node: usize,
    // the Leaf's slot and the place of its body
    pub leaf: usize,
    pub at: usize,
    // the child's byte and slot
    pub byte: u8,
    pub child: usize,
}

// ---- a Leaf is left

// It takes the place of the Node4, above which no Prefix stands: `link` names the Node4.
pub fn leaf_up(f: &mut [u8], key: &[u8], l: Lone, link: usize)
    requires { SomeEdition (λ E. Bare E NotUnder IsLeaf f.old key.now l link) }
    ensures { (E : Edition) → Bare E NotUnder IsLeaf f.old key.now l link → EraseStep E f.old key.now f.new }
{
    link::relink(f, link, l.child);
    finish::drop_both(f, l.leaf, l.node, l.at);
}

// It takes the place of a run of Prefixes, which is freed too: `link` names the first of them.
pub fn leaf_over(f: &mut [u8], key: &[u8], l: Lone, first: usize, link: usize)
    requires { SomeEdition (λ E. UnderRun E f.old key.now l first link) }
    ensures { (E : Edition) → UnderRun E f.old key.now l first link → EraseStep E f.old key.now f.new }
{
    shift::free(f, first);
    link::relink(f, link, l.child);
    finish::drop_both(f, l.leaf, l.node, l.at);
}

// ---- a run of Prefixes or an inner node is left

// No Prefix above has room: the byte joins in front of the run, and `link`, which named the Node4, names it; an inner node needs a Prefix.
pub fn up(f: &mut [u8], key: &[u8], l: Lone, link: usize)
    requires { SomeEdition (λ E. Bare E Full NotLeaf f.old key.now l link) }
    ensures { (E : Edition) → Bare E Full NotLeaf f.old key.now l link → EraseStep E f.old key.now f.new }
{
    shift::push(f, l.child, l.byte, link);
    finish::drop_both(f, l.leaf, l.node, l.at);
}

// The Prefix `above` stands just above the Node4 and has room: it takes the byte, and of the run below what it then has room for.
pub fn over(f: &mut [u8], key: &[u8], l: Lone, above: Body)
    requires { SomeEdition (λ E. Roomy E f.old key.now l above) }
    ensures { (E : Edition) → Roomy E f.old key.now l above → EraseStep E f.old key.now f.new }
{
    prefix_body::back(f, above.place, l.byte, l.child);
    shift::fill(f, above.place, l.child);
    finish::drop_both(f, l.leaf, l.node, l.at);
}
