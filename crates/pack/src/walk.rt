// "Slots are numbered from 1 in the order of visit, parent first and each child with all below it before the next child." Packing a node and
// packing its run of children call each other; the path bytes left fall.
ghost use Rattle.std.specs.Prelude.{◌≤◌};
ghost use Rattle.layout.specs.Entry.{high_of};
ghost use Rattle.model.specs.Edition.{Edition, SomeEdition};
ghost use Rattle.pack.specs.Walk.{TreeReady, TreePacked};

use crate::bodies;
use crate::bodies::Next;
use fields::body::Prefix;
use inner::look;
use inner::visit::child_at;
use layout::entry::Entry;
use layout::kind::Kind;
use pack_body::inner_node;

// The tree at slot s of the frame, where a path has `left` bytes left: the Prefixes of a chain one after another, and the inner node below.
#[cycle(run_tree)]
pub fn tree(f: &[u8], out: &mut [u8], s: usize, left: usize, next: Next) -> Next
    requires { SomeEdition (λ E. TreeReady E f.now s left out.old next) }
    ensures { (E : Edition) → TreeReady E f.now s left out.old next → TreePacked E f.now s out.old next out.new result }
{
    let mut node = s;
    let mut node_left = left;
    let mut here = next;

    // It follows slots and steps no index: a `for` is no plainer.
    loop {
        let e = Entry::read(f, node);
        match e.kind() {
            Kind::Leaf => return bodies::leaf(f, out, e.place, here),
            Kind::Prefix => {
                here = bodies::prefix(f, out, e.place, here);
                node = Prefix::child(f, e.place);
                node_left -= Prefix::length(f, e.place);
            }
            _ => return run(f, out, node, node_left, here),
        }
    }
}

// The inner node of slot s, at the smallest kind that holds its children, and the run of its children: "A node's children are packed in
// ascending byte order". What the frame says of the node is read again for each child, and no `for` goes
// over the count: its end would stand on the stack of every call below, and the stack is to be small.
#[cycle(run_tree)]
fn run(f: &[u8], out: &mut [u8], s: usize, left: usize, next: Next) -> Next
    requires { SomeEdition (λ E. TreeReady E f.now s left out.old next) × (4 ≤ high_of f.now s) × (high_of f.now s ≤ 7) }
    ensures { (E : Edition) → TreeReady E f.now s left out.old next → TreePacked E f.now s out.old next out.new result }
{
    let top = Entry::read(f, s);
    let count = look::count(f, top.place);
    let mut here = bodies::node(out, inner_node::smallest(count), count, next);
    let mut from = 0;
    let mut i = 0;
    loop {
        let e = Entry::read(f, s);
        let n = look::count(f, e.place);
        if n <= i {
            return here;
        }
        let c = child_at(f, e.place, e.kind(), i, from);
        bodies::child(
            out,
            next.place,
            inner_node::smallest(n),
            i,
            c.byte as u8,
            here.slot,
        );
        from = c.byte + 1;
        i += 1;
        let k = Entry::read(f, c.slot);
        match k.kind() {
            Kind::Leaf => here = bodies::leaf(f, out, k.place, here),
            _ => here = tree(f, out, c.slot, left - 1, here),
        }
    }
}
