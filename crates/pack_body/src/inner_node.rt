// An inner node: "a node of the smallest kind that holds their next bytes"; "A node's children are packed in ascending byte order, and
// Node48 places ascend too."
ghost use Rattle.std.specs.Prelude.{◌≡◌, ◌≤◌, ◌<◌, length};
ghost use Rattle.layout.specs.Kind.{number_of, body_size, most};
ghost use Rattle.model.specs.Image as image;
ghost use Rattle.model.specs.Body.{Zero};
ghost use Rattle.pack_body.specs.Part.{NodeStarted, ChildWritten};

use fields::body::Node;
use inner::carry;
use layout::kind::Kind;

// The smallest inner kind that holds n children.
pub fn smallest(n: usize) -> Kind
    ensures { number_of result ≡ image.smallest n }
{
    if n <= Kind::Node4.most_children() {
        return Kind::Node4;
    }
    if n <= Kind::Node16.most_children() {
        return Kind::Node16;
    }
    if n <= Kind::Node48.most_children() {
        return Kind::Node48;
    }
    Kind::Node256
}

// A body of n children, none of them there yet, over zero bytes.
pub fn start(part: &mut [u8], kind: Kind, n: usize)
    requires { (4 ≤ number_of kind) × (number_of kind ≤ 7) × (body_size (number_of kind) ≤ length part.old) × Zero part.old 0 (body_size (number_of kind)) }
    ensures { NodeStarted part.old part.new (number_of kind) n }
{
    Node::set_count(part, 0, n);
}

// The i-th child from 0, behind the others: byte b, and in a Node48 place i + 1.
pub fn child(part: &mut [u8], kind: Kind, i: usize, b: u8, slot: usize)
    requires { (4 ≤ number_of kind) × (number_of kind ≤ 7) × (body_size (number_of kind) ≤ length part.old) × (i < most (number_of kind)) }
    ensures { ChildWritten part.old part.new (number_of kind) i b slot }
{
    carry::append(part, 0, kind, i, b, slot);
}
