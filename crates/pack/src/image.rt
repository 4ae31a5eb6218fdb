// The whole image: header, entries, bodies and extents; "All else is zero."
ghost use Rattle.std.specs.Prelude.{◌≡◌, ◌≤◌, length};
ghost use Rattle.model.specs.Edition.{Edition as Rules, SomeEdition};
ghost use Rattle.editions.specs.Rules.{rules_of};
ghost use Rattle.pack.specs.Image.{Known, Imaged};

use crate::bodies::Next;
use crate::walk;
use editions::Edition;
use fields::header::Header;
use pack_body::header;

// "Slots are numbered from 1"
const FIRST_SLOT: usize = 1;

// The image of one record or more.
fn of_tree(f: &[u8], out: &mut [u8], capacity: usize, records: usize, root: usize, edition: Edition)
    requires { SomeEdition (λ G. Known G (rules_of edition) f.now capacity records root) × (length out.old ≡ length f.now) × (1 ≤ records) }
    ensures { (G : Rules) → Known G (rules_of edition) f.now capacity records root → Imaged G (rules_of edition) f.now out.new }
{
    let bytes = out.len();
    moves::clear(out, 0, bytes);
    let start = Next {
        slot: FIRST_SLOT,
        place: Header::data_start_of(capacity),
    };
    let end = walk::tree(f, out, root, edition.longest_word(), start);
    header::write(
        out,
        Header::edition(f),
        bytes,
        capacity,
        end.place,
        end.slot - FIRST_SLOT,
        records,
    );
}

// The image of the records of a good frame with this N and R, whose root has this slot: "an EmptyRoot frame as format leaves it if empty". The
// frame tells the edition's number.
pub fn write(
    f: &[u8],
    out: &mut [u8],
    capacity: usize,
    records: usize,
    root: usize,
    edition: Edition,
)
    requires { SomeEdition (λ G. Known G (rules_of edition) f.now capacity records root) × (length out.old ≡ length f.now) }
    ensures { (G : Rules) → Known G (rules_of edition) f.now capacity records root → Imaged G (rules_of edition) f.now out.new }
{
    if records == 0 {
        blank::lay_out(out, capacity, Header::edition(f));
        return;
    }
    of_tree(f, out, capacity, records, root, edition);
}
