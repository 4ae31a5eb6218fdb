// Info: how full a frame is, refused in the order of document 01.
ghost use Rattle.std.specs.Prelude.{◌≡◌};
ghost use Rattle.answers.specs.Number.{done_number, info_told, counted};
ghost use Rattle.model.specs.Edition.{Edition, SomeEdition};
ghost use Rattle.model.specs.State.{State};
ghost use Rattle.model.specs.Frame.{Stands};
ghost use Rattle.descent.specs.Spot.{Standing};
ghost use Rattle.store.specs.Info.{fullness, InfoPromise};

use answers::{Counts, Refusal};
use editions::Editioned;
use fields::header::Header;
use layout::kind::Kind;
use room::fit::Needs;
use room::left;

// The numbers of a good frame. Each list is read to its end: no list has as many bodies as are asked for.
fn counts(frame: &[u8]) -> Counts
    requires { SomeEdition (λ E. Standing E frame.now) }
    ensures { (E : Edition) (s : State) → Stands E frame.now s → counted result ≡ fullness s }
{
    let given = Header::slots_given(frame);
    let every = Needs {
        bodies: [given + 1; Kind::TABLE],
        extent: 0,
    };
    let lists = left::room_for(frame, every).free;
    Counts {
        frame_length: frame.len(),
        slot_capacity: Header::slot_capacity(frame),
        slots_given: given,
        next_byte: Header::next_byte(frame),
        records: Header::records(frame),
        dead_bytes: Header::dead_bytes(frame),
        leaf: lists[Kind::Leaf as usize],
        prefix: lists[Kind::Prefix as usize],
        crossing: lists[Kind::Crossing as usize],
        node4: lists[Kind::Node4 as usize],
        node16: lists[Kind::Node16 as usize],
        node48: lists[Kind::Node48 as usize],
        node256: lists[Kind::Node256 as usize],
        empty_root: lists[Kind::EmptyRoot as usize],
    }
}

pub fn info<E: Editioned>(frame: &[u8], edition: E) -> Result<Counts, Refusal>
    ensures { InfoPromise (E.rules edition) frame.now (done_number result) (info_told result) }
{
    let edition = edition.edition();
    audit::check(frame, edition)?;
    Ok(counts(frame))
}
