// A record is written on a good frame: the spot is found, the needs are compared with the room, and only then is anything written. Edition 2 writes
// the walked string out first; edition 1 reads the key itself.
#![tactic(auto)]

ghost use Rattle.std.specs.Prelude.{◌≡◌, IfErr};
ghost use Rattle.answers.specs.Number.{refusal_number, number_of, written_number};
ghost use Rattle.model.specs.Edition.{Edition as Rules, SomeEdition};
ghost use Rattle.editions.specs.Rules.{rules_of};
ghost use Rattle.keys.specs.Word.{Spells};
ghost use Rattle.leaf_new.specs.Make.{stamped, value_of};
ghost use Rattle.leaf_new.specs.Put.{PutStep};
ghost use Rattle.put_core.specs.Core.{Asked, AtSpot, PutSpot, AtNode, Tried, WriteMade, way_of, went};

use answers::{Refusal, Written};
use descent::spot::{End, Spot};
use descent::walk;
use editions::{Edition, Editioned};
use inner::look;
use leaf_new::Record;
use room::{fit, left};

// What is asked for: "a plain put on a present key gives a new answer, 11, and changes nothing", "replacing is a call of its own and keeps the old
// behaviour, 8 if the key is absent", and document 01's put does either.
#[derive(Clone, Copy, Debug, PartialEq, Eq)]
pub enum Way {
    New,
    Replacing,
    Either,
}

// "an inner node without that byte: nothing if not full, else the next kind"
fn add(f: &mut [u8], r: Record, spot: Spot)
    requires { SomeEdition (λ E. AtNode E f.old r.key.now r.word.now (value_of r) spot) }
    ensures { (E : Rules) → AtNode E f.old r.entry.key.now r.entry.word.now (value_of r.entry) spot → PutStep E f.old r.entry.key.now (value_of r.entry) f.new }
{
    let here = spot.here;
    if look::count(f, here.place) < here.kind.most_children() {
        put_add::add_child(f, r, spot);
        return;
    }
    put_add::grow(f, r, spot);
}

// The edit that the spot calls for.
fn apply(f: &mut [u8], r: Record, spot: Spot, edition: Edition)
    requires { PutSpot (rules_of edition) f.old r.key.now r.word.now (value_of r) spot }
    ensures { PutStep (rules_of edition) f.old r.entry.key.now (value_of r.entry) f.new }
{
    match spot.end {
        End::Found => put_replace::replace(f, r, spot),
        End::Empty => put_add::first_record(f, r),
        End::Other => put_split::split_leaf(f, r, spot, edition),
        End::Missing => add(f, r, spot),
        _ => put_cut::cut_prefix(f, r, spot),
    }
}

// The record is written where the spot says, if there is room.
fn make(f: &mut [u8], r: Record, spot: Spot, edition: Edition) -> Result<(), Refusal>
    requires { AtSpot (rules_of edition) f.old r.key.now r.word.now (value_of r) spot }
    ensures tried { Tried (rules_of edition) f.old r.entry.key.now (value_of r.entry) (went result) f.new }
    ensures refused { IfErr result (λ e. refusal_number e ≡ 6) }
{
    let needs = plan::put::put_needs(f, r.key, r.value, spot);
    if !fit::fits(left::room_for(f, needs), needs) {
        return Err(Refusal::Room);
    }
    apply(f, r, spot, edition);
    Ok(())
}

// The record is written if the way that is asked for allows it, by whether the key is there.
fn write_by(f: &mut [u8], r: Record, way: Way, edition: Edition) -> Result<Written, Refusal>
    requires { Asked (rules_of edition) f.old r.key.now (value_of r) × Spells (rules_of edition) r.key.now r.word.now }
    ensures { WriteMade (rules_of edition) (way_of way) f.old r.entry.key.now (value_of r.entry) (number_of written_number result) f.new }
{
    let spot = walk::descend(f, r.key, r.word, edition);
    match spot.end {
        End::Found => match way {
            Way::New => Ok(Written::Present),
            _ => {
                make(f, r, spot, edition)?;
                Ok(Written::Replaced)
            }
        },
        _ => match way {
            Way::Replacing => Ok(Written::Absent),
            _ => {
                make(f, r, spot, edition)?;
                Ok(Written::New)
            }
        },
    }
}

// A legal key and value are written in a good frame.
pub fn write<E: Editioned>(
    f: &mut [u8],
    key: &[u8],
    value: &[u8],
    stamp: usize,
    way: Way,
    edition: E,
) -> Result<Written, Refusal>
    requires { Asked (E.rules edition) f.old key.now (stamped value.now stamp) }
    ensures { WriteMade (E.rules edition) (way_of way) f.old key.now (stamped value.now stamp) (number_of written_number result) f.new }
{
    let edition = edition.edition();
    let plain = Record {
        key,
        word: key,
        value,
        stamp,
    };
    match edition {
        Edition::First => write_by(f, plain, way, edition),
        Edition::Second => {
            let mut word: [u8; keys::LONGEST_WORD] = [0; keys::LONGEST_WORD];
            let n = keys::spell(key, &mut word);
            let spelt = Record {
                word: &word[0..n],
                ..plain
            };
            write_by(f, spelt, way, edition)
        }
    }
}
