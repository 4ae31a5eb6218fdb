// One change on a good frame: what the single call gives and leaves, without its check.
ghost use Rattle.std.specs.Prelude.{◌<◌};
ghost use Rattle.answers.specs.Number.{number_of, written_number, erased_number};
ghost use Rattle.editions.specs.Rules.{rules_of};
ghost use Rattle.model.specs.Promise.{WritePromise, ErasePromise};
ghost use Rattle.model.specs.Call.{Called};
ghost use Rattle.descent.specs.Spot.{Standing};
ghost use Rattle.put_core.specs.Core.{way_of};
ghost use Rattle.batch.specs.Layout.{call_at};
ghost use Rattle.batch.specs.Run.{At};
ghost use Rattle.batch.specs.Stopped.{made_number};

use crate::laid;
use crate::laid::Change;
use answers::{Erased, Numbered, Refusal, Written};
use editions::Edition;
use put_core::Way;

// What a change has done.
#[derive(Clone, Copy, Debug, PartialEq, Eq)]
pub enum Made {
    Written(Written),
    Erased(Erased),
}

impl Numbered for Made {
    ghost number = { made_number };

    fn number(self) -> u32 {
        match self {
            Made::Written(w) => w.number(),
            Made::Erased(e) => e.number(),
        }
    }
}

fn write(
    f: &mut [u8],
    key: &[u8],
    value: &[u8],
    stamp: usize,
    way: Way,
    edition: Edition,
) -> Result<Made, Refusal>
    requires { Standing (rules_of edition) f.old × (stamp < (rules_of edition).stamps) }
    ensures { WritePromise (rules_of edition) (way_of way) f.old key.now (record { bytes = value.now; stamp = stamp }) (number_of made_number result) f.new }
{
    store::put::legal(key, value, edition)?;
    let written = put_core::write(f, key, value, stamp, way, edition)?;
    Ok(Made::Written(written))
}

fn erase(f: &mut [u8], key: &[u8], edition: Edition) -> Result<Made, Refusal>
    requires { Standing (rules_of edition) f.old }
    ensures { ErasePromise (rules_of edition) f.old key.now (number_of made_number result) f.new }
{
    keys::fault(key, edition)?;
    let erased = erase_core::erase(f, key, edition)?;
    Ok(Made::Erased(erased))
}

// The change at o of a batch.
pub fn change(f: &mut [u8], b: &[u8], o: usize, edition: Edition) -> Result<Made, Refusal>
    requires { Standing (rules_of edition) f.old × At (rules_of edition) b.now o }
    ensures { Called (rules_of edition) f.old (call_at (rules_of edition) b.now o) (number_of made_number result) f.new }
{
    let from = o + laid::at_key(edition);
    let to = from + laid::key_length(b, o);
    let end = to + laid::value_length(b, o);
    let stamp = laid::stamp(b, o, edition);
    match laid::kind(b, o) {
        Ok(Change::Put) => write(f, &b[from..to], &b[to..end], stamp, Way::New, edition),
        Ok(Change::Replacement) => {
            write(f, &b[from..to], &b[to..end], stamp, Way::Replacing, edition)
        }
        _ => erase(f, &b[from..to], edition),
    }
}
