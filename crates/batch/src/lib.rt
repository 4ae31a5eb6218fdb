// Many changes, checked once: a batch is tried in a second frame, and carried out in the first if no change is refused.
#![tactic(auto)]

mod change;
mod laid;
mod run;

ghost use Rattle.std.specs.Prelude.{◌<◌, ◌≤◌};
ghost use Rattle.batch.specs.Batch.{BatchPromise};
ghost use Rattle.batch.specs.Stopped.{batch_number, batch_place};

use answers::Refusal;
use editions::Editioned;
use moves::fill;
pub use run::Stopped;

pub fn apply<E: Editioned>(
    frame: &mut [u8],
    second: &mut [u8],
    batch: &[u8],
    answers: &mut [u8],
    edition: E,
) -> Result<(), Stopped>
    ensures { BatchPromise (E.rules edition) frame.old second.old batch.now answers.old (batch_number result) (batch_place result) frame.new second.new answers.new × (batch_number result < 256) × (batch_place result ≤ 4294967295) }
{
    let edition = edition.edition();
    audit::check(frame, edition)?;
    // 7: the second frame has another length
    if second.len() != frame.len() {
        return Err(Stopped::from(Refusal::Output));
    }
    if !laid::well_laid(batch, edition) {
        return Err(Stopped::from(Refusal::Batch));
    }
    fill::paste(second, 0, frame);
    run::trial(second, batch, edition)?;
    run::carry_out(frame, batch, answers, edition);
    fill::paste(second, 0, frame);
    Ok(())
}
