// Packing (document 01, "The packed image"): the records of a good frame, laid out anew in another slice. The frame is only read.
#![tactic(auto)]

mod bodies;
mod image;
mod walk;

ghost use Rattle.answers.specs.Number.{done_number};
ghost use Rattle.editions.specs.Rules.{rules_of};
ghost use Rattle.model.specs.Promise.{PackingPromise, PackPromise, PackBeforePromise};
ghost use Rattle.audit.specs.Audit.{ruled};

use answers::Refusal;
use editions::{Edition, Editioned};
use fields::header::Header;

// By the rule that what is freed is wiped, or by the one from before: a flag, as audit::check_by takes it, whose promise may not change. "Each packed
// body is no larger than the live one, so packing has no answer 6."
fn by_rule(frame: &[u8], out: &mut [u8], edition: Edition, wiped: bool) -> Result<(), Refusal>
    ensures { PackingPromise (ruled wiped (rules_of edition)) (rules_of edition) frame.now out.old (done_number result) out.new }
{
    audit::check_by(frame, edition, wiped)?;
    if out.len() != frame.len() {
        return Err(Refusal::Output);
    }
    image::write(
        frame,
        out,
        Header::slot_capacity(frame),
        Header::records(frame),
        Header::root(frame),
        edition,
    );
    Ok(())
}

pub fn pack<E: Editioned>(frame: &[u8], out: &mut [u8], edition: E) -> Result<(), Refusal>
    ensures { PackPromise (E.rules edition) frame.now out.old (done_number result) out.new }
{
    by_rule(frame, out, edition.edition(), true)
}

// "frames from before must be packed once, by a call that still takes the old rule": what it writes is good by the new one. They are of edition 1.
pub fn pack_before(frame: &[u8], out: &mut [u8]) -> Result<(), Refusal>
    ensures { PackBeforePromise frame.now out.old (done_number result) out.new }
{
    by_rule(frame, out, Edition::First, false)
}
