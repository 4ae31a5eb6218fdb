// The changes of a batch one after another: on trial, up to the first that is refused, and then for good, with the answers told.
ghost use Rattle.std.specs.Prelude.{◌≡◌, ◌<◌};
ghost use Rattle.editions.specs.Rules.{rules_of};
ghost use Rattle.batch.specs.Run.{Ready, Tried, ToldAt, CarriedOut};
ghost use Rattle.batch.specs.Stopped.{Refuses};

use crate::{change, laid};
use answers::Refusal;
use editions::Edition;

// What stops a batch.
#[derive(Clone, Copy, Debug, PartialEq, Eq)]
pub struct Stopped {
    pub refusal: Refusal,
    // of the change that was refused, from 1; 0 if the batch itself was
    pub place: usize,
}

impl From<Refusal> for Stopped {
    ghost from_gives = { Refuses };

    fn from(refusal: Refusal) -> Stopped {
        Stopped { refusal, place: 0 }
    }
}

pub fn trial(f: &mut [u8], b: &[u8], edition: Edition) -> Result<(), Stopped>
    requires { Ready (rules_of edition) f.old b.now }
    ensures { Tried (rules_of edition) f.old b.now result f.new }
{
    let n = laid::count(b);
    for i in 0..n {
        let o = laid::offset(b, i);
        if let Err(refusal) = change::change(f, b, o, edition) {
            return Err(Stopped {
                refusal,
                place: i + 1,
            });
        }
    }
    Ok(())
}

// The answer to change i, where there is room for it.
fn tell(answers: &mut [u8], i: usize, n: u32)
    requires { n < 256 }
    ensures { ToldAt answers.old i n answers.new }
{
    if i < answers.len() {
        answers[i] = n as u8;
    }
}

pub fn carry_out(f: &mut [u8], b: &[u8], answers: &mut [u8], edition: Edition)
    requires { Ready (rules_of edition) f.old b.now }
    ensures { CarriedOut (rules_of edition) f.old b.now answers.old f.new answers.new }
{
    let n = laid::count(b);
    for i in 0..n {
        let o = laid::offset(b, i);
        let done = change::change(f, b, o, edition);
        tell(answers, i, answers::number(done));
    }
}
