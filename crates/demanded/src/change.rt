// A call that changes the records.
ghost use Rattle.layout.specs.Number.{Bytes};

use answers::{Erased, Refusal, Written};
use editions::Editioned;
use store::erase::erase;
use store::put::{put, replace};

// What is done at a key.
#[derive(Clone, Copy, Debug, PartialEq, Eq)]
pub enum Kind {
    Put,
    Replace,
    Erase,
}

// What a change answers that is not refused.
#[derive(Clone, Copy, Debug, PartialEq, Eq)]
pub enum Answer {
    Written(Written),
    Erased(Erased),
}

// An erase has no use for the value and the stamp.
#[derive(Clone, Copy, Debug, PartialEq, Eq)]
pub struct Change<'a> {
    pub kind: Kind,
    pub key: &'a [u8],
    pub value: &'a [u8],
    pub stamp: usize,
    ghost bytes: { Bytes key.now × Bytes value.now },
}

impl<'a> Change<'a> {
    ghost use Rattle.answers.specs.Number.{number_of};
    ghost use Rattle.model.specs.Call.{Called};
    ghost use Rattle.demanded.specs.Orders.{call_of, answer_number};

    // Makes the call.
    pub fn make<E: Editioned>(self, frame: &mut [u8], edition: E) -> Result<Answer, Refusal>
        ensures { Called (E.rules edition) frame.old (call_of (E.rules edition) self.entry) (number_of answer_number result) frame.new }
    {
        let edition = edition.edition();
        match self.kind {
            Kind::Put => Ok(Answer::Written(put(
                frame, self.key, self.value, self.stamp, edition,
            )?)),
            Kind::Replace => Ok(Answer::Written(replace(
                frame, self.key, self.value, self.stamp, edition,
            )?)),
            Kind::Erase => Ok(Answer::Erased(erase(frame, self.key, edition)?)),
        }
    }
}
