// Names in order (document 02, Q-1): the keys of a frame from a prefix and a start key on, in byte order, into a lent buffer. The frame is only read.
#![tactic(auto)]

mod entry;
mod page;

ghost use Rattle.std.specs.Prelude.{◌≡◌, ◌≤◌, ◌<◌, length};
ghost use Rattle.answers.specs.Number.{done_number, list_count, list_more};
ghost use Rattle.editions.specs.Rules.{rules_of};
ghost use Rattle.listing.specs.Listing.{start_of, delimiter_of, start_fault, ListPromise};
ghost use Rattle.names.specs.Entry.{maybe, started, word_room};

use answers::{Page, Refusal};
use editions::{Edition, Editioned};
use entry::Asked;
use fields::header::Header;

// What refuses a start key, if one is given and anything does.
fn start_fault(start: Option<&[u8]>, edition: Edition) -> Result<(), Refusal>
    ensures { done_number result ≡ start_fault (rules_of edition) (started start.entry) }
{
    match start {
        Some(start) => keys::fault(start, edition),
        None => Ok(()),
    }
}

// The listing, with a word lent in which edition 2 spells out what it seeks. A prefix has at most as many bytes as a key.
fn list_by(
    frame: &[u8],
    asked: Asked,
    buffer: &mut [u8],
    word: &mut [u8],
    edition: Edition,
) -> Result<Page, Refusal>
    requires { (word_room (rules_of edition) ≤ length word.old) × (length word.old < 65536) }
    ensures { ListPromise (rules_of edition) frame.now asked.entry.prefix.now (started asked.entry.start) (maybe asked.entry.delimiter) buffer.old (done_number result) (list_count result) (list_more result) buffer.new }
{
    audit::check(frame, edition)?;
    if asked.prefix.len() > edition.longest_key() {
        return Err(Refusal::KeyLength);
    }
    start_fault(asked.start, edition)?;
    if Header::records(frame) == 0 {
        return Ok(Page {
            count: 0,
            more: false,
        });
    }
    page::fill(frame, Header::root(frame), asked, buffer, word, edition)
}

// Entries after `start`, if one is given, of the keys that begin with `prefix`; a `delimiter` above 255 is none. A flag and a number, as C passes them:
// ListPromise holds of any, which may not change.
pub fn list<E: Editioned>(
    frame: &[u8],
    prefix: &[u8],
    start: &[u8],
    given: bool,
    delimiter: usize,
    buffer: &mut [u8],
    edition: E,
) -> Result<Page, Refusal>
    ensures { ListPromise (E.rules edition) frame.now prefix.now (start_of given start.now) (delimiter_of delimiter) buffer.old (done_number result) (list_count result) (list_more result) buffer.new }
{
    let edition = edition.edition();
    let asked = Asked {
        prefix,
        start: given.then_some(start),
        delimiter: u8::try_from(delimiter).ok(),
    };
    match edition {
        Edition::First => {
            let mut unspelt = [0; 0];
            list_by(frame, asked, buffer, &mut unspelt, edition)
        }
        Edition::Second => {
            let mut word = [0; keys::LONGEST_WORD];
            list_by(frame, asked, buffer, &mut word, edition)
        }
    }
}
