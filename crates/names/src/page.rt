// A page: as many whole entries as fit, each from where the one before ends.
ghost use Rattle.std.specs.Prelude.{◌≤◌, ◌<◌, length};
ghost use Rattle.editions.specs.Rules.{rules_of};
ghost use Rattle.seek.specs.Sub.{Sub};
ghost use Rattle.names.specs.Entry.{maybe, started, StartGood, FirstEntry, PageAt, word_room};

use crate::entry;
use crate::entry::{Asked, Entry};
use answers::{Page, Refusal};
use editions::Edition;

// a bound whose text is followed by this has all keys that begin with the text at or above it
const FROM_TEXT: usize = 0;

// The first entry after the start key, or of all if none is given.
fn first(f: &[u8], root: usize, asked: Asked, word: &mut [u8], edition: Edition) -> Option<Entry>
    requires { Sub (rules_of edition) f.now root 0 × StartGood (rules_of edition) (started asked.start) × (length asked.prefix.now ≤ 255) × (word_room (rules_of edition) ≤ length word.old) × (length word.old < 65536) }
    ensures { FirstEntry (rules_of edition) f.now root asked.entry.prefix.now (started asked.entry.start) (maybe asked.entry.delimiter) result }
{
    let Some(start) = asked.start else {
        return entry::from_bound(f, root, asked, asked.prefix, FROM_TEXT, word, edition);
    };
    if start.starts_with(asked.prefix) {
        let c = entry::ending(start, asked.prefix.len(), asked.delimiter);
        return entry::from_bound(f, root, asked, &start[..c.long], c.tail, word, edition);
    }
    if seek::weigh_bytes(start, 0, start.len(), asked.prefix, 0, FROM_TEXT).is_gt() {
        return None;
    }
    entry::from_bound(f, root, asked, asked.prefix, FROM_TEXT, word, edition)
}

// "as many whole ones as fit", with a word lent in which each seek is spelt out: the measure is the room that is left, which falls with each entry.
pub fn fill(
    f: &[u8],
    root: usize,
    asked: Asked,
    buffer: &mut [u8],
    word: &mut [u8],
    edition: Edition,
) -> Result<Page, Refusal>
    requires { Sub (rules_of edition) f.now root 0 × StartGood (rules_of edition) (started asked.start) × (length asked.prefix.now ≤ 255) × (word_room (rules_of edition) ≤ length word.old) × (length word.old < 65536) }
    ensures { PageAt (rules_of edition) f.now root asked.entry.prefix.now (started asked.entry.start) (maybe asked.entry.delimiter) buffer.old result buffer.new }
{
    let mut next = first(f, root, asked, word, edition);
    let mut count = 0;
    let mut used = 0;
    while let Some(e) = next {
        if buffer.len() - used < entry::LENGTH_SIZE + e.long {
            if count == 0 {
                return Err(Refusal::Buffer);
            }
            return Ok(Page { count, more: true });
        }
        let text = &f[e.at..e.at + e.long];
        entry::write(buffer, used, text);
        used += entry::LENGTH_SIZE + e.long;
        count += 1;
        next = entry::from_bound(f, root, asked, text, e.tail, word, edition);
    }
    Ok(Page { count, more: false })
}
