// Which command a line is, its newline left out.
ghost use Rattle.std.specs.Prelude.{◌≡◌};
ghost use Rattle.lines.specs.Line.{numbers as Line·numbers, bare as Line·bare, one_field, two_fields, meant, said};

use crate::find::find;
use crate::number::read;

// A key and a value are parts of the line.
#[derive(Clone, Copy, Debug, PartialEq, Eq)]
pub enum Command<'a> {
    // f F N
    Format(usize, usize),
    // p key value
    Put(&'a [u8], &'a [u8]),
    // g key
    Get(&'a [u8]),
    // e key
    Erase(&'a [u8]),
    // k
    Pack,
}

const SPACE: u8 = b' ';

// A letter and nothing more.
fn bare<'a>(letter: u8) -> Option<Command<'a>>
    ensures { meant result ≡ Line·bare letter }
{
    match letter {
        b'k' => Some(Command::Pack),
        _ => None,
    }
}

// A letter and one field.
fn one_field<'a>(letter: u8, key: &'a [u8]) -> Option<Command<'a>>
    ensures { meant result ≡ one_field letter key.now }
{
    match letter {
        b'g' => Some(Command::Get(key)),
        b'e' => Some(Command::Erase(key)),
        _ => None,
    }
}

fn numbers<'a>(f: Option<usize>, n: Option<usize>) -> Option<Command<'a>>
    ensures { meant result ≡ Line·numbers f n }
{
    Some(Command::Format(f?, n?))
}

// A letter and two fields.
fn two_fields<'a>(letter: u8, first: &'a [u8], second: &'a [u8]) -> Option<Command<'a>>
    ensures { meant result ≡ two_fields letter first.now second.now }
{
    match letter {
        b'p' => Some(Command::Put(first, second)),
        b'f' => numbers(read(first), read(second)),
        _ => None,
    }
}

// None where a line is no command.
pub fn parse(line: &[u8]) -> Option<Command>
    ensures { meant result ≡ said line.now }
{
    let (&letter, rest) = line.split_first()?;
    let Some((&space, fields)) = rest.split_first() else {
        return bare(letter);
    };
    if space != SPACE {
        return None;
    }
    let Some(end) = find(fields, SPACE) else {
        return one_field(letter, fields);
    };
    let second = &fields[end + 1..];
    if find(second, SPACE).is_some() {
        return None;
    }
    two_fields(letter, &fields[..end], second)
}
