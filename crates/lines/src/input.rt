// A line gathered from the pieces in which it is read.
ghost use Rattle.std.specs.Prelude.{◌≡◌, ◌≤◌, length, [], List, ℕ};
ghost use Rattle.std.specs.Option.{ForSome};
ghost use Rattle.lines.specs.Input.{come, Held, Gathers, Takes, Heard};

use crate::find::find;
use crate::output::append;

// Bytes of a line, its newline left out.
pub const MOST: usize = 1024;

const NEWLINE: u8 = b'\n';

// What has come of a line: its bytes stand in `held`, as many as `have` says. Of a line that is too long none is kept, and
// `have` is None.
#[derive(Drop)]
pub struct Line<'a> {
    pub held: &'a mut [u8],
    pub have: Option<usize>,
    ghost room: { 1024 ≤ length held.now },
    ghost short: { ForSome have (λ n. n ≤ 1024) },
}

impl<'a> Line<'a> {
    // A line of which nothing has come.
    pub fn new(held: &'a mut [u8]) -> Line<'a>
        requires { 1024 ≤ length held.old }
        ensures same_reference { result.held.ghost_name ≡ held.entry.ghost_name }
        ensures none { Held [] result.held.now (come result.have) }
    {
        Line {
            held,
            have: Some(0),
        }
    }

    // The next line, of which nothing has come.
    pub fn clear(&mut self)
        ensures same_reference { self.new.held.ghost_name ≡ self.old.held.ghost_name }
        ensures same { self.new.held.now ≡ self.old.held.now }
        ensures none { Held [] self.new.held.now (come self.new.have) }
    {
        self.have = Some(0);
    }

    // The bytes, unless there are too many.
    pub fn bytes(&self) -> Option<&[u8]>
        ensures { (line : List ℕ) → Held line self.now.held.now (come self.now.have) → Heard line result }
    {
        Some(&self.held[..self.have?])
    }

    fn gather(&mut self, more: &[u8])
        ensures same_reference { self.new.held.ghost_name ≡ self.old.held.ghost_name }
        ensures more { Gathers self.old.held.now (come self.old.have) more.now self.new.held.now (come self.new.have) }
    {
        let Some(have) = self.have else {
            return; // too long, as it was
        };
        if more.len() > MOST - have {
            self.have = None;
            return;
        }
        self.have = Some(append(self.held, have, more));
    }

    // Takes the bytes of the piece up to the line's newline, and gives what comes after it; the whole piece, if none is there.
    pub fn take<'p>(&mut self, piece: &'p [u8]) -> Option<&'p [u8]>
        ensures same_reference { self.new.held.ghost_name ≡ self.old.held.ghost_name }
        ensures takes { Takes self.old.held.now (come self.old.have) piece.now self.new.held.now (come self.new.have) result }
    {
        let Some(end) = find(piece, NEWLINE) else {
            self.gather(piece);
            return None;
        };
        self.gather(&piece[..end]);
        Some(&piece[end + 1..])
    }
}
