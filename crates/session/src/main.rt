// The session over all its lines, run on document 01's example. What is written for what is read is said of slices (`part`). Here the
// system's calls read and write, and no contract can say what they do: that what `part` gives is written once, in order, is seen by
// reading the five functions.
#![tactic(auto)]

mod part;

ghost use Rattle.std.specs.Prelude.{◌≡◌, List, [], ℕ, None, ◌≤◌, length};
ghost use Rattle.model.specs.Edition.{edition1};
ghost use Rattle.lines.specs.Input.{come, Held};
ghost use Rattle.dialog.specs.Answer.{Wide};
ghost use Rattle.session.specs.Part.{Part};

use dialog::step::{Frames, MOST_FRAME};
use lines::input::{Line, MOST};
use part::{answer_lines, end, greet};
use std::io::Read;

// Bytes for replies: one of any length, and what short ones take before it.
const REPLIES: usize = 20480;

// Bytes of a piece of the input.
const PIECE: usize = 4096;

// Writes the bytes, as far as they can be written: nobody is there to be told that they cannot.
fn write(rt: &HostRuntime, bytes: &[u8]) {
    let _ = rt.write_all(bytes);
}

// The next bytes of the input at the start of the piece, and how many; 0 at its end, or where it cannot be read.
fn read(rt: &HostRuntime, piece: &mut [u8]) -> usize
    ensures { result ≤ length piece.new }
{
    rt.stdin().read(piece).unwrap_or(0)
}

// Answers every line that ends in the piece.
fn answer_piece(
    rt: &HostRuntime,
    frames: &mut Frames,
    line: &mut Line,
    out: &mut [u8],
    piece: &[u8],
)
    requires { Wide out.old }
    ensures { (begun : List ℕ) → Held begun line.old.held.now (come line.old.have) → (text : List ℕ) × Part edition1 frames.old.buffer.now frames.old.long begun piece.now frames.new.buffer.now frames.new.long line.new.held.now (come line.new.have) text }
{
    let mut rest = piece;
    while !rest.is_empty() {
        let answered = answer_lines(frames, line, out, rest);
        write(rt, &out[..answered.written]);
        rest = answered.rest;
    }
}

// From the start, when there is no frame and nothing has come of a line. A proved loop has to end, and nothing says that the input does: no run uses
// up these turns.
fn answer_all(rt: &HostRuntime, frames: &mut Frames, line: &mut Line, out: &mut [u8])
    requires wide { Wide out.old }
    requires no_frame { frames.old.long ≡ None }
    requires no_line { Held [] line.old.held.now (come line.old.have) }
    ensures { (input : List ℕ) × (text : List ℕ) × Part edition1 frames.old.buffer.now None [] input frames.new.buffer.now frames.new.long line.new.held.now (come line.new.have) text }
{
    for _ in 0..u64::MAX {
        let mut piece = [0; PIECE];
        let n = read(rt, &mut piece);
        if n == 0 {
            break;
        }
        answer_piece(rt, frames, line, out, &piece[..n]);
    }
}

// The session, from the greeting to the end of standard input.
fn main(rt: HostRuntime) {
    let mut buffer = [0; MOST_FRAME];
    let mut packed = [0; MOST_FRAME];
    let mut held = [0; MOST];
    let mut out = [0; REPLIES];
    let mut frames = Frames {
        buffer: &mut buffer,
        packed: &mut packed,
        long: None,
    };
    let mut line = Line::new(&mut held);
    let greeted = greet(&mut out);
    write(&rt, &out[..greeted]);
    answer_all(&rt, &mut frames, &mut line, &mut out);
    let ended = end(&line, &mut out);
    write(&rt, &out[..ended]);
}
