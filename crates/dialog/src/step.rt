// One line of the session: the command that it is, carried out on the frame in use, and the answer to write.
ghost use Rattle.std.specs.Prelude.{◌≡◌, List, ℕ, ◌+◌, ◌≤◌, length as List·length};
ghost use Rattle.std.specs.Option.{ForSome};
ghost use Rattle.model.specs.Edition.{edition1};
ghost use Rattle.lines.specs.Input.{come, Held};
ghost use Rattle.lines.specs.Line.{of_command, said};
ghost use Rattle.lines.specs.Text.{Appended};
ghost use Rattle.dialog.specs.Answer.{Wide, Answer, alone, question as Answer·question, count as Answer·count, with_counts, Formats, Puts, Gets, Erases, Packs, Does, Steps, Replies};

use answers::LookUp;
use editions::Edition;
use fields::header::Header;
use lines::command::{Command, parse};
use lines::input::Line;
use lines::output::{append, append_number};
use pack::pack;
use store::erase::erase;
use store::format::format;
use store::look::{look_up, value};
use store::put::put_or_replace;

// "a frame of at most 16,384 bytes"
pub const MOST_FRAME: usize = 16384;

// "Edition 1 keeps zero there."
const NO_STAMP: usize = 0;

// Bytes for one answer: a value of any frame, and what is written around it.
pub const ANSWER: usize = 16640;

// `Wide` is asked here and below: a struct that holds the buffer would be no plainer, with a clause that it holds the same one in each place of this.
pub fn question(out: &mut [u8]) -> usize
    requires { Wide out.old }
    ensures { Answer out.new result (λ t. t ≡ Answer·question) }
{
    append(out, 0, b"?\n")
}

fn number(out: &mut [u8], n: u32) -> usize
    requires { Wide out.old }
    ensures { Answer out.new result (λ t. t ≡ alone n) }
{
    let at = append_number(out, 0, u64::from(n));
    append(out, at, b"\n")
}

// "The session program's `p` and every other caller that relied on replacement must ask for it."
fn put_line(frame: &mut [u8], key: &[u8], value: &[u8], out: &mut [u8]) -> usize
    requires { Wide out.old }
    ensures { Answer out.new result (λ t. Puts edition1 frame.old key.now value.now frame.new t) }
{
    let answer = put_or_replace(frame, key, value, NO_STAMP, Edition::First);
    number(out, answers::number(answer))
}

fn erase_line(frame: &mut [u8], key: &[u8], out: &mut [u8]) -> usize
    requires { Wide out.old }
    ensures { Answer out.new result (λ t. Erases edition1 frame.old key.now frame.new t) }
{
    let answer = erase(frame, key, Edition::First);
    number(out, answers::number(answer))
}

fn get_line(frame: &[u8], key: &[u8], out: &mut [u8]) -> usize
    requires { Wide out.old × (List·length frame.now ≤ 16384) }
    ensures { Answer out.new result (λ t. Gets edition1 frame.now key.now frame.now t) }
{
    let answer = look_up(frame, key, Edition::First);
    let Ok(LookUp::Found(_)) = answer else {
        return number(out, answers::number(answer));
    };
    let at = append(out, 0, b"0 ");
    let end = append(out, at, value(frame, key, Edition::First));
    append(out, end, b"\n")
}

// A space and a number.
fn append_count(out: &mut [u8], at: usize, n: usize) -> usize
    requires { at + 21 ≤ List·length out.old }
    ensures { Appended out.old at (Answer·count n) out.new result × (result ≤ at + 21) }
{
    let at = append(out, at, b" ");
    append_number(out, at, n as u64)
}

fn counts(out: &mut [u8], slots: usize, bytes: usize, records: usize) -> usize
    requires { Wide out.old }
    ensures { Answer out.new result (λ t. t ≡ with_counts slots bytes records) }
{
    let at = append(out, 0, b"0");
    let at = append_count(out, at, slots);
    let at = append_count(out, at, bytes);
    let at = append_count(out, at, records);
    append(out, at, b"\n")
}

fn pack_line(frame: &[u8], packed: &mut [u8], out: &mut [u8]) -> usize
    requires { Wide out.old × (List·length packed.old ≡ List·length frame.now) }
    ensures { Answer out.new result (λ t. Packs edition1 frame.now frame.now t) }
{
    if let Err(refusal) = pack(frame, packed, Edition::First) {
        return number(out, refusal.number());
    }
    let slots = Header::slots_given(packed);
    let bytes = Header::next_byte(packed);
    let records = Header::records(packed);
    counts(out, slots, bytes, records)
}

// Any command but `f`.
fn frame_line(frame: &mut [u8], packed: &mut [u8], command: Command, out: &mut [u8]) -> usize
    requires { Wide out.old × (List·length packed.old ≡ List·length frame.old) × (List·length frame.old ≤ 16384) }
    ensures { Answer out.new result (λ t. Does edition1 frame.old (of_command command.entry) frame.new t) }
{
    match command {
        Command::Format(_, _) => question(out),
        Command::Put(key, value) => put_line(frame, key, value, out),
        Command::Get(key) => get_line(frame, key, out),
        Command::Erase(key) => erase_line(frame, key, out),
        Command::Pack => pack_line(frame, packed, out),
    }
}

// The frame in use is the first `long` bytes of the buffer; there is none before the first `f` that is not refused. `k` packs
// into `packed`.
#[derive(Drop)]
pub struct Frames<'a> {
    pub buffer: &'a mut [u8],
    pub packed: &'a mut [u8],
    pub long: Option<usize>,
    ghost room: { 16384 ≤ List·length buffer.now },
    ghost packing: { 16384 ≤ List·length packed.now },
    ghost fits: { ForSome long (λ n. n ≤ 16384) },
}

impl<'a> Frames<'a> {
    fn format(&mut self, length: usize, capacity: usize, out: &mut [u8]) -> usize
        requires { Wide out.old }
        ensures same_buffer { self.new.buffer.ghost_name ≡ self.old.buffer.ghost_name }
        ensures same_packed { self.new.packed.ghost_name ≡ self.old.packed.ghost_name }
        ensures same_length { List·length self.new.buffer.now ≡ List·length self.old.buffer.now }
        ensures answer { Answer out.new result (λ t. Formats edition1 self.old.buffer.now self.old.long length capacity self.new.buffer.now self.new.long t) }
    {
        if length > MOST_FRAME {
            return number(out, 1);
        }
        let frame = &mut self.buffer[..length];
        if let Err(refusal) = format(frame, length, capacity, Edition::First) {
            return number(out, refusal.number());
        }
        self.long = Some(length);
        number(out, 0)
    }

    fn step(&mut self, line: &[u8], out: &mut [u8]) -> usize
        requires { Wide out.old }
        ensures same_buffer { self.new.buffer.ghost_name ≡ self.old.buffer.ghost_name }
        ensures same_packed { self.new.packed.ghost_name ≡ self.old.packed.ghost_name }
        ensures same_length { List·length self.new.buffer.now ≡ List·length self.old.buffer.now }
        ensures answer { Answer out.new result (λ t. Steps edition1 self.old.buffer.now self.old.long (said line.now) self.new.buffer.now self.new.long t) }
    {
        let Some(command) = parse(line) else {
            return question(out);
        };
        if let Command::Format(length, capacity) = command {
            return self.format(length, capacity, out);
        }
        let Some(long) = self.long else {
            return question(out);
        };
        frame_line(
            &mut self.buffer[..long],
            &mut self.packed[..long],
            command,
            out,
        )
    }

    // The reply to a line as it was gathered.
    pub fn reply(&mut self, line: &Line, out: &mut [u8]) -> usize
        requires { Wide out.old }
        ensures same_buffer { self.new.buffer.ghost_name ≡ self.old.buffer.ghost_name }
        ensures same_packed { self.new.packed.ghost_name ≡ self.old.packed.ghost_name }
        ensures same_length { List·length self.new.buffer.now ≡ List·length self.old.buffer.now }
        ensures answer { Answer out.new result (λ t. ((l : List ℕ) → Held l line.now.held.now (come line.now.have) → Replies edition1 self.old.buffer.now self.old.long l self.new.buffer.now self.new.long t)) }
    {
        let Some(line) = line.bytes() else {
            return question(out);
        };
        self.step(line, out)
    }
}
