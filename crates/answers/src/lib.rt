// What the public calls answer: a refusal, or what they did; and document 01's number for each.
#![tactic(auto)]

ghost use Rattle.std.specs.Prelude.{◌≡◌, ℕ};
ghost use Rattle.answers.specs.Number.{refusal_number, number_of, written_number, erased_number, looked_number};

// "1 to 7 are refusals"
#[derive(Clone, Copy, Debug, PartialEq, Eq)]
pub enum Refusal {
    // 1: F or N against the limits, or the slice length
    Length,
    // 2: not a good frame
    Frame,
    // 3: key length 0 or above 112
    KeyLength,
    // 4: key holds a byte 0
    KeyZero,
    // 5: value above 65,535 bytes
    ValueLength,
    // 7: the output of pack, or the second frame of a batch, is not F long
    Output,
    // 6: no room
    Room,
    // 10: listing: the buffer is too small for the first key
    Buffer,
    // 12: a batch that is not laid out as one
    Batch,
}

// Of a call that puts a new record, replaces one, or does whichever it is.
#[derive(Clone, Copy, Debug, PartialEq, Eq)]
pub enum Written {
    New,
    Replaced,
    // the key is there, and nothing was changed
    Present,
    // the key is not there, and nothing was changed
    Absent,
}

#[derive(Clone, Copy, Debug, PartialEq, Eq)]
pub enum Erased {
    Done,
    Absent,
}

// Where the value of a key stands.
#[derive(Clone, Copy, Debug, PartialEq, Eq)]
pub struct Found {
    // counted from the frame's start
    pub place: usize,
    // of the value
    pub length: usize,
    // the slots visited
    pub slots: usize,
    pub stamp: usize,
}

#[derive(Clone, Copy, Debug, PartialEq, Eq)]
pub enum LookUp {
    Found(Found),
    // the slots visited
    Absent { slots: usize },
}

// Of a listing.
#[derive(Clone, Copy, Debug, PartialEq, Eq)]
pub struct Page {
    // the entries
    pub count: usize,
    // more remain
    pub more: bool,
}

// How full a frame is: the numbers of its header, and how many freed bodies of each kind its lists hold.
#[derive(Clone, Copy, Debug, PartialEq, Eq)]
pub struct Counts {
    // F
    pub frame_length: usize,
    // N
    pub slot_capacity: usize,
    // U, the slots ever given out
    pub slots_given: usize,
    // B, the first byte never yet given out
    pub next_byte: usize,
    // R
    pub records: usize,
    // X, the bytes of dead extents
    pub dead_bytes: usize,
    // the lists 1 to 8
    pub leaf: usize,
    pub prefix: usize,
    pub crossing: usize,
    pub node4: usize,
    pub node16: usize,
    pub node48: usize,
    pub node256: usize,
    pub empty_root: usize,
}

// ---- numbers

impl Refusal {
    pub fn number(self) -> u32
        ensures { result ≡ refusal_number self }
    {
        match self {
            Refusal::Length => 1,
            Refusal::Frame => 2,
            Refusal::KeyLength => 3,
            Refusal::KeyZero => 4,
            Refusal::ValueLength => 5,
            Refusal::Output => 7,
            Refusal::Room => 6,
            Refusal::Buffer => 10,
            Refusal::Batch => 12,
        }
    }
}

// What a call answers that is not refused.
pub trait Numbered: Copy {
    ghost number: { Self → ℕ };

    fn number(self) -> u32
        ensures { result ≡ number self };
}

impl Numbered for () {
    ghost number = { λ _. 0 };

    fn number(self) -> u32 {
        0
    }
}

impl Numbered for Written {
    ghost number = { written_number };

    fn number(self) -> u32 {
        match self {
            Written::New => 0,
            Written::Replaced => 9,
            Written::Present => 11,
            Written::Absent => 8,
        }
    }
}

impl Numbered for Erased {
    ghost number = { erased_number };

    fn number(self) -> u32 {
        match self {
            Erased::Done => 0,
            Erased::Absent => 8,
        }
    }
}

impl Numbered for LookUp {
    ghost number = { looked_number };

    fn number(self) -> u32 {
        match self {
            LookUp::Found(_) => 0,
            LookUp::Absent { .. } => 8,
        }
    }
}

impl Numbered for Page {
    ghost number = { λ _. 0 };

    fn number(self) -> u32 {
        0
    }
}

impl Numbered for Counts {
    ghost number = { λ _. 0 };

    fn number(self) -> u32 {
        0
    }
}

// Of any call, refused or not.
pub fn number<T: Numbered>(answer: Result<T, Refusal>) -> u32
    ensures { result ≡ number_of T.number answer }
{
    match answer {
        Ok(done) => done.number(),
        Err(refusal) => refusal.number(),
    }
}
