// What the exact check counts on its way: bodies and extents claim their units of the map, each once, and the lists of freed slots are
// followed. Each function tells its witness, or that no good frame has one (specs/Told.antt). The map, the bounds and the counts pass side by side:
// counts come out in an Option, none after a refusal, where a struct of all three would still hold some.
#![tactic(auto)]

pub mod freed;
pub mod take;

ghost use Rattle.std.specs.Prelude.{◌+◌, ◌*◌, ◌≤◌};

// What has been counted so far. A part that refuses gives none.
#[derive(Clone, Copy, Debug, PartialEq, Eq)]
pub struct Sums {
    // bodies, live and freed
    pub slots: usize,
    // sizes of the bodies and of the live extents
    pub bytes: usize,
    // live extents
    pub leaves: usize,
}

// What the header says of the frame that is counted: data begins behind the table of slots, and ends where B is.
#[derive(Clone, Copy, Debug, PartialEq, Eq)]
pub struct Bounds {
    // D, where data starts
    pub start: usize,
    // U, the slots ever given out
    pub given: usize,
    // B, the first byte never yet given out
    pub next: usize,
    ghost table: { 64 + 4 * given ≤ start },
    ghost order: { start ≤ next },
    ghost size: { next ≤ 524288 },
}
