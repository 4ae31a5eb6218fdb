// Whether there is room: the room state carries an array of free counts, needs are an array by kind (place 0 of both is no kind's), and they
// are compared before anything is written.
ghost use Rattle.std.specs.Prelude.{◌≡◌, true, List, [], ◌∷◌, ℕ};
ghost use Rattle.layout.specs.Kind.{number_of};
ghost use Rattle.room.specs.Fit.{Fit, Small, Asks};

use layout::kind::Kind;

#[derive(Clone, Copy, Debug, PartialEq, Eq)]
pub struct Room {
    // bodies on each kind's list
    pub free: [usize; Kind::TABLE],
    // N - U
    pub slots: usize,
    // F - B
    pub bytes: usize,
}

#[derive(Clone, Copy, Debug, PartialEq, Eq)]
pub struct Needs {
    // bodies of each kind
    pub bodies: [usize; Kind::TABLE],
    // bytes of the extent
    pub extent: usize,
}

impl Needs {
    pub fn none() -> Needs
        ensures { Asks result [] 0 }
    {
        Needs {
            bodies: [0; Kind::TABLE],
            extent: 0,
        }
    }

    // One more body of a kind.
    pub fn with(self, kind: Kind) -> Needs
        requires { Small self }
        ensures { (takes : List ℕ) (x : ℕ) → Asks self takes x → Asks result (number_of kind ∷ takes) x }
    {
        let mut next = self;
        next.bodies[kind.number()] += 1;
        next
    }

    // An extent of n bytes.
    pub fn with_extent(self, n: usize) -> Needs
        ensures { (takes : List ℕ) (x : ℕ) → Asks self takes x → Asks result takes n }
    {
        Needs { extent: n, ..self }
    }
}

pub fn fits(room: Room, needs: Needs) -> bool
    requires { Small needs }
    ensures { (result ≡ true → Fit room needs) × (Fit room needs → result ≡ true) }
{
    let mut slots = needs.bodies[0].saturating_sub(room.free[0]);
    let mut bytes = 0;
    for k in 1..Kind::TABLE {
        let fresh = needs.bodies[k].saturating_sub(room.free[k]);
        slots += fresh;
        bytes += fresh * Kind::known(k).body_size();
    }
    slots <= room.slots && bytes + needs.extent <= room.bytes
}
