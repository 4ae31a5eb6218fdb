// The editions of the format, and what names one: an edition, or a number, of which 2 is the second and any other the first.
#![tactic(auto)]

ghost use Rattle.std.specs.Prelude.{◌≡◌, ◌≤◌, ℕ};
ghost use Rattle.model.specs.Edition.{Edition as Rules, edition_of};
ghost use Rattle.editions.specs.Rules.{rules_of, longest_key};

#[derive(Clone, Copy, Debug, PartialEq, Eq)]
pub enum Edition {
    First,
    Second,
}

impl From<usize> for Edition {
    ghost from_gives = { λ n e. rules_of e ≡ edition_of n };

    #[tactic(auto, unfolding(model::specs::Edition::edition_of))]
    fn from(number: usize) -> Edition {
        if number == 2 {
            Edition::Second
        } else {
            Edition::First
        }
    }
}

impl Edition {
    // What the first field of its frames holds.
    pub fn number(self) -> usize
        ensures { result ≡ (rules_of self).number }
    {
        match self {
            Edition::First => 1,
            Edition::Second => 2,
        }
    }

    // The most bytes of a key.
    pub fn longest_key(self) -> usize
        ensures value { result ≡ longest_key (rules_of self) }
        ensures most { result ≤ 255 }
    {
        match self {
            Edition::First => 112,
            Edition::Second => 255,
        }
    }

    // The most bytes of a walked string.
    pub fn longest_word(self) -> usize
        ensures value { result ≡ (rules_of self).longest }
        ensures most { result ≤ 512 }
    {
        match self {
            Edition::First => 113,
            Edition::Second => 512,
        }
    }
}

// What names an edition.
pub trait Editioned {
    ghost rules: { Self → Rules };

    fn edition(self) -> Edition
        ensures { rules_of result ≡ rules self };
}

impl Editioned for Edition {
    ghost rules = { rules_of };

    fn edition(self) -> Edition {
        self
    }
}

impl Editioned for usize {
    ghost rules = { edition_of };

    fn edition(self) -> Edition {
        Edition::from(self)
    }
}
