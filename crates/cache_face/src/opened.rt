//! Which caches were opened.

ghost use Rattle.std.specs.Prelude.{◌≡◌};
ghost use Rattle.cache_face.specs.Openings.{opened_with};

/// Which caches were opened so far.
#[derive(Clone, Copy, PartialEq, Eq, Debug)]
pub enum Opened {
    /// None yet.
    Nothing,
    /// One, of so many sets and seats.
    One { sets: u64, seats: usize },
    /// More than one.
    Several,
}

impl Opened {
    /// Those, and one more of so many sets and seats.
    pub fn with(self, sets: u64, seats: usize) -> Opened
        ensures { result ≡ opened_with self sets seats }
    {
        match self {
            Opened::Nothing => Opened::One { sets, seats },
            Opened::One { .. } => Opened::Several,
            Opened::Several => Opened::Several,
        }
    }
}
