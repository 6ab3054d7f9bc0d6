//! The plain values that a schedule is made of: the shape of a core, the steps of its seats, their
//! answers, and what the calls that read a core answer.

ghost use Rattle.std.specs.Prelude.{◌≡◌};
ghost use Rattle.pebr_core.specs.State.{slots_per_seat, slot_count};
ghost use Rattle.pebr_core.specs.Steps.{epoch_of};
ghost use Rattle.pebr_core.specs.Kept.{IsWithinLimits};

/// The last epoch: no step raises the epoch beyond it.
pub const LAST_EPOCH: u64 = 1 << 60;

/// How large a core is. It has a slot for each root, and `batch + seats * shields` more for each seat.
#[derive(Clone, Copy, PartialEq, Eq, Debug)]
pub struct Shape {
    /// Roots, 1 to 262,144. Each holds one slot.
    pub roots: usize,
    /// Seats, 1 to 64.
    pub seats: usize,
    /// Shields of each seat, 1 to 8.
    pub shields: usize,
    /// Retired slots that a seat holds before it collects, 1 to 1,024.
    pub batch: usize,
    /// Words of each slot, 1 to 16.
    pub width: usize,
}

impl Shape {
    /// How many slots belong to each seat.
    pub fn slots_per_seat(&self) -> usize
        requires { IsWithinLimits self.now }
        ensures { result ≡ slots_per_seat self.now }
    {
        self.batch + self.seats * self.shields
    }

    /// How many slots there are.
    pub fn slot_count(&self) -> usize
        requires { IsWithinLimits self.now }
        ensures { result ≡ slot_count self.now }
    {
        self.roots + self.seats * self.slots_per_seat()
    }
}

/// One atomic step. The first number is the seat that steps; seats, roots, shields, slots and words
/// are counted from 0. A step with a number out of range isn't enabled.
#[derive(Clone, Copy, PartialEq, Eq, Debug)]
pub enum Step {
    /// Reads the epoch, tags the seat's untagged retired slots with it, and opens a scan with all its
    /// retired slots as candidates. Enabled where the seat is out. Answers `Epoch`.
    Note(usize),
    /// Announces the noted epoch: the seat is in, has seen no slot, and is at no scan. Enabled where
    /// it is out. Answers `In`.
    Pin(usize),
    /// Takes the announcement back: the seat is out, and has seen no slot. Enabled where it isn't out.
    /// Answers `Out`.
    Leave(usize),
    /// Raises the epoch by one, where it is still the noted one. Enabled where the noted epoch is below
    /// [`LAST_EPOCH`]. Answers `Epoch` with the new epoch, or `Lost`.
    Advance(usize),
    /// Looks at the status of another seat. A seat that is out or ejected, or in with an epoch above
    /// each candidate's tag, is passed. Enabled where the seat scans and the other isn't passed yet.
    /// Answers `Passed`, or `In` with the epoch found.
    Look(usize, usize),
    /// Ejects another seat that is still in with the epoch found, and passes it in any case. Enabled
    /// where the other was looked at and isn't passed yet. Answers `Ejected` or `Lost`.
    Eject(usize, usize),
    /// Loads a root, the second number: its slot is seen. Enabled where the seat isn't out. Answers
    /// `Slot`.
    Load(usize, usize),
    /// Sets a shield, the second number, on a slot, the third. Enabled where the seat isn't out and
    /// has seen the slot. Answers `Set`.
    Shield(usize, usize, usize),
    /// Where the seat is in, each of its shields that is set on a slot that it has seen becomes valid.
    /// Enabled where it isn't out. Answers `Valid`, or `Ejected` where the seat was ejected.
    Check(usize),
    /// Takes a shield down. Always enabled. Answers `Cleared`.
    Unshield(usize, usize),
    /// Reads a word, the third number, of a slot. Enabled where a shield of the seat is valid on the
    /// slot. Answers `Word`.
    Read(usize, usize, usize),
    /// Writes a value, the last number, into a word of a slot. Enabled where the slot is fresh at the
    /// seat. Answers `Written`.
    Write(usize, usize, usize, u64),
    /// Puts a fresh slot, the last number, into a root, the second, where that has the slot of the third
    /// number; this old slot is then retired. Enabled where the seat isn't out, one of its shields is
    /// valid on the old slot, and the new one is fresh at it. Answers `Replaced` or `Other`.
    Replace(usize, usize, usize, usize),
    /// Reads a shield, the third number, of another seat: a candidate that it stands on is kept.
    /// Enabled where the seat scans, the other is passed, and this shield isn't read yet. Answers
    /// `Holds` with the slot, or `Empty`.
    Scan(usize, usize, usize),
    /// Makes fresh each candidate that isn't kept, notes the epoch, and ends the scan. Enabled where
    /// the scan has passed each other seat and read all its shields, and all shields of the seat are
    /// down. Answers `Given`.
    Give(usize),
}

/// What a step answers.
#[derive(Clone, Copy, PartialEq, Eq, Debug)]
pub enum Answer {
    /// The epoch, read or new.
    Epoch(u64),
    /// In, with this epoch.
    In(u64),
    /// Out.
    Out,
    /// Another seat changed the word first.
    Lost,
    /// The seat looked at is passed: its pin lets it use no candidate.
    Passed,
    /// The seat is ejected.
    Ejected,
    /// The slot of a root.
    Slot(usize),
    /// The shield is set.
    Set,
    /// The shields are valid.
    Valid,
    /// The shield is down.
    Cleared,
    /// The word read.
    Word(u64),
    /// The word is written.
    Written,
    /// The root has the fresh slot now.
    Replaced,
    /// The root had another slot.
    Other,
    /// The shield read was down.
    Empty,
    /// The shield read stood on this slot.
    Holds(usize),
    /// How many slots were given, and how many are still retired.
    Given(usize, usize),
}

/// A step that its condition doesn't allow.
#[derive(Clone, Copy, PartialEq, Eq, Debug)]
pub struct NotEnabled;

/// The status of a seat.
#[derive(Clone, Copy, PartialEq, Eq, Debug)]
pub enum Stance {
    /// Not reading.
    Out,
    /// Reading since this epoch.
    In(u64),
    /// Ejected by another seat, while it was in with this epoch.
    Ejected(u64),
}

impl Stance {
    /// The epoch, 0 for Out.
    pub(crate) fn epoch(self) -> u64
        ensures { result ≡ epoch_of self }
    {
        match self {
            Stance::Out => 0,
            Stance::In(epoch) | Stance::Ejected(epoch) => epoch,
        }
    }
}

/// Whether a seat retired a slot.
#[derive(Clone, Copy, PartialEq, Eq, Debug)]
pub enum Retired {
    /// The seat doesn't hold the slot as retired.
    No,
    /// Retired since the seat's last Note.
    Untagged,
    /// Retired, and tagged with the epoch of the first Note after it.
    Tagged(u64),
}

/// What a shield stands on.
#[derive(Clone, Copy, PartialEq, Eq, Debug)]
pub enum ShieldAt {
    /// Nothing.
    Down,
    /// A slot that it doesn't protect yet.
    Set(usize),
    /// A slot that it protects.
    Valid(usize),
}
