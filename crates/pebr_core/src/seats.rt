//! What a core keeps of each seat.

ghost use Rattle.std.specs.Prelude.{◌≡◌, true, false, [], ◌&&◌, ◌||◌, ◌==◌, map, length, count_by, is_some};
ghost use Rattle.std.specs.Prelude.{if◌then◌else◌};
ghost use Rattle.std.specs.List.{list_any, list_all};
ghost use Rattle.pebr_core.specs.State.{has, scan_of, has_scanned, is_retired, is_valid_on, is_down};
ghost use Rattle.pebr_core.specs.Steps.{can_pass, epoch_of, is_in_at, check_answer, validated_shield, each_below};
ghost use Rattle.pebr_core.specs.Steps.{is_complete};
ghost use Rattle.pebr_core.specs.Marks.{given_marks};

use crate::kinds::{Answer, Retired, Shape, ShieldAt, Stance};
use crate::retired::RetiredSlots;
use crate::row::{Grid, Row};

/// Room for one scan. Its candidates are the seat's retired slots.
#[derive(Debug, Drop)]
pub struct ScanData {
    /// Whether the seat is at a scan.
    pub is_open: bool,
    /// For each seat, the epoch that it was last found in with.
    pub looked: Row<Option<u64>>,
    /// The seats whose pins can't be in the way.
    pub passed: Row<bool>,
    /// For each seat, its shields that were read.
    pub scanned: Grid<bool>,
    /// The candidates that a shield was found on.
    pub kept: Row<bool>,
}

/// One seat.
#[derive(Debug, Drop)]
pub struct SeatData {
    /// Out, in or ejected.
    pub status: Stance,
    /// The epoch that it noted last.
    pub noted: u64,
    /// The slots that it loaded since its pin.
    pub seen: Row<bool>,
    /// Its shields.
    pub shields: Row<ShieldAt>,
    /// The slots that it may write.
    pub fresh: Row<bool>,
    /// The slots that it retired.
    pub retired: RetiredSlots,
    /// The scan that it is at.
    pub scan: ScanData,
}

impl ScanData {
    ghost use Rattle.pebr_core.specs.Entries.{reopened_scan};

    /// Opens a scan that has looked at nobody.
    fn reopen(&mut self)
        ensures { self.new ≡ reopened_scan self.old }
    {
        self.is_open = true;
        self.looked.fill(None);
        self.passed.fill(false);
        self.scanned.fill(false);
        self.kept.fill(false);
    }
}

impl ScanData {
    ghost use Rattle.pebr_core.specs.Shown.{scan_parts};

    /// Whether all shields of a seat were read.
    fn has_read_shields(&self, other: usize, shields: usize) -> bool
        ensures { result ≡ each_below shields (λ place. has_scanned (scan_parts [] self.now) other place) }
    {
        for place in 0..shields {
            if !self.scanned.get(other, place, false) {
                return false;
            }
        }
        true
    }

    /// Whether a seat is the scanning one, or it is passed and all its shields were read.
    fn is_done_with(&self, other: usize, shields: usize, seat: usize) -> bool
        ensures { result ≡ ((other == seat)
            || (has self.now.passed other && each_below shields
            (λ place. has_scanned (scan_parts [] self.now) other place))) }
    {
        other == seat || (self.passed.get(other, false) && self.has_read_shields(other, shields))
    }

    /// Whether each other seat is passed and all its shields were read.
    pub fn is_complete(&self, shape: &Shape, seat: usize) -> bool
        ensures { result ≡ is_complete shape.now seat (scan_parts [] self.now) }
    {
        for other in 0..shape.seats {
            if !self.is_done_with(other, shape.shields, seat) {
                return false;
            }
        }
        true
    }
}

impl SeatData {
    ghost use Rattle.pebr_core.specs.Shown.{shown_seat};
    ghost use Rattle.pebr_core.specs.Entries.{noted_entry, pinned_entry, left_entry, can_pass_entry, looking_entry};
    ghost use Rattle.pebr_core.specs.Entries.{ejected_entry, passing_entry, loaded_entry, shielded_entry};
    ghost use Rattle.pebr_core.specs.Entries.{checked_entry, replaced_entry, scanned_entry, given_entry};

    /// Notes the epoch, tags with it the retired slots that have no tag, and opens a scan.
    pub fn note(&mut self, epoch: u64)
        ensures { self.new ≡ noted_entry epoch self.old }
    {
        self.noted = epoch;
        self.retired.tag(epoch);
        self.scan.reopen();
    }

    /// Announces the noted epoch.
    pub fn pin(&mut self)
        ensures { self.new ≡ pinned_entry self.old }
    {
        self.status = Stance::In(self.noted);
        self.seen.fill(false); // nothing is loaded yet
        self.scan.is_open = false;
    }

    /// Takes the announcement back.
    pub fn leave(&mut self)
        ensures { self.new ≡ left_entry self.old }
    {
        self.status = Stance::Out;
        self.seen.fill(false);
    }

    /// Whether the pin of a seat with this status lets it use none of this seat's retired slots.
    fn can_pass(&self, status: Stance) -> bool
        ensures { result ≡ can_pass_entry self.now status }
    {
        match status {
            Stance::Out | Stance::Ejected(_) => true,
            Stance::In(epoch) => self.retired.are_below(epoch),
        }
    }

    /// Records what another seat's status showed.
    pub fn look(&mut self, other: usize, status: Stance) -> Answer
        ensures answer { result ≡ (if can_pass_entry self.old status then Answer.Passed
            else Answer.In (epoch_of status)) }
        ensures entry { self.new ≡ looking_entry other status self.old }
    {
        if self.can_pass(status) {
            self.scan.passed.set(other, true);
            return Answer::Passed;
        }
        let epoch = status.epoch();
        self.scan.looked.set(other, Some(epoch));
        Answer::In(epoch)
    }

    /// Ejects the seat, where it is still in with the epoch that it was found with. Whether it was.
    pub fn eject(&mut self, found: u64) -> bool
        ensures answer { result ≡ is_in_at found self.old.status }
        ensures entry { self.new ≡ ejected_entry found self.old }
    {
        if let Stance::In(epoch) = self.status {
            if epoch == found {
                self.status = Stance::Ejected(found);
                return true;
            }
        }
        false
    }

    /// The scan passes another seat.
    pub fn pass(&mut self, other: usize)
        ensures { self.new ≡ passing_entry other self.old }
    {
        self.scan.passed.set(other, true);
    }

    /// Records that a slot was loaded.
    pub fn load(&mut self, slot: usize)
        ensures { self.new ≡ loaded_entry slot self.old }
    {
        self.seen.set(slot, true);
    }

    /// Sets what a shield stands on.
    pub fn put_shield(&mut self, place: usize, at: ShieldAt)
        ensures { self.new ≡ shielded_entry place at self.old }
    {
        self.shields.set(place, at);
    }

    /// Makes the shields on loaded slots valid, where the seat is in.
    pub fn check(&mut self) -> Answer
        ensures answer { result ≡ check_answer self.old.status }
        ensures entry { self.new ≡ checked_entry self.old }
    {
        match self.status {
            Stance::Out | Stance::Ejected(_) => Answer::Ejected,
            Stance::In(_) => {
                validate(&mut self.shields, &self.seen);
                Answer::Valid
            }
        }
    }

    /// Whether a shield is valid on the slot.
    pub fn is_shielded(&self, slot: usize) -> bool
        ensures { result ≡ list_any (is_valid_on slot) self.now.shields }
    {
        for place in 0..self.shields.len() {
            if is_valid_on(self.shields.get(place, ShieldAt::Down), slot) {
                return true;
            }
        }
        false
    }

    /// Whether all shields are down.
    pub fn are_down(&self) -> bool
        ensures { result ≡ list_all is_down self.now.shields }
    {
        for place in 0..self.shields.len() {
            if !is_down(self.shields.get(place, ShieldAt::Down)) {
                return false;
            }
        }
        true
    }

    /// Retires a slot, and gives up a fresh one.
    pub fn replace(&mut self, old: usize, new: usize)
        ensures { self.new ≡ replaced_entry old new self.old }
    {
        self.fresh.set(new, false);
        self.retired.put(old, Retired::Untagged);
    }

    /// Records what a shield of another seat stood on: a slot that is retired is kept.
    pub fn scan(&mut self, other: usize, place: usize, slot: Option<usize>)
        ensures { self.new ≡ scanned_entry other place slot self.old }
    {
        self.scan.scanned.set(other, place, true);
        if let Some(slot) = slot {
            if !matches!(self.retired.at(slot), Retired::No) {
                self.scan.kept.set(slot, true);
            }
        }
    }

    /// Whether the seat's scan is done with each other seat, and the seat's own shields are down.
    #[tactic(auto, using(crate::proofs::EntrySteps::can_give_shown))]
    pub fn can_give(&self, shape: &Shape, seat: usize) -> bool
        ensures { result ≡ (is_some (shown_seat self.now).scan
            && is_complete shape.now seat (scan_of (shown_seat self.now)) && list_all is_down self.now.shields) }
    {
        let is_complete = self.scan.is_complete(shape, seat);
        let are_down = self.are_down();
        self.scan.is_open && is_complete && are_down
    }

    /// Makes fresh the retired slots that aren't kept, notes the epoch, and ends the scan.
    pub fn give(&mut self, epoch: u64) -> Answer
        requires { length self.old.fresh ≡ length self.old.retired }
        ensures answer { result ≡ Answer.Given
            (count_by (λ mark. mark) (given_marks self.old.retired self.old.scan.kept))
            (count_by is_retired self.new.retired) }
        ensures entry { self.new ≡ given_entry epoch self.old }
    {
        let given = self.retired.count_outside(&self.scan.kept);
        self.retired.add_outside(&self.scan.kept, &mut self.fresh);
        self.retired.release(&self.scan.kept);
        self.noted = epoch;
        self.scan.is_open = false;
        Answer::Given(given, self.retired.count())
    }
}

/// The shield after a check of a seat that has seen these slots.
fn validated_shield(at: ShieldAt, seen: &Row<bool>) -> ShieldAt
    ensures { result ≡ validated_shield seen.now at }
{
    match at {
        ShieldAt::Set(slot) if seen.get(slot, false) => ShieldAt::Valid(slot),
        ShieldAt::Set(slot) => ShieldAt::Set(slot),
        ShieldAt::Down => ShieldAt::Down,
        ShieldAt::Valid(slot) => ShieldAt::Valid(slot),
    }
}

/// Makes valid the shields that are set on slots of this set.
fn validate(shields: &mut Row<ShieldAt>, seen: &Row<bool>)
    ensures { shields.new ≡ map (validated_shield seen.now) shields.old }
{
    for place in 0..shields.len() {
        let at = validated_shield(shields.get(place, ShieldAt::Down), seen);
        shields.set(place, at);
    }
}

/// Whether a shield is valid on a slot.
fn is_valid_on(at: ShieldAt, slot: usize) -> bool
    ensures { result ≡ is_valid_on slot at }
{
    match at {
        ShieldAt::Valid(other) => other == slot,
        ShieldAt::Down | ShieldAt::Set(_) => false,
    }
}

/// Whether a shield stands on no slot.
fn is_down(at: ShieldAt) -> bool
    ensures { result ≡ is_down at }
{
    matches!(at, ShieldAt::Down)
}
