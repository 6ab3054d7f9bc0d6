//! The five kinds of step on a word.

ghost use Rattle.std.specs.Prelude.{◌≡◌, ◌≢◌, ℕ, ◌+◌, ◌*◌, ◌<◌, ◌≤◌, ◌++◌, length, [], ◌∷◌, List, IsTrue, true, false};
ghost use Rattle.std.specs.Prelude.{slice_set, slice_index};
ghost use Rattle.flow_key.specs.Key.{set_number};
ghost use Rattle.flow_parts.specs.declared.fragment.Fragment.{Fragment};
ghost use Rattle.flow_parts.specs.Parts.{part_words};
ghost use Rattle.cache_face.specs.Choice as choice;
ghost use Rattle.cache_face.specs.Keeping.{entry_of};
ghost use Rattle.cache_choice.specs.Chosen.{out_of};
ghost use Rattle.turn_cache.specs.Hands.{number_of, idle, reading, writing};
ghost use Rattle.turn_cache.specs.Moves as moves;

use crate::cache::TurnCache;
use crate::rule::{Commits, Gives, IsMove, Known, Loads, Stores, Takes};
use atomic_table::Seat;
use cache_choice::WordChoice;
use flow_parts::Fragment;
use std::marker::Brand;

impl TurnCache {
    /// Tries to take the turn of a set, in the table's rule that `M` and `K` name. It answers what the turn word had.
    fn take_as<M: IsMove>(
        &self,
        seat: &mut Seat<(), Known>,
        number: u64,
        set: u64,
        _own: &Fragment,
        _last: bool,
    ) -> u64
        requires about { M.about ≡ moves.move_of_try self.now.seats set _own.now _last }
        requires at { seat.old.table_id ≡ self.now.table.shared.table_id }
        requires idle { (seat.old.me.0.turn ≡ idle) × (0 < length seat.old.me.0.numbers)
            × (number_of seat.old.me.0.numbers ≡ number) }
        requires set { set < self.now.sets }
        requires number { number < 64 }
        requires own { moves.IsOwn seat.old.me.0.note _own.now }
        ensures at { seat.new.table_id ≡ seat.old.table_id }
        ensures tells { moves.Tells (moves.move_of_try self.now.seats set _own.now _last) seat.old.me result
            seat.new.me }
    {
        let word = 64 * set as usize;
        self.table
            .shared
            .compare_exchange::<Takes<M>>(seat, word, 0, number + 1)
    }

    /// Tries to take the turn of a set. Where another seat has it the try is lost, and where it is the last, the own
    /// fragment is handed out.
    pub(crate) fn take(
        &self,
        seat: &mut Seat<(), Known>,
        number: u64,
        set: u64,
        own: &Fragment,
        last: bool,
    ) -> bool
        requires at { seat.old.table_id ≡ self.now.table.shared.table_id }
        requires idle { (seat.old.me.0.turn ≡ idle) × (0 < length seat.old.me.0.numbers)
            × (number_of seat.old.me.0.numbers ≡ number) }
        requires set { set < self.now.sets }
        requires number { number < 64 }
        requires own { moves.IsOwn seat.old.me.0.note own.now }
        ensures at { seat.new.table_id ≡ seat.old.table_id }
        ensures taken { IsTrue result → seat.new.me ≡ (moves.hand_taking set seat.old.me.0, seat.old.me.1) }
        ensures lost { result ≡ false
            → (seat.new.me
            ≡ (
              moves.hand_losing (moves.move_of_try self.now.seats set own.now last) seat.old.me.0,
              seat.old.me.1,
            ))
            × (self.now.seats ≢ 1) }
    {
        self.take_as::<Brand>(seat, number, set, own, last) == 0
    }

    /// Loads the next content word of the set.
    pub(crate) fn load_word(&self, seat: &mut Seat<(), Known>, set: u64, k: usize) -> u64
        requires at { seat.old.table_id ≡ self.now.table.shared.table_id }
        requires reading { (seat.old.me.0.turn ≡ reading set) × (length seat.old.me.0.read ≡ k) }
        requires below { (set < self.now.sets) × (k < 40) }
        ensures at { seat.new.table_id ≡ seat.old.table_id }
        ensures loads { moves.Loads seat.old.me result seat.new.me }
    {
        let word = 64 * set as usize + 16 + k;
        self.table.shared.load::<Loads>(seat, word)
    }

    /// Stores the number of packets of an entry, the step by which its packet counts as metered, in the table's rule
    /// that `M` and `K` name.
    fn commit_as<M: IsMove>(
        &self,
        seat: &mut Seat<(), Known>,
        set: u64,
        _old: &[u64; 10],
        _own: &Fragment,
        chosen: &WordChoice,
    )
        requires about { M.about ≡ moves.writes_to set chosen.now.place _own.now
            (out_of chosen.now.how (entry_of _old.now)) _old.now chosen.now.words }
        requires at { seat.old.table_id ≡ self.now.table.shared.table_id }
        requires reading { seat.old.me.0.turn ≡ reading set }
        requires below { (set < self.now.sets) × (chosen.now.place < 4) }
        requires read { (before after : List ℕ) × (seat.old.me.0.read ≡ before ++ (_old.now ++ after))
            × (length before ≡ 10 * chosen.now.place) }
        requires own { moves.IsOwn seat.old.me.0.note _own.now }
        requires of_set { set_number _own.now.key self.now.sets ≡ set }
        requires kept { (kept : Fragment) × (part_words kept ≡ chosen.now.words)
            × choice.Takes self.now.timeouts _own.now (entry_of _old.now)
            (out_of chosen.now.how (entry_of _old.now)) kept }
        ensures at { seat.new.table_id ≡ seat.old.table_id }
        ensures commits { moves.Commits
            (moves.writes_to set chosen.now.place _own.now (out_of chosen.now.how (entry_of _old.now)) _old.now
            chosen.now.words) seat.old.me
            seat.new.me }
    {
        let word = 64 * set as usize + 16 + (10 * chosen.place + 5);
        self.table
            .shared
            .store::<Commits<M>>(seat, word, chosen.words[5]);
    }

    /// Stores the first word of an entry, its number of packets. From here on the set has its new entry.
    pub(crate) fn commit(
        &self,
        seat: &mut Seat<(), Known>,
        set: u64,
        old: &[u64; 10],
        own: &Fragment,
        chosen: &WordChoice,
    )
        requires at { seat.old.table_id ≡ self.now.table.shared.table_id }
        requires reading { seat.old.me.0.turn ≡ reading set }
        requires below { (set < self.now.sets) × (chosen.now.place < 4) }
        requires read { (before after : List ℕ) × (seat.old.me.0.read ≡ before ++ (old.now ++ after))
            × (length before ≡ 10 * chosen.now.place) }
        requires own { moves.IsOwn seat.old.me.0.note own.now }
        requires of_set { set_number own.now.key self.now.sets ≡ set }
        requires kept { (kept : Fragment) × (part_words kept ≡ chosen.now.words)
            × choice.Takes self.now.timeouts own.now (entry_of old.now)
            (out_of chosen.now.how (entry_of old.now)) kept }
        ensures at { seat.new.table_id ≡ seat.old.table_id }
        ensures commits { moves.Commits
            (moves.writes_to set chosen.now.place own.now (out_of chosen.now.how (entry_of old.now)) old.now
            chosen.now.words) seat.old.me
            seat.new.me }
    {
        self.commit_as::<Brand>(seat, set, old, own, chosen);
    }

    /// Stores a further word of the entry.
    pub(crate) fn store_word(
        &self,
        seat: &mut Seat<(), Known>,
        set: u64,
        place: usize,
        k: usize,
        value: u64,
    )
        requires at { seat.old.table_id ≡ self.now.table.shared.table_id }
        requires writing { (new now : List ℕ) × (seat.old.me.0.turn ≡ writing set place new now)
            × (slice_index new k ≡ value) }
        requires below { (set < self.now.sets) × (place < 4) × (k < 10) }
        ensures at { seat.new.table_id ≡ seat.old.table_id }
        ensures stores { (new now : List ℕ) → seat.old.me.0.turn ≡ writing set place new now
            → seat.new.me
            ≡ (moves.at_turn (writing set place new (slice_set now k value)) seat.old.me.0, seat.old.me.1) }
    {
        let word = 64 * set as usize + 16 + (10 * place + k);
        self.table.shared.store::<Stores>(seat, word, value);
    }

    /// Gives the turn back.
    pub(crate) fn give(&self, seat: &mut Seat<(), Known>, set: u64)
        requires at { seat.old.table_id ≡ self.now.table.shared.table_id }
        requires written { (place : ℕ) × (new : List ℕ) × (seat.old.me.0.turn ≡ writing set place new new) }
        requires below { set < self.now.sets }
        ensures at { seat.new.table_id ≡ seat.old.table_id }
        ensures gives { seat.new.me ≡ (moves.at_turn idle seat.old.me.0, seat.old.me.1) }
    {
        let word = 64 * set as usize;
        self.table.shared.store::<Gives>(seat, word, 0);
    }
}
