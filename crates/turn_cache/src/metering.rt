//! A fragment is put into its set.

ghost use Rattle.std.specs.Prelude.{◌≡◌, ◌≢◌, ℕ, ◌+◌, ◌*◌, ◌<◌, ◌≤◌, ◌++◌, length, [], ◌∷◌, List, IsTrue, true, false};
ghost use Rattle.std.specs.Prelude.{slice_set, slice_index, slice_index_or, None, Some};
ghost use Rattle.flow_key.specs.Key.{set_number};
ghost use Rattle.flow_parts.specs.declared.fragment.Fragment.{Fragment};
ghost use Rattle.flow_parts.specs.Parts.{part_words};
ghost use Rattle.cache_face.specs.Choice as choice;
ghost use Rattle.cache_face.specs.Keeping.{entry_of, IsWhole};
ghost use Rattle.cache_face.specs.Meaning.{IsAnswer};
ghost use Rattle.cache_face.specs.Notes.{note_with};
ghost use Rattle.cache_face.specs.Tries.{HasLost};
ghost use Rattle.cache_face.specs.declared.metered.How.TheVariants.{PassedBy};
ghost use Rattle.cache_choice.specs.Chosen.{out_of};
ghost use Rattle.turn_cache.specs.Hands.{number_of, idle, reading, writing, entries_of};
ghost use Rattle.turn_cache.specs.Moves as moves;
ghost use Rattle.turn_cache.specs.Shown.{means_of, seated_of, lost_of, IsAt, IsTryOf};

use crate::cache::{TurnCache, TurnPass};
use crate::rule::Known;
use atomic_table::Seat;
use cache_choice::{WordChoice, choose_by_words, put_out};
use cache_face::{How, Metered};
use flow_parts::Fragment;

/// Writes the answer of a packet that was put in: what became of it, and the fragment that is put out, where there is
/// one.
#[inline]
fn answer(how: How, old: &[u64; 10], metered: &mut Metered)
    requires whole { IsWhole old.now }
    requires none_out { metered.old.out ≡ None }
    ensures how { metered.new.how ≡ how }
    ensures out { metered.new.out ≡ out_of how (entry_of old.now) }
{
    metered.how = how;
    if how == How::Replaced {
        metered.out = put_out(how, old);
    }
}

impl TurnCache {
    /// Reads the ten words of the set's next entry into `words`.
    fn read_entry(&self, seat: &mut Seat<(), Known>, set: u64, place: usize, words: &mut [u64; 10])
        requires at { seat.old.table_id ≡ self.now.table.shared.table_id }
        requires reading { (seat.old.me.0.turn ≡ reading set) × (length seat.old.me.0.read ≡ 10 * place) }
        requires below { (set < self.now.sets) × (place < 4) }
        ensures at { seat.new.table_id ≡ seat.old.table_id }
        ensures reads { seat.new.me ≡ (moves.more_read words.new seat.old.me.0, seat.old.me.1) }
        ensures long { length words.new ≡ 10 }
        ensures whole { IsWhole words.new }
    {
        for k in 0..10 {
            words[k] = self.load_word(seat, set, 10 * place + k);
        }
    }

    /// Stores those words of an entry that change, behind its first store.
    fn write_rest(
        &self,
        seat: &mut Seat<(), Known>,
        set: u64,
        place: usize,
        old: &[u64; 10],
        new: &[u64; 10],
    )
        requires at { seat.old.table_id ≡ self.now.table.shared.table_id }
        requires writing { seat.old.me.0.turn ≡ writing set place new.now
            (slice_set old.now 5 (slice_index new.now 5)) }
        requires below { (set < self.now.sets) × (place < 4) }
        ensures at { seat.new.table_id ≡ seat.old.table_id }
        ensures written { seat.new.me
            ≡ (moves.at_turn (writing set place new.now new.now) seat.old.me.0, seat.old.me.1) }
    {
        for k in 0..10 {
            if k != 5 {
                self.write_word(seat, set, place, k, (old[k], new[k]));
            }
        }
    }

    /// Stores a word of an entry, where it changes: from the first of two values to the second.
    #[inline]
    fn write_word(
        &self,
        seat: &mut Seat<(), Known>,
        set: u64,
        place: usize,
        k: usize,
        change: (u64, u64),
    )
        requires at { seat.old.table_id ≡ self.now.table.shared.table_id }
        requires writing { (new now : List ℕ) × (seat.old.me.0.turn ≡ writing set place new now)
            × (slice_index now k ≡ change.0) × (slice_index new k ≡ change.1) }
        requires below { (set < self.now.sets) × (place < 4) × (k < 10) }
        ensures at { seat.new.table_id ≡ seat.old.table_id }
        ensures written { (new now : List ℕ) → seat.old.me.0.turn ≡ writing set place new now
            → slice_index now k ≡ change.0
            → seat.new.me
            ≡ (moves.at_turn (writing set place new (slice_set now k change.1)) seat.old.me.0, seat.old.me.1) }
    {
        let (stands, value) = change;
        if value != stands {
            self.store_word(seat, set, place, k, value);
        }
    }

    /// Writes an entry of the set whose turn the seat has, and gives the turn back.
    fn write(
        &self,
        seat: &mut Seat<(), Known>,
        set: u64,
        old: &[u64; 10],
        own: &Fragment,
        chosen: &WordChoice,
    )
        requires at { seat.old.table_id ≡ self.now.table.shared.table_id }
        requires reading { seat.old.me.0.turn ≡ reading set }
        requires below { (set < self.now.sets) × (chosen.now.place < 4) }
        requires read { (before after : List ℕ) × (seat.old.me.0.read ≡ before ++ (old.now ++ after))
            × (length before ≡ 10 * chosen.now.place) }
        requires own { moves.IsOwn seat.old.me.0.note own.now }
        requires of_set { set_number own.now.key self.now.sets ≡ set }
        requires kept { (kept : Fragment) × (part_words kept ≡ chosen.now.words)
            × choice.Takes self.now.timeouts own.now (entry_of old.now)
            (out_of chosen.now.how (entry_of old.now)) kept }
        ensures at { seat.new.table_id ≡ seat.old.table_id }
        ensures filled { seat.new.me
            ≡ (
              moves.filled_hand seat.old.me.0.read chosen.now.place chosen.now.words own.now
                  (out_of chosen.now.how (entry_of old.now)) seat.old.me.0,
              seat.old.me.1,
            ) }
    {
        self.commit(seat, set, old, own, chosen);
        self.write_rest(seat, set, chosen.place, old, &chosen.words);
        self.give(seat, set);
    }

    /// Puts a fragment into the set whose turn the seat has. The words of the set are read into `contents`.
    fn put(
        &self,
        seat: &mut Seat<(), Known>,
        set: u64,
        own: &Fragment,
        contents: &mut [[u64; 10]; 4],
        metered: &mut Metered,
    )
        requires at { seat.old.table_id ≡ self.now.table.shared.table_id }
        requires reading { (seat.old.me.0.turn ≡ reading set) × (seat.old.me.0.read ≡ []) }
        requires below { set < self.now.sets }
        requires own { moves.IsOwn seat.old.me.0.note own.now }
        requires of_set { set_number own.now.key self.now.sets ≡ set }
        requires none_out { metered.old.out ≡ None }
        ensures at { seat.new.table_id ≡ seat.old.table_id }
        ensures filled { (words : List ℕ) × (length words ≡ 40)
            × ((place : ℕ) × (kept : Fragment) × (seat.new.me
            ≡ (
              moves.filled_hand words place (part_words kept) own.now metered.new.out seat.old.me.0,
              seat.old.me.1,
            ))
            × choice.IsChoice self.now.timeouts
            (entries_of words) own.now metered.new.how place metered.new.out kept) }
    {
        self.read_entry(seat, set, 0, &mut contents[0]);
        self.read_entry(seat, set, 1, &mut contents[1]);
        self.read_entry(seat, set, 2, &mut contents[2]);
        self.read_entry(seat, set, 3, &mut contents[3]);
        let choice = choose_by_words(self.timeouts, contents, own);
        let old = &contents[choice.place];
        self.write(seat, set, old, own, &choice);
        answer(choice.how, old, metered);
    }

    /// Tries three times to take the turn of a set. After the third lost try the own fragment is handed out.
    fn take_turn(&self, seat: &mut Seat<(), Known>, number: u64, set: u64, own: &Fragment) -> bool
        requires at { seat.old.table_id ≡ self.now.table.shared.table_id }
        requires idle { (seat.old.me.0.turn ≡ idle) × (0 < length seat.old.me.0.numbers)
            × (number_of seat.old.me.0.numbers ≡ number) }
        requires set { set < self.now.sets }
        requires number { number < 64 }
        requires own { moves.IsOwn seat.old.me.0.note own.now }
        ensures at { seat.new.table_id ≡ seat.old.table_id }
        ensures taken { IsTrue result
            → ((n : ℕ) × (n < 3) × (seat.new.me ≡ (moves.after_tries set n seat.old.me.0, seat.old.me.1))) }
        ensures lost { result ≡ false
            → (seat.new.me ≡ (moves.passed_by set own.now seat.old.me.0, seat.old.me.1))
            × (self.now.seats ≢ 1) }
    {
        if self.take(seat, number, set, own, false) {
            return true;
        }
        if self.take(seat, number, set, own, false) {
            return true;
        }
        self.take(seat, number, set, own, true)
    }

    /// Puts a fragment into its set, or passes it by. The answer begins as that of a packet that is passed by, with
    /// nothing handed out; what is to be otherwise is written.
    #[inline(never)]
    pub(crate) fn put_in(&self, pass: &mut TurnPass, own: &Fragment, metered: &mut Metered)
        requires own { IsAt self.now pass.old }
        requires fragment { moves.IsOwn (seated_of pass.old).note own.now }
        requires passed_by { (metered.old.how ≡ PassedBy) × (metered.old.out ≡ None) }
        ensures own { IsAt self.now pass.new }
        ensures note { (seated_of pass.new).note ≡ note_with (seated_of pass.old).note own.now metered.new.out }
        ensures book { pass.new.book ≡ pass.old.book }
        ensures answer { IsAnswer (means_of self.now) (seated_of pass.new) own.now metered.new.how metered.new.out }
        ensures lost { HasLost (IsTryOf (set_number own.now.key self.now.sets)) metered.new.how (lost_of pass.old)
            (lost_of pass.new) }
    {
        let set = own.key.set_of(self.sets);
        let number = pass.number;
        if self.take_turn(&mut pass.seat, number, set, own) {
            self.put(&mut pass.seat, set, own, &mut pass.contents, metered);
        } else {
            metered.out = Some(*own);
        }
    }
}
