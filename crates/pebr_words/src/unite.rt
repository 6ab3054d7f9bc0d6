//! Two seats made one.

ghost use Rattle.std.specs.Prelude.{◌≡◌, ◌++◌, ◌+◌, true, IsTrue, None};
ghost use Rattle.pebr_core.specs.State.{is_out};
ghost use Rattle.pebr_words.specs.Seats.{IsAt, IsUnited, known_of, number_of, numbers_of, count_of, note_of, past_of};
ghost use Rattle.pebr_words.specs.Seats.{lost_of, ejections_of, operations_of};

use crate::protocol::RootProtocol;
use crate::rule::Unites;
use crate::words::{Seat, Words};

impl<P: RootProtocol> Words<P> {
    /// One seat with all numbers of both and the merged note. It acts as the first.
    ///
    /// Nobody acts as the second afterwards, so its slots are given up, an open scan of it with them. A shield of it
    /// that is up stays up: the slot under it is never given, which is safe, and within the bound of a collection.
    pub fn unite(&self, first: Seat<P>, second: Seat<P>) -> Seat<P>
        requires at { IsAt self.now first × IsAt self.now second }
        requires out { IsTrue (is_out (known_of first).status) × IsTrue (is_out (known_of second).status) }
        ensures at { IsAt self.now result × (number_of result ≡ number_of first) }
        ensures count { count_of result ≡ count_of first + count_of second }
        ensures numbers { numbers_of result ≡ numbers_of first ++ numbers_of second }
        ensures known { known_of result ≡ known_of first }
        ensures note { note_of P.first result ≡ P.merged (note_of P.first first) (note_of P.first second) }
        ensures past { past_of result ≡ past_of first }
        ensures operations { operations_of result ≡ operations_of first }
        ensures lost { lost_of result ≡ lost_of first ++ lost_of second }
        ensures ejections { ejections_of result ≡ ejections_of first ++ ejections_of second }
        ensures united { IsUnited P.empty first → IsUnited P.empty second → IsUnited P.empty result }
    {
        let Seat {
            mut inner,
            number,
            noted,
            slots,
            found,
        } = first;
        let Seat {
            inner: other,
            number: _,
            noted: _,
            slots: spent_slots,
            found: spent_found,
        } = second;
        self.table.unite::<Unites<P>>(&mut inner, other);
        drop(spent_slots);
        drop(spent_found);
        Seat {
            inner,
            number,
            noted,
            slots,
            found,
        }
    }
}
