//! What a capture held, in numbers: its records, its packets, the ignored records by cause, the octets, the clock.
//!
//! A [`Tally`] takes in the answer to each record ([`Tally::add`]). Two tallies of parts of a capture are put together
//! by [`Tally::sum_with`], so each worker keeps one of its own. `specs/Tallies.antt` says which tally some answers
//! have, and [`room_law`] that no number of it overflows for fewer than 2^38 records, whose packets have
//! fewer than 2^24 octets each.
#![tactic(auto)]

mod calls;
mod laws;
mod tally;

pub use laws::{order_law, room_law};
pub use tally::Tally;
