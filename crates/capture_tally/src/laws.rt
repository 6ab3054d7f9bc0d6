//! Laws on tallies, for proofs in the crates above. The calls do nothing.

ghost use Rattle.std.specs.Prelude.{◌<◌, ◌^◌, List, Result, length, All, IsPermutation};
ghost use Rattle.packet_accept.specs.declared.packet.Packet.{Packet};
ghost use Rattle.packet_accept.specs.declared.ignored.Ignored.{Ignored};
ghost use Rattle.packet_accept.specs.Packets.{packets_in};
ghost use Rattle.capture_tally.specs.Tallies.{IsTallyOf, HasRoom};
ghost use Rattle.capture_tally.specs.declared.tally.Tally.{Tally};

use packet_accept::{clock_law, packets_law};

/// The tally of fewer than 2^38 records, whose packets have fewer than 2^24 octets each, has room: each of its numbers
/// is below 2^63.
pub fn room_law()
    ensures { (tally : Tally) (answers : List (Result Packet Ignored)) → IsTallyOf tally answers
        → length answers < 2 ^ 38
        → All (λ (p : Packet). p.octets < 2 ^ 24) (packets_in answers) → HasRoom tally }
{}

/// The order of the records plays no part in their tally.
pub fn order_law()
    ensures { (tally : Tally) (answers others : List (Result Packet Ignored)) → IsPermutation answers others
        → IsTallyOf tally answers → IsTallyOf tally others }
{
    packets_law();
    clock_law();
}
