//! The calls of a tally.

ghost use Rattle.std.specs.Prelude.{◌≡◌, ◌+◌, ◌*◌, ◌<◌, ◌^◌, ◌++◌, ◌∷◌, [], List, Result, Some, Ok, Err, IfOk, length};
ghost use Rattle.std.specs.Option.{ForSome};
ghost use Rattle.packet_accept.specs.declared.packet.Packet.{Packet};
ghost use Rattle.packet_accept.specs.declared.ignored.Ignored.{Ignored};
ghost use Rattle.packet_accept.specs.Clock.{later_clock};
ghost use Rattle.capture_tally.specs.Tallies.{IsTallyOf, HasRoom, cause_number};

use crate::Tally;
use packet_accept::{Ignored, Packet, clock_law, packets_law};

/// The place of a cause among the counts by cause.
fn place_of(cause: Ignored) -> usize
    ensures value { result + 1 ≡ cause_number cause }
    ensures within { result < 5 }
{
    match cause {
        Ignored::NotIp => 0,
        Ignored::Short => 1,
        Ignored::BadHeader => 2,
        Ignored::ShortTransport => 3,
        Ignored::BadTime => 4,
    }
}

/// The later of two clocks.
fn later_of(one: Option<u64>, other: Option<u64>) -> Option<u64>
    requires one { ForSome one (λ time. time < 1000 * 2 ^ 32) }
    requires other { ForSome other (λ time. time < 1000 * 2 ^ 32) }
    ensures later { result ≡ later_clock one other }
    ensures early { ForSome result (λ time. time < 1000 * 2 ^ 32) }
{
    match one {
        None => other,
        Some(time) => match other {
            None => Some(time),
            Some(another) => Some(time.max(another)),
        },
    }
}

impl Tally {
    /// The tally of no records.
    pub fn new() -> Tally
        ensures tally { IsTallyOf result [] }
        ensures room { HasRoom result }
    {
        packets_law();
        clock_law();
        Tally {
            captured: 0,
            accepted: 0,
            ignored: [0; 5],
            octets: 0,
            clock: None,
        }
    }

    /// Counts a packet.
    fn add_packet(&mut self, packet: &Packet)
        requires room { HasRoom self.old }
        requires early { packet.now.time < 1000 * 2 ^ 32 }
        ensures { (answers : List (Result Packet Ignored)) → IsTallyOf self.old answers
            → IsTallyOf self.new (answers ++ Ok packet.now ∷ []) }
    {
        packets_law();
        clock_law();
        self.captured += 1;
        self.accepted += 1;
        self.octets += packet.octets as u64;
        self.clock = later_of(self.clock, Some(packet.time));
    }

    /// Counts an ignored record.
    fn add_ignored(&mut self, cause: Ignored)
        requires { HasRoom self.old }
        ensures { (answers : List (Result Packet Ignored)) → IsTallyOf self.old answers
            → IsTallyOf self.new (answers ++ Err cause ∷ []) }
    {
        packets_law();
        self.captured += 1;
        let place = place_of(cause);
        self.ignored[place] += 1;
    }

    /// Counts one more record by its answer.
    ///
    /// Each number of the tally must be below 2^63 ([`room_law`](crate::room_law)), and the whole seconds of a packet's
    /// time must fit 32 bits, as those of each accepted packet do.
    pub fn add(&mut self, answer: &Result<Packet, Ignored>)
        requires room { HasRoom self.old }
        requires early { IfOk answer.now (λ packet. packet.time < 1000 * 2 ^ 32) }
        ensures { (answers : List (Result Packet Ignored)) → IsTallyOf self.old answers
            → IsTallyOf self.new (answers ++ answer.now ∷ []) }
    {
        match answer {
            Ok(packet) => self.add_packet(packet),
            Err(cause) => self.add_ignored(*cause),
        }
    }

    /// The tally of the records of both. Each number of either must be below 2^63.
    pub fn sum_with(self, other: &Tally) -> Tally
        requires one { HasRoom self }
        requires two { HasRoom other.now }
        ensures { (answers others : List (Result Packet Ignored)) → IsTallyOf self answers → IsTallyOf other.now others
            → IsTallyOf result (answers ++ others) }
    {
        packets_law();
        clock_law();
        let [first, second, third, fourth, fifth] = self.ignored;
        Tally {
            captured: self.captured + other.captured,
            accepted: self.accepted + other.accepted,
            ignored: [
                first + other.ignored[0],
                second + other.ignored[1],
                third + other.ignored[2],
                fourth + other.ignored[3],
                fifth + other.ignored[4],
            ],
            octets: self.octets + other.octets,
            clock: later_of(self.clock, other.clock),
        }
    }
}
