//! A fragment: what is known of some packets of one flow, and its words.

ghost use Rattle.std.specs.Prelude.{◌≡◌, ◌≢◌, ℕ, ◌+◌, ◌<◌, ◌≤◌, ◌^◌, List, [], ◌∷◌, ◌++◌, Some, None, IfSome, IsNone};
ghost use Rattle.std.specs.Prelude.{IsTrue, ◌↔◌, slice_index};

use flow_key::FlowKey;
use packet_accept::{FIN, Packet, RST, TCP};

/// What is known of some packets of one flow, taken together.
#[derive(Clone, Copy, PartialEq, Eq, Debug)]
pub struct Fragment {
    /// The key that all its packets have.
    pub key: FlowKey,
    /// How many packets it stands for; at least 1.
    pub packets: u64,
    /// The sum of their octets.
    pub octets: u64,
    /// The time of the earliest packet, in milliseconds since 1970-01-01T00:00:00Z.
    pub first: u64,
    /// The time of the latest packet; not before `first`.
    pub last: u64,
    /// The union of their TCP control bits (RFC 7125).
    pub flags: u16,
    pub ghost counted: { 1 ≤ packets },
    pub ghost spanned: { first ≤ last },
    // The widths of the fields: a number in a clause has none of its own.
    pub ghost sized: { (packets < 2 ^ 64) × (octets < 2 ^ 64) × (last < 2 ^ 64) × (flags < 2 ^ 16) },
}

impl Fragment {
    ghost use Rattle.flow_parts.specs.declared.timeouts.Timeouts.{Timeouts};
    ghost use Rattle.packet_accept.specs.declared.packet.Packet.{Packet};
    ghost use Rattle.flow_parts.specs.Ending.{IsClosed};
    ghost use Rattle.flow_parts.specs.Fields.{IsPartOf, part_fields_in};
    ghost use Rattle.flow_parts.specs.Parts.{IsAlone, part_words};
    ghost use Rattle.flow_parts.specs.Heap.{IsHeap};
    ghost use Rattle.flow_parts.specs.Sharing.{SharesOut};

    /// The fragment of this one packet.
    pub fn of(packet: &Packet) -> Fragment
        ensures alone { IsAlone packet.now result }
        ensures heap { (limits : Timeouts) → IsHeap limits (packet.now ∷ []) result }
        ensures shared { (limits : Timeouts) (others : List Packet) (rest : List Fragment)
            → SharesOut limits others rest
            → SharesOut limits (others ++ packet.now ∷ []) (result ∷ rest) }
    {
        of_one_packet(packet.key, packet.time, packet.octets, packet.flags)
    }

    /// Whether the fragment is closed: one of its packets ends its flow ([`Packet::ends`]).
    pub fn closed(&self) -> bool
        ensures { IsTrue result ↔ IsClosed self.now }
    {
        self.key.protocol == TCP && (self.flags & FIN != 0 || self.flags & RST != 0)
    }

    /// The fragment as ten words: the five of its key, then packets, octets, first, last and flags.
    pub fn to_words(&self) -> [u64; 10]
        ensures { result ≡ part_words self.now }
    {
        let [
            ports,
            source_high,
            source_low,
            destination_high,
            destination_low,
        ] = self.key.to_words();
        [
            ports,
            source_high,
            source_low,
            destination_high,
            destination_low,
            self.packets,
            self.octets,
            self.first,
            self.last,
            self.flags as u64,
        ]
    }

    /// The fragment that has these words, as [`Fragment::to_words`] gives them; `None` where no fragment has them: for
    /// example where the count of packets is 0.
    pub fn of_words(words: &[u64; 10]) -> Option<Fragment>
        ensures fields { IsPartOf (part_fields_in words.now) result }
        ensures some { IfSome result (λ fragment. part_words fragment ≡ words.now) }
        ensures none { IsNone result → (fragment : Fragment) → part_words fragment ≢ words.now }
        ensures round_trip { (fragment : Fragment) → part_words fragment ≡ words.now → result ≡ Some fragment }
        ensures empty { slice_index words.now 5 ≡ 0 → IsNone result }
    {
        let [
            ports,
            source_high,
            source_low,
            destination_high,
            destination_low,
            packets,
            octets,
            first,
            last,
            flags,
        ] = *words;
        let key = FlowKey::of_words(&[
            ports,
            source_high,
            source_low,
            destination_high,
            destination_low,
        ])?;
        if packets >= 1 && first <= last && flags <= 0xFFFF {
            Some(Fragment {
                key,
                packets,
                octets,
                first,
                last,
                flags: flags as u16,
            })
        } else {
            None
        }
    }
}

/// The fragment of one packet with these values.
fn of_one_packet(key: FlowKey, time: u64, octets: u32, flags: u16) -> Fragment
    ensures key { result.key ≡ key }
    ensures packets { result.packets ≡ 1 }
    ensures octets { result.octets ≡ octets }
    ensures times { (result.first ≡ time) × (result.last ≡ time) }
    ensures flags { result.flags ≡ flags }
{
    Fragment {
        key,
        packets: 1,
        octets: octets as u64,
        first: time,
        last: time,
        flags,
    }
}
