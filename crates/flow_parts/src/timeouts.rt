//! The time-outs, and by them which packets and fragments a fragment takes in.

ghost use Rattle.std.specs.Prelude.{◌≡◌, ℕ, ◌+◌, ◌*◌, ◌<◌, ◌≤◌, ◌^◌, List, [], ◌∷◌, ◌++◌, IsTrue, ◌↔◌};

use crate::fragment::Fragment;
use flow_key::FlowKey;
use packet_accept::Packet;

/// The idle and the active time-out of a flow (RFC 5470, section 5.1.1), in milliseconds.
///
/// Both bounds are inclusive: packets of one flow that are exactly the idle time-out apart belong together,
/// and so do packets whose span is exactly the active time-out.
#[derive(Clone, Copy, PartialEq, Eq, Debug)]
pub struct Timeouts {
    /// The longest time between two packets of a flow that follow each other, in milliseconds.
    pub idle: u64,
    /// The longest span of a flow, in milliseconds.
    pub active: u64,
    pub ghost idle_bounds: { (1000 ≤ idle) × (idle ≤ 86400000) },
    pub ghost active_bounds: { (1000 ≤ active) × (active ≤ 86400000) },
}

impl Timeouts {
    ghost use Rattle.packet_accept.specs.declared.packet.Packet.{Packet};
    ghost use Rattle.flow_parts.specs.declared.fragment.Fragment.{Fragment};
    ghost use Rattle.flow_parts.specs.Parts.{IsAbsorbed, IsJoined};
    ghost use Rattle.flow_parts.specs.Joining.{TakesIn, IsJoinable};
    ghost use Rattle.flow_parts.specs.Heap.{IsHeap};
    ghost use Rattle.flow_parts.specs.Sharing.{SharesOut};

    /// The time-outs of these numbers of seconds, each from 1 to 86,400.
    pub fn new(idle_seconds: u32, active_seconds: u32) -> Timeouts
        requires idle { (1 ≤ idle_seconds) × (idle_seconds ≤ 86400) }
        requires active { (1 ≤ active_seconds) × (active_seconds ≤ 86400) }
        ensures idle { result.idle ≡ 1000 * idle_seconds }
        ensures active { result.active ≡ 1000 * active_seconds }
    {
        Timeouts {
            idle: 1000 * idle_seconds as u64,
            active: 1000 * active_seconds as u64,
        }
    }

    /// The idle time-out in milliseconds.
    pub fn idle(&self) -> u64
        ensures { result ≡ self.now.idle }
    {
        self.idle
    }

    /// The active time-out in milliseconds.
    pub fn active(&self) -> u64
        ensures { result ≡ self.now.active }
    {
        self.active
    }

    /// Whether the fragment can take the packet in: it has the same key, its time is at most idle before the
    /// fragment's first and at most idle after its last, the joined span is at most active, a closed fragment
    /// takes no later packet, and a packet that ends its flow isn't earlier than the fragment's last.
    pub fn fits(&self, fragment: &Fragment, packet: &Packet) -> bool
        ensures { IsTrue result ↔ TakesIn self.now fragment.now packet.now }
    {
        if !is_same(&fragment.key, &packet.key) {
            return false;
        }
        if fragment.closed() && packet.time > fragment.last {
            return false;
        }
        if packet.ends() && packet.time < fragment.last {
            return false;
        }
        let early = fragment.first.saturating_sub(packet.time);
        let late = packet.time.saturating_sub(fragment.last);
        if early.max(late) > self.idle {
            return false;
        }
        fragment.last.max(packet.time) - fragment.first.min(packet.time) <= self.active
    }

    /// The fragment with the packet taken in: counts added, flags united, span widened.
    pub fn absorb(&self, fragment: Fragment, packet: &Packet) -> Fragment
        requires fits { TakesIn self.now fragment packet.now }
        requires packets { fragment.packets + 1 < 2 ^ 64 }
        requires octets { fragment.octets + packet.now.octets < 2 ^ 64 }
        ensures absorbed { IsAbsorbed fragment packet.now result }
        ensures heap { (packets : List Packet) → IsHeap self.now packets fragment
            → IsHeap self.now (packets ++ packet.now ∷ []) result }
        ensures shared { (packets : List Packet) (rest : List Fragment) → SharesOut self.now packets (fragment ∷ rest)
            → SharesOut self.now (packets ++ packet.now ∷ []) (result ∷ rest) }
    {
        Fragment {
            key: fragment.key,
            packets: fragment.packets + 1,
            octets: fragment.octets + packet.octets as u64,
            first: fragment.first.min(packet.time),
            last: fragment.last.max(packet.time),
            flags: fragment.flags | packet.flags,
        }
    }

    /// Whether two fragments can be one: they have the same key, the gap between their spans, 0 where they
    /// overlap, is at most idle, the joined span is at most active, and neither that is closed ends before the
    /// other.
    pub fn joinable(&self, one: &Fragment, other: &Fragment) -> bool
        ensures { IsTrue result ↔ IsJoinable self.now one.now other.now }
    {
        if !is_same(&one.key, &other.key) {
            return false;
        }
        if one.closed() && one.last < other.last {
            return false;
        }
        if other.closed() && other.last < one.last {
            return false;
        }
        let before = one.first.saturating_sub(other.last);
        let after = other.first.saturating_sub(one.last);
        if before.max(after) > self.idle {
            return false;
        }
        one.last.max(other.last) - one.first.min(other.first) <= self.active
    }

    /// The two fragments as one: counts added, flags united, the span over both.
    pub fn join(&self, one: Fragment, other: Fragment) -> Fragment
        requires joinable { IsJoinable self.now one other }
        requires packets { one.packets + other.packets < 2 ^ 64 }
        requires octets { one.octets + other.octets < 2 ^ 64 }
        ensures joined { IsJoined one other result }
        ensures heap { (packets others : List Packet) → IsHeap self.now packets one → IsHeap self.now others other
            → IsHeap self.now (packets ++ others) result }
        ensures shared { (packets : List Packet) (rest : List Fragment)
            → SharesOut self.now packets (one ∷ other ∷ rest)
            → SharesOut self.now packets (result ∷ rest) }
    {
        Fragment {
            key: one.key,
            packets: one.packets + other.packets,
            octets: one.octets + other.octets,
            first: one.first.min(other.first),
            last: one.last.max(other.last),
            flags: one.flags | other.flags,
        }
    }
}

/// Whether two keys are one.
fn is_same(one: &FlowKey, other: &FlowKey) -> bool
    ensures { IsTrue result ↔ (one.now ≡ other.now) }
{
    one == other
}
