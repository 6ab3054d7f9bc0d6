//! An IP packet of either version.

ghost use Rattle.std.specs.Prelude.{◌≡◌, ◌≢◌, ◌^◌, ◌<◌, IfOk, IfErr};
ghost use Rattle.packet_headers.specs.Link.{IsIpVersion};
ghost use Rattle.packet_headers.specs.Ip.{ip_part};
ghost use Rattle.packet_headers.specs.Shown.{ip_shown};

use crate::fault::HeaderFault;
use crate::ipv4::Ipv4View;
use crate::ipv6::Ipv6View;

/// An IP packet, as far as it was captured. Numbers are in host order.
#[derive(Clone, Copy, Debug)]
pub struct IpView<'a> {
    /// The version, 4 or 6.
    pub version: u8,
    /// The octets of the whole packet, its header among them: at most 16,777,215.
    pub octets: u32,
    /// The address of the sender, below 2^32 for version 4.
    pub source: u128,
    /// The address of the receiver, below 2^32 for version 4.
    pub destination: u128,
    /// The protocol of the payload.
    pub protocol: u8,
    /// Whether the packet is a fragment other than the first.
    pub later: bool,
    /// What lies behind the headers, up to the packet's end, as far as it was captured.
    pub payload: &'a [u8],
}

impl<'a> IpView<'a> {
    /// The packet of this version, 4 or 6, at the front of `rest`, as [`Ipv4View::of`] or [`Ipv6View::of`] reads it,
    /// with their faults. `original` means what it means there.
    #[inline]
    #[tactic(auto, unfolding(crate::specs::Ip::ip_part))]
    pub fn of(version: u8, rest: &'a [u8], original: u64) -> Result<IpView<'a>, HeaderFault>
        requires known { IsIpVersion version }
        ensures fields { IfOk result (λ view. ip_part version rest.now original ≡ Ok (ip_shown view)) }
        ensures fault { IfErr result (λ fault. ip_part version rest.now original ≡ Err fault) }
        ensures version { IfOk result (λ view. view.version ≡ version) }
        ensures narrow { IfOk result (λ view. view.version ≡ 4 → (view.source < 2 ^ 32) × (view.destination < 2 ^ 32)) }
        ensures bounded { IfOk result (λ view. view.octets < 2 ^ 24) }
        ensures never_not_ip { result ≢ Err HeaderFault.NotIp }
    {
        if version == 4 {
            return Ok(IpView::from(Ipv4View::of(rest, original)?));
        }
        Ok(IpView::from(Ipv6View::of(rest, original)?))
    }
}

impl<'a> From<Ipv4View<'a>> for IpView<'a> {
    ghost use Rattle.std.specs.Prelude.{◌≡◌, ◌^◌, ◌<◌};
    ghost use Rattle.packet_headers.specs.Shown.{ipv4_shown, ip_shown};

    ghost from_gives = { λ packet view. ip_shown view ≡ ipv4_shown packet };

    fn from(packet: Ipv4View<'a>) -> IpView<'a> {
        IpView {
            version: 4,
            octets: packet.octets,
            source: u128::from(packet.source),
            destination: u128::from(packet.destination),
            protocol: packet.protocol,
            later: packet.later,
            payload: packet.payload,
        }
    }
}

impl<'a> From<Ipv6View<'a>> for IpView<'a> {
    ghost use Rattle.std.specs.Prelude.{◌≡◌};
    ghost use Rattle.packet_headers.specs.Shown.{ipv6_shown, ip_shown};

    ghost from_gives = { λ packet view. ip_shown view ≡ ipv6_shown packet };

    fn from(packet: Ipv6View<'a>) -> IpView<'a> {
        IpView {
            version: 6,
            octets: packet.octets,
            source: packet.source,
            destination: packet.destination,
            protocol: packet.protocol,
            later: packet.later,
            payload: packet.payload,
        }
    }
}
