//! The IPv6 header with its extension headers (RFC 8200).

ghost use Rattle.std.specs.Prelude.{◌≡◌, ◌≢◌, ◌^◌, ◌<◌, ◌≤◌, IfOk, IfErr, length};
ghost use Rattle.packet_headers.specs.Ipv6.{checked_length, packet_length, ipv6_part};
ghost use Rattle.packet_headers.specs.Shown.{ipv6_shown};

use crate::extensions::upper_of;
use crate::fault::HeaderFault;
use crate::packet::{captured_behind, limited_length};
use octets::{u16_at, u128_at};

/// The length of the header, in octets.
const HEADER: usize = 40;
/// The number of a next header that says that no header follows (RFC 8200, section 4.7).
const NO_NEXT_HEADER: u8 = 59;

/// An IPv6 packet (RFC 8200), as far as it was captured. Numbers are in host order.
#[derive(Clone, Copy, Debug)]
pub struct Ipv6View<'a> {
    /// The octets of the whole packet, its header among them: at most 16,777,215.
    pub octets: u32,
    /// The address of the sender.
    pub source: u128,
    /// The address of the receiver.
    pub destination: u128,
    /// The protocol of the payload: the first next header that names no extension header, and in a fragment
    /// other than the first the next header that its fragment header names.
    pub protocol: u8,
    /// Whether the packet is a fragment other than the first.
    pub later: bool,
    /// What lies between the last extension header and the packet's end, as far as it was captured.
    pub payload: &'a [u8],
}

impl<'a> Ipv6View<'a> {
    /// The packet at the front of `rest`, the captured octets from the IP header on. `original` is the frame's original
    /// length less that of the link part, or 0 where the link part is longer. Where the payload length is 0 and the
    /// next header isn't 59, `original` is the packet's length instead, or 40 if that is more.
    ///
    /// Goes over the headers hop-by-hop options, routing, fragment, authentication and destination options, in any
    /// order and number, up to a fragment header whose offset isn't 0.
    ///
    /// `Short` comes where the header isn't whole or an extension header goes beyond the packet's or the captured end,
    /// `BadHeader` where the version isn't 6 or the packet is longer than 16,777,215 octets.
    #[tactic(auto, unfolding(crate::specs::Ipv6::ipv6_part))]
    pub fn of(rest: &'a [u8], original: u64) -> Result<Ipv6View<'a>, HeaderFault>
        ensures fields { IfOk result (λ view. ipv6_part rest.now original ≡ Ok (ipv6_shown view)) }
        ensures fault { IfErr result (λ fault. ipv6_part rest.now original ≡ Err fault) }
        ensures bounded { IfOk result (λ view. view.octets < 2 ^ 24) }
        ensures never_not_ip { result ≢ Err HeaderFault.NotIp }
    {
        let octets = checked_length_of(rest, original)?;
        let upper = upper_of(rest[6], captured_behind(rest, HEADER, octets))?;
        Ok(Ipv6View {
            octets,
            source: u128_at(rest, 8),
            destination: u128_at(rest, 24),
            protocol: upper.protocol,
            later: upper.later,
            payload: upper.payload,
        })
    }
}

/// The length of a packet of version 6 whose header is whole, in octets.
#[tactic(auto, unfolding(crate::specs::Ipv6::checked_length))]
fn checked_length_of(rest: &[u8], original: u64) -> Result<u32, HeaderFault>
    ensures value { result ≡ checked_length rest.now original }
    ensures header { IfOk result (λ octets. 40 ≤ length rest.now) }
    ensures least { IfOk result (λ octets. 40 ≤ octets) }
    ensures bounded { IfOk result (λ octets. octets < 2 ^ 24) }
    ensures never_not_ip { result ≢ Err HeaderFault.NotIp }
{
    if rest.len() < HEADER {
        return Err(HeaderFault::Short);
    }
    if rest[0] >> 4 != 6 {
        return Err(HeaderFault::BadHeader);
    }
    length_of(rest, original)
}

/// The length of the packet, in octets.
#[tactic(auto, unfolding(crate::specs::Ipv6::packet_length))]
fn length_of(rest: &[u8], original: u64) -> Result<u32, HeaderFault>
    requires { 40 ≤ length rest.now }
    ensures value { result ≡ packet_length rest.now original }
    ensures least { IfOk result (λ octets. 40 ≤ octets) }
    ensures bounded { IfOk result (λ octets. octets < 2 ^ 24) }
    ensures never_not_ip { result ≢ Err HeaderFault.NotIp }
{
    let payload = u64::from(u16_at(rest, 4));
    if payload == 0 && rest[6] != NO_NEXT_HEADER {
        return limited_length(original.max(40));
    }
    limited_length(40 + payload)
}
