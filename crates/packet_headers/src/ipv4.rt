//! The IPv4 header.

ghost use Rattle.std.specs.Prelude.{◌≡◌, ◌≢◌, ◌^◌, ◌<◌, ◌≤◌, IfOk, IfErr, length};
ghost use Rattle.packet_headers.specs.Ipv4.{header_length, packet_length, ipv4_part};
ghost use Rattle.packet_headers.specs.Shown.{ipv4_shown};

use crate::fault::HeaderFault;
use crate::packet::{captured_behind, limited_length};
use octets::{u16_at, u32_at};

/// The least length of a header, in octets.
const LEAST_HEADER: usize = 20;

/// An IPv4 packet (RFC 791), as far as it was captured. Numbers are in host order.
#[derive(Clone, Copy, Debug)]
pub struct Ipv4View<'a> {
    /// The octets of the whole packet, its header among them: at most 16,777,215.
    pub octets: u32,
    /// The address of the sender.
    pub source: u32,
    /// The address of the receiver.
    pub destination: u32,
    /// The protocol of the payload.
    pub protocol: u8,
    /// Whether the packet is a fragment other than the first.
    pub later: bool,
    /// What lies between the header with its options and the packet's end, as far as it was captured.
    pub payload: &'a [u8],
}

impl<'a> Ipv4View<'a> {
    /// The packet at the front of `rest`, the captured octets from the IP header on. `original` is the frame's original
    /// length less that of the link part, or 0 where the link part is longer. Where the total length is 0, `original`
    /// is the packet's length instead, unless the header is longer than that.
    ///
    /// `Short` comes where the header isn't whole, `BadHeader` where the version isn't 4, the header has fewer than 20
    /// octets, the total length is below the header's, or the packet is longer than 16,777,215 octets.
    #[tactic(auto, unfolding(crate::specs::Ipv4::ipv4_part))]
    pub fn of(rest: &'a [u8], original: u64) -> Result<Ipv4View<'a>, HeaderFault>
        ensures fields { IfOk result (λ view. ipv4_part rest.now original ≡ Ok (ipv4_shown view)) }
        ensures fault { IfErr result (λ fault. ipv4_part rest.now original ≡ Err fault) }
        ensures bounded { IfOk result (λ view. view.octets < 2 ^ 24) }
        ensures never_not_ip { result ≢ Err HeaderFault.NotIp }
    {
        let header = header_of(rest)?;
        let octets = length_of(rest, original, header)?;
        Ok(Ipv4View {
            octets,
            source: u32_at(rest, 12),
            destination: u32_at(rest, 16),
            protocol: rest[9],
            later: u16_at(rest, 6) & 0x1fff > 0,
            payload: captured_behind(rest, header, octets),
        })
    }
}

/// The length of the header with its options, in octets.
#[tactic(auto, unfolding(crate::specs::Ipv4::header_length))]
fn header_of(rest: &[u8]) -> Result<usize, HeaderFault>
    ensures value { result ≡ header_length rest.now }
    ensures least { IfOk result (λ header. 20 ≤ header) }
    ensures inside { IfOk result (λ header. header ≤ length rest.now) }
    ensures never_not_ip { result ≢ Err HeaderFault.NotIp }
{
    if rest.len() < LEAST_HEADER {
        return Err(HeaderFault::Short);
    }
    let version = rest[0] >> 4;
    let words = rest[0] & 0x0f;
    if version != 4 || words < 5 {
        return Err(HeaderFault::BadHeader);
    }
    let header = 4 * usize::from(words);
    if rest.len() < header {
        return Err(HeaderFault::Short);
    }
    Ok(header)
}

/// The length of the packet, in octets.
#[tactic(auto, unfolding(crate::specs::Ipv4::packet_length))]
fn length_of(rest: &[u8], original: u64, header: usize) -> Result<u32, HeaderFault>
    requires { 4 ≤ length rest.now }
    ensures value { result ≡ packet_length rest.now original header }
    ensures header { IfOk result (λ octets. header ≤ octets) }
    ensures bounded { IfOk result (λ octets. octets < 2 ^ 24) }
    ensures never_not_ip { result ≢ Err HeaderFault.NotIp }
{
    let header = header as u64;
    let total = u64::from(u16_at(rest, 2));
    if total == 0 {
        return limited_length(original.max(header));
    }
    if total < header {
        return Err(HeaderFault::BadHeader);
    }
    limited_length(total)
}
