//! What both versions of IP share: the limit of a packet's length, and what lies behind a header.

ghost use Rattle.std.specs.Prelude.{◌≡◌, ◌≤◌, length};
ghost use Rattle.packet_headers.specs.Packet.{limited_octets, behind_header};

use crate::fault::HeaderFault;

/// The greatest length of a packet, in octets: 2^24 - 1.
pub const GREATEST: u64 = 16_777_215;

/// The length of a packet in octets; `BadHeader` where it is above the greatest.
#[inline]
pub fn limited_length(octets: u64) -> Result<u32, HeaderFault>
    ensures { result ≡ limited_octets octets }
{
    if octets > GREATEST {
        return Err(HeaderFault::BadHeader);
    }
    Ok(octets as u32)
}

/// What lies behind the first `header` octets of a packet of `octets` octets, as far as it was captured.
#[inline]
#[tactic(auto, unfolding(crate::specs::Packet::behind_header))]
pub fn captured_behind(rest: &[u8], header: usize, octets: u32) -> &[u8]
    requires inside { header ≤ length rest.now }
    requires header { header ≤ octets }
    ensures { result.now ≡ behind_header header octets rest.now }
{
    let octets = octets as usize;
    let packet = if octets < rest.len() {
        &rest[..octets]
    } else {
        rest
    };
    &packet[header..]
}
