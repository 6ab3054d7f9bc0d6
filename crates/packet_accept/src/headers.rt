//! The headers of a record's frame behind its link part.

ghost use Rattle.std.specs.Prelude.{◌≡◌, ◌^◌, ◌<◌, ℕ, Ok, Err, IfOk, IfErr, drop};
ghost use Rattle.packet_headers.specs.Link.{IsIpVersion, link_part};
ghost use Rattle.packet_headers.specs.Shown.{link_shown};
ghost use Rattle.pcap_reader.specs.Views.{record_read};
ghost use Rattle.packet_accept.specs.Acceptance.{headers_of};
ghost use Rattle.packet_accept.specs.Shown.{headers_shown};

use crate::ignored::Ignored;
use crate::transport::{Transport, transport_of};
use packet_headers::{IpView, LinkView};
use pcap_reader::Record;

/// What the headers of a packet tell.
#[derive(Clone, Copy, Debug)]
pub struct HeaderViews<'a> {
    pub ip: IpView<'a>,
    pub transport: Transport,
}

/// The headers behind the link part of a record's frame, or the first cause for which it gives no packet.
#[inline]
#[tactic(auto, unfolding(crate::specs::Acceptance::headers_of))]
pub fn headers_behind<'a>(
    frame: &LinkView<'a>,
    rec: &Record<'a>,
) -> Result<HeaderViews<'a>, Ignored>
    requires version { IsIpVersion frame.now.version }
    requires rest { frame.now.rest.now ≡ drop frame.now.offset rec.now.captured.now }
    ensures fields { IfOk result (λ views. (link : ℕ) → link_part link rec.now.captured.now ≡ Ok (link_shown frame.now)
        → headers_of link (record_read rec.now) ≡ Ok (headers_shown views)) }
    ensures fault { IfErr result (λ cause. (link : ℕ) → link_part link rec.now.captured.now ≡ Ok (link_shown frame.now)
        → headers_of link (record_read rec.now) ≡ Err cause) }
    ensures version { IfOk result (λ views. IsIpVersion views.ip.version) }
    ensures narrow { IfOk result (λ views. views.ip.version ≡ 4
        → (views.ip.source < 2 ^ 32) × (views.ip.destination < 2 ^ 32)) }
    ensures bounded { IfOk result (λ views. views.ip.octets < 2 ^ 24) }
{
    let original = u64::from(rec.original).saturating_sub(frame.offset as u64);
    let ip = IpView::of(frame.version, frame.rest, original)?;
    let transport = transport_of(&ip)?;
    Ok(HeaderViews { ip, transport })
}
