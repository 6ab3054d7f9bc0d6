//! The link part of a captured frame.

ghost use Rattle.std.specs.Prelude.{◌≡◌, ◌≢◌, ◌≤◌, IfOk, IfErr, length, drop};
ghost use Rattle.link_types.specs.Links.{number_of};
ghost use Rattle.packet_headers.specs.Link.{IsIpVersion, after_tag, ip_announced, typed_part, raw_part, link_part};
ghost use Rattle.packet_headers.specs.Shown.{link_shown};

use crate::fault::HeaderFault;
use link_types::LinkType;
use octets::u16_at;

/// The offset of the type in the header of Ethernet.
const ETHERNET_TYPE_OFFSET: usize = 12;

/// The offset of the type in the header of Linux cooked version 1.
const COOKED_TYPE_OFFSET: usize = 14;

/// The type of a customer tag.
const CUSTOMER_TAG: u16 = 0x8100;

/// The type of a service tag.
const SERVICE_TAG: u16 = 0x88A8;

/// The type of IPv4.
const IPV4: u16 = 0x0800;

/// The type of IPv6.
const IPV6: u16 = 0x86DD;

/// The link part of a frame that holds an IP packet.
#[derive(Clone, Copy, Debug)]
pub struct LinkView<'a> {
    /// The version of IP, 4 or 6.
    pub version: u8,
    /// How many octets of the frame stand in front of the IP header.
    pub offset: usize,
    /// The frame from the IP header on.
    pub rest: &'a [u8],
}

/// An Ethernet type, and the place in the frame where what it announces begins.
#[derive(Clone, Copy)]
struct Announced {
    kind: u16,
    place: usize,
}

impl<'a> LinkView<'a> {
    /// The link part of the captured octets of a frame, by the capture's link type. At most two tags of IEEE 802.1Q are
    /// gone over.
    ///
    /// `Short` comes where the link header or a tag isn't captured whole, or raw IP has no octet; `NotIp` where the
    /// last type, or the version of raw IP, is neither IPv4's nor IPv6's. A third tag is `NotIp`, whatever lies behind
    /// it.
    pub fn of(link: LinkType, captured: &'a [u8]) -> Result<LinkView<'a>, HeaderFault>
        ensures fields { IfOk result (λ view. link_part (number_of link) captured.now ≡ Ok (link_shown view)) }
        ensures fault { IfErr result (λ fault. link_part (number_of link) captured.now ≡ Err fault) }
        ensures version { IfOk result (λ view. IsIpVersion view.version) }
        ensures inside { IfOk result (λ view. view.offset ≤ length captured.now) }
        ensures rest { IfOk result (λ view. view.rest.now ≡ drop view.offset captured.now) }
        ensures never_bad_header { result ≢ Err HeaderFault.BadHeader }
    {
        match link {
            LinkType::Ethernet => typed_link(captured, ETHERNET_TYPE_OFFSET),
            LinkType::RawIp => raw_link(captured),
            LinkType::LinuxCooked => typed_link(captured, COOKED_TYPE_OFFSET),
        }
    }
}

/// The link part of raw IP.
#[tactic(auto, unfolding(crate::specs::Link::raw_part))]
fn raw_link(captured: &[u8]) -> Result<LinkView<'_>, HeaderFault>
    ensures fields { IfOk result (λ view. raw_part captured.now ≡ Ok (link_shown view)) }
    ensures fault { IfErr result (λ fault. raw_part captured.now ≡ Err fault) }
    ensures version { IfOk result (λ view. IsIpVersion view.version) }
    ensures inside { IfOk result (λ view. view.offset ≤ length captured.now) }
    ensures rest { IfOk result (λ view. view.rest.now ≡ drop view.offset captured.now) }
    ensures never_bad_header { result ≢ Err HeaderFault.BadHeader }
{
    if captured.is_empty() {
        return Err(HeaderFault::Short);
    }
    let version = captured[0] >> 4;
    if version != 4 && version != 6 {
        return Err(HeaderFault::NotIp);
    }
    Ok(LinkView {
        version,
        offset: 0,
        rest: captured,
    })
}

/// The link part of a frame whose link header ends with a type, which stands at `place`.
#[tactic(auto, unfolding(crate::specs::Link::typed_part))]
fn typed_link(frame: &[u8], place: usize) -> Result<LinkView<'_>, HeaderFault>
    requires { place ≤ 14 }
    ensures fields { IfOk result (λ view. typed_part place frame.now ≡ Ok (link_shown view)) }
    ensures fault { IfErr result (λ fault. typed_part place frame.now ≡ Err fault) }
    ensures version { IfOk result (λ view. IsIpVersion view.version) }
    ensures inside { IfOk result (λ view. view.offset ≤ length frame.now) }
    ensures rest { IfOk result (λ view. view.rest.now ≡ drop view.offset frame.now) }
    ensures never_bad_header { result ≢ Err HeaderFault.BadHeader }
{
    if frame.len() < place + 2 {
        return Err(HeaderFault::Short);
    }
    let header = Announced {
        kind: u16_at(frame, place),
        place: place + 2,
    };
    let first = skip_tag(frame, header)?;
    let second = skip_tag(frame, first)?;
    announced_ip(frame, second)
}

/// Goes over a tag, where there is one.
#[tactic(auto, unfolding(crate::specs::Link::after_tag))]
fn skip_tag(frame: &[u8], first: Announced) -> Result<Announced, HeaderFault>
    requires { first.place ≤ length frame.now }
    ensures value { result ≡ after_tag frame.now first }
    ensures inside { IfOk result (λ next. next.place ≤ length frame.now) }
    ensures never_bad_header { result ≢ Err HeaderFault.BadHeader }
{
    if first.kind != CUSTOMER_TAG && first.kind != SERVICE_TAG {
        return Ok(first);
    }
    if frame.len() - first.place < 4 {
        return Err(HeaderFault::Short);
    }
    Ok(Announced {
        kind: u16_at(frame, first.place + 2),
        place: first.place + 4,
    })
}

/// The frame's IP packet, where the last type announces one.
#[tactic(auto, unfolding(crate::specs::Link::ip_announced))]
fn announced_ip(frame: &[u8], last: Announced) -> Result<LinkView<'_>, HeaderFault>
    requires { last.place ≤ length frame.now }
    ensures fields { IfOk result (λ view. ip_announced last ≡ Ok (link_shown view)) }
    ensures fault { IfErr result (λ fault. ip_announced last ≡ Err fault) }
    ensures version { IfOk result (λ view. IsIpVersion view.version) }
    ensures inside { IfOk result (λ view. view.offset ≤ length frame.now) }
    ensures rest { IfOk result (λ view. view.rest.now ≡ drop view.offset frame.now) }
    ensures never_bad_header { result ≢ Err HeaderFault.BadHeader }
{
    let version = match last.kind {
        IPV4 => 4,
        IPV6 => 6,
        _ => return Err(HeaderFault::NotIp),
    };
    Ok(LinkView {
        version,
        offset: last.place,
        rest: &frame[last.place..],
    })
}
