//! What a block tells.

ghost use Rattle.std.specs.Prelude.{◌≡◌, ◌≤◌, All, length, IfSome};
ghost use Rattle.pcapng_reader.specs.Reading.{section_content, enhanced_content, content_of};
ghost use Rattle.pcapng_reader.specs.Index.{HasUnits, IsSound};

use crate::interface::{Interface, interface_told};
use crate::options::padded_length;
use octets::Endianness;
use pcap_reader::MOST_CAPTURED;

/// What a block tells.
#[derive(Clone, Copy, Debug)]
pub(crate) enum Content {
    /// A section begins.
    Section,
    /// One more interface of the section.
    Described(Interface),
    /// A packet, captured on this interface.
    Enhanced(Interface),
    /// A packet without a time.
    Simple,
    /// A block of a type that isn't read.
    Other,
}

/// What a section header tells.
#[tactic(auto, unfolding(crate::specs::Reading::section_content))]
fn section_content(order: Endianness, part: &[u8]) -> Option<Content>
    ensures value { result ≡ section_content order part.now }
    ensures sound { IfSome result (IsSound order part.now) }
{
    if part.len() < 28 || order.u16_at(part, 12) != 1 {
        return None;
    }
    Some(Content::Section)
}

/// What an enhanced packet tells, in a section with these interfaces.
#[tactic(auto, unfolding(crate::specs::Reading::enhanced_content))]
fn enhanced_content(interfaces: &[Interface], order: Endianness, part: &[u8]) -> Option<Content>
    requires { All HasUnits interfaces.now }
    ensures value { result ≡ enhanced_content interfaces.now order part.now }
    ensures sound { IfSome result (IsSound order part.now) }
{
    if part.len() < 32 {
        return None;
    }
    let captured = order.u32_at(part, 20);
    if captured > MOST_CAPTURED || part.len() < 28 + padded_length(captured as usize) + 4 {
        return None;
    }
    let number = order.u32_at(part, 8) as usize;
    if number >= interfaces.len() {
        return None;
    }
    Some(Content::Enhanced(interfaces[number]))
}

/// What a block tells, in a section with these interfaces; none where it is bad.
#[tactic(auto, unfolding(crate::specs::Reading::content_of))]
pub(crate) fn content_of(
    interfaces: &[Interface],
    order: Endianness,
    part: &[u8],
) -> Option<Content>
    requires units { All HasUnits interfaces.now }
    requires header { 12 ≤ length part.now }
    ensures value { result ≡ content_of interfaces.now order part.now }
    ensures sound { IfSome result (IsSound order part.now) }
{
    match order.u32_at(part, 0) {
        0x0a0d_0d0a => section_content(order, part),
        1 => {
            let interface = interface_told(order, part)?;
            Some(Content::Described(interface))
        }
        6 => enhanced_content(interfaces, order, part),
        3 => {
            if part.len() < 16 {
                return None;
            }
            Some(Content::Simple)
        }
        _ => Some(Content::Other),
    }
}
