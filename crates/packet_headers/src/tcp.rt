//! The TCP header.

ghost use Rattle.std.specs.Prelude.{◌≡◌, ◌<◌, ◌↔◌, IsErr, IfOk, IfErr, length};
ghost use Rattle.packet_headers.specs.Transport.{tcp_part};

use crate::fault::HeaderFault;
use octets::u16_at;
use std::marker::Model;

/// How many octets hold the fields that are read.
const FIELDS: usize = 14;

/// A TCP segment (RFC 9293), as far as it was captured. Contracts see its ports and control bits.
#[derive(Debug, Drop)]
pub struct TcpView<'a> {
    segment: &'a [u8],
}

impl<'a> Model for TcpView<'a> {
    ghost use Rattle.std.specs.Prelude.{◌≤◌, length};
    ghost use Rattle.packet_headers.specs.Transport.{TransportPart, tcp_fields};

    ghost Value = { TransportPart };

    ghost view = { λ a. tcp_fields a.segment.now };

    ghost invariant = { λ a. 14 ≤ length a.segment.now };
}

impl<'a> TcpView<'a> {
    /// The segment at the front of an IP payload. `Short` comes exactly where fewer than 14 octets are
    /// there.
    pub fn of(payload: &'a [u8]) -> Result<TcpView<'a>, HeaderFault>
        ensures fields { IfOk result (λ view. tcp_part payload.now ≡ Ok view) }
        ensures fault { IfErr result (λ fault. tcp_part payload.now ≡ Err fault) }
        ensures short_alone { IfErr result (λ fault. fault ≡ HeaderFault.Short) }
        ensures exactly { IsErr result ↔ (length payload.now < 14) }
    {
        if payload.len() < FIELDS {
            return Err(HeaderFault::Short);
        }
        Ok(TcpView { segment: payload })
    }

    /// The port of the sender.
    pub fn source_port(&self) -> u16
        ensures { result ≡ self.now.source_port }
    {
        u16_at(self.segment, 0)
    }

    /// The port of the receiver.
    pub fn destination_port(&self) -> u16
        ensures { result ≡ self.now.destination_port }
    {
        u16_at(self.segment, 2)
    }

    /// The control bits (RFC 7125): the lower 12 bits of the octets 12 and 13.
    #[tactic(auto, unfolding(octets::specs::Numbers::number_at))]
    pub fn flags(&self) -> u16
        ensures { result ≡ self.now.flags }
    {
        u16_at(self.segment, 12) & 0x0fff
    }
}
