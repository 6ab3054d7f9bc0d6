//! The UDP header.

ghost use Rattle.std.specs.Prelude.{◌≡◌, ◌<◌, ◌↔◌, IsErr, IfOk, IfErr, length};
ghost use Rattle.packet_headers.specs.Transport.{udp_part};

use crate::fault::HeaderFault;
use octets::u16_at;
use std::marker::Model;

/// How many octets hold the fields that are read.
const FIELDS: usize = 4;

/// A UDP datagram (RFC 768), as far as it was captured. Contracts see its ports.
#[derive(Debug, Drop)]
pub struct UdpView<'a> {
    datagram: &'a [u8],
}

impl<'a> Model for UdpView<'a> {
    ghost use Rattle.std.specs.Prelude.{◌≤◌, length};
    ghost use Rattle.packet_headers.specs.Transport.{TransportPart, udp_fields};

    ghost Value = { TransportPart };

    ghost view = { λ a. udp_fields a.datagram.now };

    ghost invariant = { λ a. 4 ≤ length a.datagram.now };
}

impl<'a> UdpView<'a> {
    /// The datagram at the front of an IP payload. `Short` comes exactly where fewer than 4 octets are
    /// there.
    pub fn of(payload: &'a [u8]) -> Result<UdpView<'a>, HeaderFault>
        ensures fields { IfOk result (λ view. udp_part payload.now ≡ Ok view) }
        ensures fault { IfErr result (λ fault. udp_part payload.now ≡ Err fault) }
        ensures short_alone { IfErr result (λ fault. fault ≡ HeaderFault.Short) }
        ensures exactly { IsErr result ↔ (length payload.now < 4) }
    {
        if payload.len() < FIELDS {
            return Err(HeaderFault::Short);
        }
        Ok(UdpView { datagram: payload })
    }

    /// The port of the sender.
    pub fn source_port(&self) -> u16
        ensures { result ≡ self.now.source_port }
    {
        u16_at(self.datagram, 0)
    }

    /// The port of the receiver.
    pub fn destination_port(&self) -> u16
        ensures { result ≡ self.now.destination_port }
    {
        u16_at(self.datagram, 2)
    }
}
