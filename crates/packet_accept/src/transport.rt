//! What the transport header tells.

ghost use Rattle.std.specs.Prelude.{◌≡◌, Ok, Err, IfOk, IfErr};
ghost use Rattle.packet_headers.specs.Transport.{tcp_part, udp_part};
ghost use Rattle.packet_accept.specs.Cause.{or_short_transport};
ghost use Rattle.packet_accept.specs.Acceptance.{transport_part};
ghost use Rattle.packet_headers.specs.Shown.{ip_shown};
ghost use Rattle.packet_accept.specs.Shown.{transport_shown};

use crate::ignored::Ignored;
use crate::tcp::TCP;
use packet_headers::{IpView, TcpView, UdpView};

/// The protocol number of UDP.
const UDP: u8 = 17;

/// The ports and the control bits of a packet that has none.
const NO_PORTS: Transport = Transport {
    source_port: 0,
    destination_port: 0,
    flags: 0,
};

/// The ports and the control bits of a packet.
#[derive(Clone, Copy, Debug)]
pub struct Transport {
    pub source_port: u16,
    pub destination_port: u16,
    pub flags: u16,
}

/// The ports and the control bits, each 0 where the packet has none.
#[inline]
#[tactic(auto, unfolding(crate::specs::Acceptance::transport_part))]
pub fn transport_of(ip: &IpView<'_>) -> Result<Transport, Ignored>
    ensures fields { IfOk result (λ transport. transport_part (ip_shown ip.now) ≡ Ok (transport_shown transport)) }
    ensures fault { IfErr result (λ cause. transport_part (ip_shown ip.now) ≡ Err cause) }
{
    if ip.later {
        return Ok(NO_PORTS);
    }
    match ip.protocol {
        TCP => tcp_of(ip.payload),
        UDP => udp_of(ip.payload),
        _ => Ok(NO_PORTS),
    }
}

/// The ports and the control bits of TCP.
#[inline]
fn tcp_of(payload: &[u8]) -> Result<Transport, Ignored>
    ensures fields { IfOk result (λ transport. or_short_transport (tcp_part payload.now)
        ≡ Ok (transport_shown transport)) }
    ensures fault { IfErr result (λ cause. or_short_transport (tcp_part payload.now) ≡ Err cause) }
{
    let Ok(view) = TcpView::of(payload) else {
        return Err(Ignored::ShortTransport);
    };
    Ok(Transport {
        source_port: view.source_port(),
        destination_port: view.destination_port(),
        flags: view.flags(),
    })
}

/// The ports of UDP, which has no control bits.
#[inline]
fn udp_of(payload: &[u8]) -> Result<Transport, Ignored>
    ensures fields { IfOk result (λ transport. or_short_transport (udp_part payload.now)
        ≡ Ok (transport_shown transport)) }
    ensures fault { IfErr result (λ cause. or_short_transport (udp_part payload.now) ≡ Err cause) }
{
    let Ok(view) = UdpView::of(payload) else {
        return Err(Ignored::ShortTransport);
    };
    Ok(Transport {
        source_port: view.source_port(),
        destination_port: view.destination_port(),
        flags: 0,
    })
}
