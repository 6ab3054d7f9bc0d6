//! Views of the headers of a captured packet, each over a borrowed part of the captured bytes: the
//! link part with its tags, IPv4 with its options, IPv6 with its extension headers, TCP and UDP.
//!
//! A view is made by `of`, which checks the header and gives its fields, or returns the first fault that it meets.
//! Views nest: `LinkView::rest` is what `Ipv4View::of` and `Ipv6View::of` take, or `IpView::of` for the version that
//! the link part announces, and their `payload` is what `TcpView::of` and `UdpView::of` take. Nothing is copied, no
//! call takes memory, and no checksum is verified.
//!
//! Each table of the formats is a definition of its own in `specs/`: the fields by their places in the
//! octets, in the terms of the standard. Contracts say that a view is what its table says, and that a
//! fault comes exactly where the table says.
#![tactic(auto)]

mod extensions;
mod fault;
mod ip;
mod ipv4;
mod ipv6;
mod link;
mod packet;
mod tcp;
mod udp;

pub use extensions::walk_law;
pub use fault::HeaderFault;
pub use ip::IpView;
pub use ipv4::Ipv4View;
pub use ipv6::Ipv6View;
pub use link::LinkView;
pub use tcp::TcpView;
pub use udp::UdpView;
