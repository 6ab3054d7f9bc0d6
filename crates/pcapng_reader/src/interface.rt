//! Interfaces: the link type of their packets, and the unit and the offset of their times.

ghost use Rattle.std.specs.Prelude.{◌≡◌, ◌<◌, ◌≤◌, length, IfSome};
ghost use Rattle.pcapng_reader.specs.Options.{CodedValue, options_in};
ghost use Rattle.pcapng_reader.specs.Interfaces.{units_of, with_option, with_options, interface_told};
ghost use Rattle.pcapng_reader.specs.Index.{HasUnits};

use crate::options::{NextOption, next_option, padded_length};
use octets::Endianness;

/// The code of the option that tells the resolution of times.
const RESOLUTION: u16 = 9;

/// The code of the option that tells the offset of times, in seconds.
const OFFSET: u16 = 14;

/// The units of time in a second where no option tells them.
const MICROSECONDS: u64 = 1_000_000;

/// An interface of a section.
#[derive(Clone, Copy, Debug)]
pub(crate) struct Interface {
    /// The link type of its packets.
    pub(crate) link: u16,
    /// The units of time in a second.
    pub(crate) units: u64,
    /// The seconds to be added to times, as a signed number in two's complement.
    pub(crate) offset: u64,
}

/// The units of time in a second, by the octet of a resolution.
fn units_of(code: u8) -> Option<u64>
    ensures value { result ≡ units_of code }
    ensures some { IfSome result (λ units. 0 < units) }
{
    if code <= 18 {
        return Some(10u64.pow(code as u32));
    }
    if 128 <= code && code <= 190 {
        return Some(2u64.pow((code - 128) as u32));
    }
    None
}

/// The interface with one option more; `None` where the option is bad.
fn with_option(
    order: Endianness,
    interface: Interface,
    code: u16,
    value: &[u8],
) -> Option<Interface>
    requires { HasUnits interface }
    ensures value { result ≡ with_option order interface (record { code = code; value = value.now }) }
    ensures units { IfSome result HasUnits }
{
    if code == RESOLUTION {
        if value.len() != 1 {
            return None;
        }
        let units = units_of(value[0])?;
        return Some(Interface { units, ..interface });
    }
    if code == OFFSET {
        if value.len() != 8 {
            return None;
        }
        let offset = order.u64_at(value, 0);
        return Some(Interface {
            offset,
            ..interface
        });
    }
    Some(interface)
}

/// The interface with all options that stand in these octets; `None` where one of them is bad.
fn with_options(order: Endianness, first: Interface, octets: &[u8]) -> Option<Interface>
    requires { HasUnits first }
    ensures value { result ≡ with_options order first (options_in order octets.now) }
    ensures units { IfSome result HasUnits }
{
    let mut interface = first;
    let mut left = octets;
    'options: loop {
        match next_option(order, left) {
            NextOption::Last => return Some(interface),
            NextOption::Beyond => return None,
            NextOption::Coded(code, len) => {
                let len = len as usize;
                let (_, behind) = left.split_at(4);
                let (value, _) = behind.split_at(len);
                match with_option(order, interface, code, value) {
                    None => return None,
                    Some(next) => interface = next,
                }
                let (_, rest) = left.split_at(4 + padded_length(len));
                left = rest;
            }
        }
    }
}

/// The interface that an interface description block tells.
#[tactic(auto, unfolding(crate::specs::Interfaces::interface_told))]
pub(crate) fn interface_told(order: Endianness, part: &[u8]) -> Option<Interface>
    ensures value { result ≡ interface_told order part.now }
    ensures units { IfSome result HasUnits }
{
    if part.len() < 20 {
        return None;
    }
    let interface = Interface {
        link: order.u16_at(part, 8),
        units: MICROSECONDS,
        offset: 0,
    };
    with_options(order, interface, &part[16..part.len() - 4])
}
