//! The options of a block.

ghost use Rattle.std.specs.Prelude.{◌≡◌, ◌+◌, ◌≤◌, length};
ghost use Rattle.pcapng_reader.specs.Options.{next_option, padded_length};
ghost use Rattle.pcapng_reader.specs.Fronts.{IsNextOf};

use octets::Endianness;

/// The length of an option's code and length.
const OPTION_HEADER: usize = 4;

/// What some octets begin with.
#[derive(Clone, Copy, Debug)]
pub(crate) enum NextOption {
    /// No option: the options are at their end.
    Last,
    /// An option that goes beyond the octets.
    Beyond,
    /// An option of this code, with a value of this many octets.
    Coded(u16, u16),
}

/// A length in octets, padded to a multiple of four.
pub(crate) fn padded_length(len: usize) -> usize
    requires { len ≤ 262144 }
    ensures { result ≡ padded_length len }
{
    (len + 3) / 4 * 4
}

/// The option that the octets begin with, if there is one.
#[tactic(auto, unfolding(crate::specs::Options::next_option))]
pub(crate) fn next_option(order: Endianness, octets: &[u8]) -> NextOption
    ensures value { result ≡ next_option order octets.now }
    ensures whole { IsNextOf octets.now result }
{
    if octets.len() < OPTION_HEADER {
        return NextOption::Last;
    }
    let code = order.u16_at(octets, 0);
    if code == 0 {
        return NextOption::Last;
    }
    let len = order.u16_at(octets, 2);
    if octets.len() < OPTION_HEADER + padded_length(len as usize) {
        return NextOption::Beyond;
    }
    NextOption::Coded(code, len)
}
