//! The time of a packet, by the clock of its interface.

ghost use Rattle.std.specs.Prelude.{◌≡◌, ◌<◌, ◌*◌, ◌/◌};
ghost use Rattle.pcapng_reader.specs.Records.{fitting_stamp, moved_stamp, stamp_of};
ghost use Rattle.pcapng_reader.specs.Index.{HasUnits};

use crate::interface::Interface;

/// A time, in seconds since the beginning of 1970 and nanoseconds.
#[derive(Clone, Copy, Debug)]
pub(crate) struct Stamp {
    pub(crate) seconds: u32,
    pub(crate) fraction: u32,
}

/// The stamp of a record without a time. Its fraction is more than a second, which no time has.
pub(crate) const NO_TIME: Stamp = Stamp {
    seconds: 0,
    fraction: u32::MAX,
};

/// Seconds and a fraction, where the seconds fit 32 bits; else no time.
fn fitting_stamp(seconds: u128, fraction: u32) -> Stamp
    ensures { result ≡ fitting_stamp seconds fraction }
{
    if seconds < 1 << 32 {
        Stamp {
            seconds: seconds as u32,
            fraction,
        }
    } else {
        NO_TIME
    }
}

/// Seconds that are moved by an offset in two's complement, and a fraction.
fn moved_stamp(seconds: u64, offset: u64, fraction: u32) -> Stamp
    ensures { result ≡ moved_stamp seconds offset fraction }
{
    let sum = seconds as u128 + offset as u128;
    if offset < 1 << 63 {
        fitting_stamp(sum, fraction)
    } else if sum < 1 << 64 {
        NO_TIME
    } else {
        fitting_stamp(sum - (1 << 64), fraction)
    }
}

/// The rest of a second in nanoseconds, rounded down.
fn nanoseconds(rest: u64, units: u64) -> u32
    requires { rest < units }
    ensures { result ≡ rest * 1000000000 / units }
{
    (rest as u128 * 1_000_000_000 / units as u128) as u32
}

/// The time that counts this many units, by the clock of an interface.
pub(crate) fn stamp_of(interface: &Interface, time: u64) -> Stamp
    requires { HasUnits interface.now }
    ensures { result ≡ stamp_of interface.now time }
{
    let units = interface.units;
    let fraction = nanoseconds(time % units, units);
    moved_stamp(time / units, interface.offset, fraction)
}
