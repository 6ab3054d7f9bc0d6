//! A number by which most keys stand in order.

ghost use Rattle.std.specs.Prelude.{◌≡◌};
ghost use Rattle.record_ledger.specs.Buckets.{leading_number};

use flow_key::FlowKey;

/// The least leading number of a key of version 6.
const SIX: u64 = 1 << 63;

/// The leading number of a key: no key comes before one whose number is less. For version 4 it is the upper 63 bits of the
/// source and the destination address side by side, 32 bits each, and for version 6 2^63 more than the upper 63 bits of the
/// source address.
pub fn leading_number(key: &FlowKey) -> u64
    ensures { result ≡ leading_number key.now }
{
    if key.version == 4 {
        ((key.source as u64) << 32 | key.destination as u64) >> 1
    } else {
        SIX + (key.source >> 65) as u64
    }
}
