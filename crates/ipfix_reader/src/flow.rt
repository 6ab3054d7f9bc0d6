//! Flow records among data records.

ghost use Rattle.std.specs.Prelude.{◌≡◌, ◌⊎◌, ◌+◌, ◌≤◌, ℕ, length};
ghost use Rattle.flow_key.specs.Fields.{IsKeyOf};
ghost use Rattle.flow_parts.specs.Fields.{IsPartOf};
ghost use Rattle.ipfix_model.specs.Sizes.{counts_length};
ghost use Rattle.ipfix_model.specs.Values.{AreNumbers};
ghost use Rattle.ipfix_reader.specs.FlowFields.{IsFlowWith, fields_in};
ghost use Rattle.ipfix_reader.specs.Flows.{flow};
ghost use Rattle.ipfix_reader.specs.FixedPlaces.{record_of};
ghost use Rattle.ipfix_reader.specs.Numbers.{numbers_shown, fields_behind};

use crate::flow_octets::FlowOctets;
use crate::flow_template::FlowTemplate;
use flow_key::FlowKey;
use flow_parts::Fragment;
use ipfix_model::elements::*;
use ipfix_model::{DataRecord, FieldValue, V4_FIELDS, V6_FIELDS, are_values_of, number_of};
use octets::Endianness;
use record_ledger::FlowRecord;

/// The numbers in the values or the octets of a flow record.
#[derive(Clone, Copy)]
struct Numbers {
    source: u128,
    destination: u128,
    protocol: u128,
    source_port: u128,
    destination_port: u128,
    packets: u128,
    octets: u128,
    first: u128,
    last: u128,
    flags: u128,
    reason: u128,
}

/// The flow record that a data record is: its values are those of the fields of the template for flows over IPv4 or
/// over IPv6, in order and without enterprise numbers, each as long as its field; there is a packet or more, and the
/// first isn't later than the last. Else `None`.
///
/// The number of the record's template and its domain don't matter.
#[tactic(auto, unfolding(crate::specs::Flows::flow))]
pub fn flow_of(rec: &DataRecord) -> Option<FlowRecord>
    ensures { result ≡ flow rec.now }
{
    let values = rec.fields.items();
    if are_values_of(&V4_FIELDS, values) {
        let numbers = numbers_in(values, SOURCE_IPV4_ADDRESS, DESTINATION_IPV4_ADDRESS);
        return flow_with(4, &numbers);
    }
    if are_values_of(&V6_FIELDS, values) {
        let numbers = numbers_in(values, SOURCE_IPV6_ADDRESS, DESTINATION_IPV6_ADDRESS);
        return flow_with(6, &numbers);
    }
    None
}

/// The flow record that the data record with these octets is, where it is one: as [`flow_of`] would find it in their
/// values, but read at fixed places.
pub fn flow_in(rec: FlowOctets<'_>) -> Option<FlowRecord>
    ensures { result ≡ flow (record_of rec.entry) }
{
    let octets = rec.octets;
    match rec.flow {
        FlowTemplate::V4 => {
            let source = u128::from(octets::u32_at(octets, 0));
            let destination = u128::from(octets::u32_at(octets, 4));
            flow_with(4, &numbers_behind(source, destination, octets, 8))
        }
        FlowTemplate::V6 => {
            let source = octets::u128_at(octets, 0);
            let destination = octets::u128_at(octets, 16);
            flow_with(6, &numbers_behind(source, destination, octets, 32))
        }
    }
}

/// The numbers in the octets: those of the addresses, which are given, and of the fields behind them, from this place
/// on: ports and protocol in 5 octets, and then flags, counts, times and end reason.
#[tactic(auto, unfolding(octets::specs::Numbers::number_at, octets::specs::Numbers::number))]
fn numbers_behind(source: u128, destination: u128, octets: &[u8], place: usize) -> Numbers
    requires { place + 5 + counts_length ≤ length octets.now }
    ensures { (version : ℕ)
        → numbers_shown version result ≡ fields_behind version source destination place octets.now }
{
    let big = Endianness::Big;
    Numbers {
        source,
        destination,
        protocol: u128::from(octets[place + 4]),
        source_port: u128::from(octets::u16_at(octets, place)),
        destination_port: u128::from(octets::u16_at(octets, place + 2)),
        packets: u128::from(big.u64_at(octets, place + 7)),
        octets: u128::from(big.u64_at(octets, place + 15)),
        first: u128::from(big.u64_at(octets, place + 23)),
        last: u128::from(big.u64_at(octets, place + 31)),
        flags: u128::from(octets::u16_at(octets, place + 5)),
        reason: u128::from(octets[place + 39]),
    }
}

/// The numbers in the values, each found by its element. Those of the addresses are given.
fn numbers_in(values: &[FieldValue], source: u16, destination: u16) -> Numbers
    requires { AreNumbers values.now }
    ensures { (version : ℕ) → numbers_shown version result ≡ fields_in version source destination values.now }
{
    Numbers {
        source: number_of(None, source, values),
        destination: number_of(None, destination, values),
        protocol: number_of(None, PROTOCOL_IDENTIFIER, values),
        source_port: number_of(None, SOURCE_TRANSPORT_PORT, values),
        destination_port: number_of(None, DESTINATION_TRANSPORT_PORT, values),
        packets: number_of(None, PACKET_DELTA_COUNT, values),
        octets: number_of(None, OCTET_DELTA_COUNT, values),
        first: number_of(None, FLOW_START_MILLISECONDS, values),
        last: number_of(None, FLOW_END_MILLISECONDS, values),
        flags: number_of(None, TCP_CONTROL_BITS, values),
        reason: number_of(None, FLOW_END_REASON, values),
    }
}

/// The flow record of this IP version with these numbers, where they fit.
fn flow_with(version: u8, numbers: &Numbers) -> Option<FlowRecord>
    requires { (version ≡ 4) ⊎ (version ≡ 6) }
    ensures { IsFlowWith (numbers_shown version numbers.now) result }
{
    let part = part_with(version, numbers)?;
    if numbers.reason > u128::from(u8::MAX) {
        return None;
    }
    Some(FlowRecord {
        part,
        reason: numbers.reason as u8,
    })
}

/// What is known of the packets by these numbers, where they are those of packets and fit.
fn part_with(version: u8, numbers: &Numbers) -> Option<Fragment>
    requires { (version ≡ 4) ⊎ (version ≡ 6) }
    ensures { IsPartOf (numbers_shown version numbers.now).part result }
{
    let key = key_with(version, numbers)?;
    let widest = u128::from(u64::MAX);
    if numbers.packets < 1 || numbers.first > numbers.last {
        return None;
    }
    if numbers.packets > widest || numbers.octets > widest || numbers.last > widest {
        return None;
    }
    if numbers.flags > u128::from(u16::MAX) {
        return None;
    }
    Some(Fragment {
        key,
        packets: numbers.packets as u64,
        octets: numbers.octets as u64,
        first: numbers.first as u64,
        last: numbers.last as u64,
        flags: numbers.flags as u16,
    })
}

/// The key of this IP version with these numbers, where they fit.
fn key_with(version: u8, numbers: &Numbers) -> Option<FlowKey>
    requires { (version ≡ 4) ⊎ (version ≡ 6) }
    ensures { IsKeyOf (numbers_shown version numbers.now).part.key result }
{
    let widest = u128::from(u32::MAX);
    if version == 4 && (numbers.source > widest || numbers.destination > widest) {
        return None;
    }
    if numbers.protocol > u128::from(u8::MAX) {
        return None;
    }
    if numbers.source_port.max(numbers.destination_port) > u128::from(u16::MAX) {
        return None;
    }
    Some(FlowKey {
        version,
        source: numbers.source,
        destination: numbers.destination,
        protocol: numbers.protocol as u8,
        source_port: numbers.source_port as u16,
        destination_port: numbers.destination_port as u16,
    })
}
