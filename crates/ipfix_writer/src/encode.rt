//! The bytes of records.

ghost use Rattle.std.specs.Prelude.{◌≡◌, ◌≢◌, ◌+◌, ◌*◌, ◌≤◌, ◌++◌, length};
ghost use Rattle.std.specs.Vec.{vec_capacity};
ghost use Rattle.ipfix_writer.specs.DataParts.{counts_part, IsPut};
ghost use Rattle.ipfix_writer.specs.Encoding.{data_record};
ghost use Rattle.ipfix_model.specs.Sizes.{counts_length};
ghost use Rattle.octets.specs.Numbers.{octets_of};

use byteorder::{ByteOrder, NetworkEndian};
use ipfix_model::{COUNTS_LENGTH, V4_RECORD_LENGTH, V4_TEMPLATE, V6_RECORD_LENGTH, V6_TEMPLATE};
use octets::append;
use record_ledger::FlowRecord;

/// Where the destination address stands in a data record over IPv4.
const V4_DESTINATION: usize = 4;

/// Where the source port stands in a data record over IPv4.
const V4_SOURCE_PORT: usize = 8;

/// Where the destination port stands in a data record over IPv4.
const V4_DESTINATION_PORT: usize = 10;

/// Where the protocol stands in a data record over IPv4.
const V4_PROTOCOL: usize = 12;

/// Where the values behind the key begin in a data record over IPv4.
const V4_COUNTS: usize = 13;

/// Where the destination address stands in a data record over IPv6.
const V6_DESTINATION: usize = 16;

/// Where the source port stands in a data record over IPv6.
const V6_SOURCE_PORT: usize = 32;

/// Where the destination port stands in a data record over IPv6.
const V6_DESTINATION_PORT: usize = 34;

/// Where the protocol stands in a data record over IPv6.
const V6_PROTOCOL: usize = 36;

/// Where the values behind the key begin in a data record over IPv6.
const V6_COUNTS: usize = 37;

/// Where the packets stand in the values behind the key, which begin with the flags.
const PACKETS: usize = 2;

/// Where the octets stand in the values behind the key.
const OCTETS: usize = 10;

/// Where the first time stands in the values behind the key.
const FIRST: usize = 18;

/// Where the last time stands in the values behind the key.
const LAST: usize = 26;

/// Where the end reason stands in the values behind the key.
const REASON: usize = 34;

/// Something that is written as a data record: it has the number of its template, and the bytes of its record (RFC
/// 7011, section 3.4.3). Records of one template are of one length.
pub trait Encode: Copy {
    ghost use Rattle.ipfix_writer.specs.Layout.{RecordSet};

    ghost encode: { Self → RecordSet };

    /// The number of its template.
    fn template(&self) -> u16
        ensures { result ≡ (encode self.now).template };

    /// The length of its data record, in octets.
    fn size(&self) -> usize
        ensures { result ≡ length (encode self.now).records };

    /// Appends its data record to a buffer that has room for it.
    fn append(&self, buffer: &mut Vec<u8>)
        requires { length buffer.old.items + length (encode self.now).records ≤ vec_capacity buffer.old }
        ensures items { buffer.new.items ≡ buffer.old.items ++ (encode self.now).records }
        ensures room { vec_capacity buffer.old ≤ vec_capacity buffer.new };

    ghost sized: { (one other : Self) → (encode one).template ≡ (encode other).template
        → length (encode one).records ≡ length (encode other).records };
}

impl Encode for FlowRecord {
    ghost use Rattle.ipfix_writer.specs.Layout.{encode_flow};
    ghost use Rattle.ipfix_writer.specs.DataSizes.{size_by_template};

    ghost encode = { encode_flow };

    ghost sized = { size_by_template };

    /// The number of a record's template, by the version of its key.
    #[inline]
    #[tactic(auto, unfolding(ipfix_model::specs::Templates::template_of))]
    fn template(&self) -> u16 {
        if self.part.key.version == 4 {
            V4_TEMPLATE
        } else {
            V6_TEMPLATE
        }
    }

    /// The octets of a data record, by the version of its key.
    #[inline]
    fn size(&self) -> usize {
        if self.part.key.version == 4 {
            V4_RECORD_LENGTH
        } else {
            V6_RECORD_LENGTH
        }
    }

    /// Appends the data record of a flow.
    fn append(&self, buffer: &mut Vec<u8>) {
        if self.part.key.version == 4 {
            append(buffer, &v4_record(self));
        } else {
            append(buffer, &v6_record(self));
        }
    }
}

/// The data record of a flow over IPv4: the values of its key at their places, then those behind it.
#[inline]
fn v4_record(flow: &FlowRecord) -> [u8; V4_RECORD_LENGTH]
    requires { flow.now.part.key.version ≡ 4 }
    ensures { result ≡ data_record flow.now }
{
    let key = flow.part.key;
    let mut octets = [0u8; V4_RECORD_LENGTH];
    put_u32(&mut octets, 0, key.source as u32);
    put_u32(&mut octets, V4_DESTINATION, key.destination as u32);
    put_u16(&mut octets, V4_SOURCE_PORT, key.source_port);
    put_u16(&mut octets, V4_DESTINATION_PORT, key.destination_port);
    put_u8(&mut octets, V4_PROTOCOL, key.protocol);
    put_counts(&mut octets, V4_COUNTS, flow);
    octets
}

/// The data record of a flow over IPv6: the same values, with longer addresses.
#[inline]
fn v6_record(flow: &FlowRecord) -> [u8; V6_RECORD_LENGTH]
    requires { flow.now.part.key.version ≢ 4 }
    ensures { result ≡ data_record flow.now }
{
    let key = flow.part.key;
    let mut octets = [0u8; V6_RECORD_LENGTH];
    put_u128(&mut octets, 0, key.source);
    put_u128(&mut octets, V6_DESTINATION, key.destination);
    put_u16(&mut octets, V6_SOURCE_PORT, key.source_port);
    put_u16(&mut octets, V6_DESTINATION_PORT, key.destination_port);
    put_u8(&mut octets, V6_PROTOCOL, key.protocol);
    put_counts(&mut octets, V6_COUNTS, flow);
    octets
}

/// Appends the values behind the key, `counts_length` octets in network order: flags, packets, octets, first and last
/// time, and end reason.
pub fn append_counts(buffer: &mut Vec<u8>, flow: &FlowRecord)
    requires { length buffer.old.items + counts_length ≤ vec_capacity buffer.old }
    ensures items { buffer.new.items ≡ buffer.old.items ++ counts_part flow.now }
    ensures room { vec_capacity buffer.old ≤ vec_capacity buffer.new }
{
    let mut octets = [0u8; COUNTS_LENGTH];
    put_counts(&mut octets, 0, flow);
    append(buffer, &octets);
}

/// Puts the values behind the key at this place.
#[inline]
#[tactic(auto, unfolding(crate::specs::DataParts::counts_part))]
fn put_counts(octets: &mut [u8], place: usize, flow: &FlowRecord)
    requires { place + counts_length ≤ length octets.old }
    ensures many { length octets.new ≡ length octets.old }
    ensures put { IsPut place (counts_part flow.now) octets.old octets.new }
{
    put_u16(octets, place, flow.part.flags);
    put_u64(octets, place + PACKETS, flow.part.packets);
    put_u64(octets, place + OCTETS, flow.part.octets);
    put_u64(octets, place + FIRST, flow.part.first);
    put_u64(octets, place + LAST, flow.part.last);
    put_u8(octets, place + REASON, flow.reason);
}

/// Puts a number of one octet at this place: what stands in front of it stays.
#[inline]
fn put_u8(octets: &mut [u8], place: usize, value: u8)
    requires { place + 1 ≤ length octets.old }
    ensures many { length octets.new ≡ length octets.old }
    ensures put { IsPut place (octets_of 1 value) octets.old octets.new }
{
    octets[place] = value;
}

/// Puts a number of two octets at this place, in network order: what stands in front of it stays.
#[inline]
fn put_u16(octets: &mut [u8], place: usize, value: u16)
    requires { place + 2 ≤ length octets.old }
    ensures many { length octets.new ≡ length octets.old }
    ensures put { IsPut place (octets_of 2 value) octets.old octets.new }
{
    NetworkEndian::write_u16(&mut octets[place..], value);
}

/// Puts a number of four octets at this place, in network order: what stands in front of it stays.
#[inline]
fn put_u32(octets: &mut [u8], place: usize, value: u32)
    requires { place + 4 ≤ length octets.old }
    ensures many { length octets.new ≡ length octets.old }
    ensures put { IsPut place (octets_of 4 value) octets.old octets.new }
{
    NetworkEndian::write_u32(&mut octets[place..], value);
}

/// Puts a number of eight octets at this place, in network order: what stands in front of it stays.
#[inline]
fn put_u64(octets: &mut [u8], place: usize, value: u64)
    requires { place + 8 ≤ length octets.old }
    ensures many { length octets.new ≡ length octets.old }
    ensures put { IsPut place (octets_of 8 value) octets.old octets.new }
{
    NetworkEndian::write_u64(&mut octets[place..], value);
}

/// Puts a number of sixteen octets at this place, in network order: what stands in front of it stays.
#[inline]
fn put_u128(octets: &mut [u8], place: usize, value: u128)
    requires { place + 16 ≤ length octets.old }
    ensures many { length octets.new ≡ length octets.old }
    ensures put { IsPut place (octets_of 16 value) octets.old octets.new }
{
    NetworkEndian::write_u128(&mut octets[place..], value);
}
