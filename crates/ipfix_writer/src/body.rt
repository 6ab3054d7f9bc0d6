//! The bytes of messages.

ghost use Rattle.std.specs.Prelude.{◌≡◌, ◌+◌, ◌≤◌, ◌<◌, ◌^◌, ◌++◌, ◌==◌, length, drop, take_while};
ghost use Rattle.std.specs.Vec.{vec_capacity};
ghost use Rattle.ipfix_writer.specs.Encoding.{message_header};
ghost use Rattle.ipfix_writer.specs.Layout.{body_in, records_in};

use crate::encode::Encode;
use ipfix_model::{SET_HEADER, VERSION};
use octets::{append_u16, append_u32};

/// The observation domain that the meter writes.
const OBSERVATION_DOMAIN: u32 = 1;

/// Appends a message header of 16 octets in network order (RFC 7011, section 3.1). `size` is the length of the whole
/// message in octets, `export_time` is in seconds since 1970, `sequence` counts the data records of earlier messages
/// modulo 2^32.
#[tactic(auto, unfolding(crate::specs::Encoding::message_header))]
pub fn append_message_header(buffer: &mut Vec<u8>, size: u16, export_time: u32, sequence: u32)
    requires { length buffer.old.items + 16 ≤ vec_capacity buffer.old }
    ensures items { buffer.new.items ≡ buffer.old.items ++ message_header size export_time sequence }
    ensures longer { length buffer.new.items ≡ length buffer.old.items + 16 }
    ensures room { vec_capacity buffer.old ≤ vec_capacity buffer.new }
{
    append_u16(buffer, VERSION);
    append_u16(buffer, size);
    append_u32(buffer, export_time);
    append_u32(buffer, sequence);
    append_u32(buffer, OBSERVATION_DOMAIN);
}

/// How many records at the front have this template, before the first of another.
#[inline]
fn run_length<R: Encode>(records: &[R], template: u16) -> usize
    ensures { result ≡ length (take_while (λ one. (R.encode one).template == template) records.now) }
{
    records
        .iter()
        .take_while(|one| one.template() == template)
        .count()
}

/// Appends these data records.
fn append_data_records<R: Encode>(buffer: &mut Vec<u8>, records: &[R])
    requires { length buffer.old.items + length (records_in R.encode records.now) ≤ vec_capacity buffer.old }
    ensures items { buffer.new.items ≡ buffer.old.items ++ records_in R.encode records.now }
    ensures room { vec_capacity buffer.old ≤ vec_capacity buffer.new }
{
    for one in records {
        one.append(buffer);
    }
}

/// Appends the set that the first records share, and tells how many they are.
fn append_set<R: Encode>(buffer: &mut Vec<u8>, records: &[R]) -> usize
    requires some { 0 < length records.now }
    requires room { length buffer.old.items + length (body_in R.encode records.now) ≤ vec_capacity buffer.old }
    requires small { length (body_in R.encode records.now) < 2 ^ 16 }
    ensures count { (0 < result) × (result ≤ length records.now) }
    ensures items { buffer.new.items ++ body_in R.encode (drop result records.now) ≡ buffer.old.items
        ++ body_in R.encode records.now }
    ensures longer { length buffer.old.items ≤ length buffer.new.items }
    ensures room { vec_capacity buffer.old ≤ vec_capacity buffer.new }
{
    let first = records[0];
    let template = first.template();
    let count = run_length(records, template);
    let size = SET_HEADER + count * first.size();
    append_u16(buffer, template);
    append_u16(buffer, size as u16);
    append_data_records(buffer, &records[..count]);
    count
}

/// Appends the sets of these records.
pub fn append_body<R: Encode>(buffer: &mut Vec<u8>, records: &[R])
    requires room { length buffer.old.items + length (body_in R.encode records.now) ≤ vec_capacity buffer.old }
    requires small { length (body_in R.encode records.now) < 2 ^ 16 }
    ensures items { buffer.new.items ≡ buffer.old.items ++ body_in R.encode records.now }
    ensures room { vec_capacity buffer.old ≤ vec_capacity buffer.new }
{
    let mut done = 0;
    while done < records.len() {
        let (_, rest) = records.split_at(done);
        done += append_set(buffer, rest);
    }
}
