//! The bytes of biflows.

ghost use Rattle.std.specs.Prelude.{◌≡◌, ◌≤◌, ◌<◌, ◌^◌, ◌++◌, [], IfOk, length};
ghost use Rattle.std.specs.Vec.{vec_capacity};
ghost use Rattle.pair_program.specs.BiLayout.{bi_template_message, IsBiLayout};
ghost use Rattle.ipfix_model.specs.Sizes.{bi_template_message_length};

use crate::biflow::Biflow;
use ipfix_model::{
    BI_TEMPLATE_MESSAGE_LENGTH, BI_TEMPLATE_SET_LENGTH, COUNTS_LENGTH, TEMPLATE_SET, V4_BI_FIELDS,
    V4_BI_TEMPLATE, V4_FIELDS, V4_TEMPLATE, V6_BI_FIELDS, V6_BI_TEMPLATE, V6_FIELDS, V6_TEMPLATE,
};
use ipfix_writer::{
    Encode, MessageForm, append_counts, append_message_header, append_messages, append_template,
};
use no_memory::NoMemory;
use octets::append_u16;
use std::alloc::Global;

impl Encode for Biflow {
    ghost use Rattle.pair_program.specs.BiLayout.{encode_biflow};
    ghost use Rattle.pair_program.specs.BiSizes.{biflows_sized};

    ghost encode = { encode_biflow };

    ghost sized = { biflows_sized };

    /// The number of its template: by the IP version, and by whether there is a reverse flow.
    #[tactic(auto, unfolding(ipfix_model::specs::Templates::bi_template_of))]
    fn template(&self) -> u16 {
        match self.reverse {
            None => self.forward.template(),
            Some(_) => {
                if self.forward.part.key.version == 4 {
                    V4_BI_TEMPLATE
                } else {
                    V6_BI_TEMPLATE
                }
            }
        }
    }

    /// The length of its data record in octets: that of the forward flow's record, and with a reverse flow that of its
    /// counts besides.
    fn size(&self) -> usize {
        match self.reverse {
            None => self.forward.size(),
            Some(_) => self.forward.size() + COUNTS_LENGTH,
        }
    }

    /// Appends its data record: that of the forward flow, then the values of the reverse one.
    fn append(&self, buffer: &mut Vec<u8>) {
        self.forward.append(buffer);
        match &self.reverse {
            None => {}
            Some(reverse) => append_counts(buffer, reverse),
        }
    }
}

/// Appends the message with the four templates to an empty buffer.
fn append_templates(buffer: &mut Vec<u8>, export_time: u32)
    requires empty { buffer.old.items ≡ [] }
    requires room { bi_template_message_length ≤ vec_capacity buffer.old }
    ensures { buffer.new.items ≡ bi_template_message export_time }
{
    append_message_header(buffer, BI_TEMPLATE_MESSAGE_LENGTH, export_time, 0);
    append_u16(buffer, TEMPLATE_SET);
    append_u16(buffer, BI_TEMPLATE_SET_LENGTH);
    append_template(buffer, V4_TEMPLATE, &V4_FIELDS);
    append_template(buffer, V6_TEMPLATE, &V6_FIELDS);
    append_template(buffer, V4_BI_TEMPLATE, &V4_BI_FIELDS);
    append_template(buffer, V6_BI_TEMPLATE, &V6_BI_FIELDS);
}

/// The message with the templates of flows and of biflows, with this export time in seconds: the first one of a stream
/// of biflows.
///
/// `NoMemory` where the room for it can't be had.
pub(crate) fn first_message(alloc: Global, export_time: u32) -> Result<Vec<u8>, NoMemory>
    ensures { IfOk result (λ first. first.items ≡ bi_template_message export_time) }
{
    let mut first = Vec::with_capacity(alloc, BI_TEMPLATE_MESSAGE_LENGTH as usize)?;
    append_templates(&mut first, export_time);
    Ok(first)
}

/// The stream of these biflows (RFC 7011, sections 3.1 to 3.4; RFC 5103): the message with the templates of flows and
/// of biflows, then data messages of at most `size` octets, from 308 to 65,535. The export time is in seconds.
///
/// `NoMemory` where the room for it can't be had.
pub fn bi_layout(
    alloc: Global,
    pairs: &[Biflow],
    size: usize,
    export_time: u32,
) -> Result<Vec<u8>, NoMemory>
    requires { (bi_template_message_length ≤ size) × (size < 2 ^ 16) }
    ensures { IfOk result (λ bytes. IsBiLayout size export_time pairs.now bytes.items) }
{
    let mut stream = first_message(alloc, export_time)?;
    append_messages(alloc, &mut stream, pairs, MessageForm { size, export_time })?;
    Ok(stream)
}
