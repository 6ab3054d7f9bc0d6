//! Laws of the layout, as contracts. The calls do nothing.

ghost use Rattle.ipfix_writer.specs.Laws.{IsOneLayout, HasRecordLengths, HasTemplateSetLength};
ghost use Rattle.ipfix_writer.specs.Laws.{HasTemplateMessageLength};

/// The layout of records, in messages of at most some size and with some export time, is one list of bytes.
pub fn layout_is_one()
    ensures { IsOneLayout }
{}

/// The lengths that the field lists give: those of data records, of the set of templates, and of the
/// message that has it.
pub fn lengths_are_fixed()
    ensures records { HasRecordLengths }
    ensures template_set { HasTemplateSetLength }
    ensures template_message { HasTemplateMessageLength }
{}
