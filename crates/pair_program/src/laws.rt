//! Laws of streams of biflows, as contracts. The calls do nothing.

ghost use Rattle.pair_program.specs.BiLaws.{ArePairedOnce, ReadsBack, IsOneBiLayout};
ghost use Rattle.pair_program.specs.BiLaws.{HasTemplateSetLength, HasTemplateMessageLength};

/// Flow records have one list of pairs: whoever orders the records by first time, last time and key, leaves ties in
/// their order, and takes pairs out from the front, gets this list.
pub fn pairs_are_one()
    ensures { ArePairedOnce }
{}

/// Biflows have one layout, and in messages of at most 65,535 octets it decodes to these biflows, where each reverse
/// flow has the reverse key.
pub fn bi_layout_reads_back()
    ensures one { IsOneBiLayout }
    ensures back { ReadsBack }
{}

/// The lengths in octets that the field lists give: that of the set of templates, and of the message that has it.
pub fn bi_lengths_are_fixed()
    ensures template_set { HasTemplateSetLength }
    ensures template_message { HasTemplateMessageLength }
{}
