//! Laws on the definitions of reading, as contracts. The calls do nothing.

ghost use Rattle.std.specs.Prelude.{◌≡◌, ◌<◌, ◌≤◌, ℕ, Bool, List, length, Ok};
ghost use Rattle.ipfix_model.specs.declared.fields.FieldSpec.{FieldSpec};
ghost use Rattle.ipfix_model.specs.declared.values.DataRecord.{DataRecord};
ghost use Rattle.ipfix_model.specs.Fields.{least_length};
ghost use Rattle.ipfix_reader.specs.Part.{Part};
ghost use Rattle.ipfix_reader.specs.Walk.{GoesOn};
ghost use Rattle.ipfix_reader.specs.Laws.{FieldsTell, FlowsFit, AnswersAsDefined, FlowOfItsFields};
ghost use Rattle.ipfix_reader.specs.Known.{Templates};
ghost use Rattle.ipfix_reader.specs.Records.{template_record, data_record};
ghost use Rattle.ipfix_reader.specs.Sets.{Contents, message_set};
ghost use Rattle.ipfix_reader.specs.Messages.{Progress, stream_message, decode};

/// Reading all messages of a stream is reading one and then all those behind it, however many there are; and so it is
/// with the sets of a message, the template records of a set, and the data records of a template of which each takes
/// a byte or more.
pub fn reading_goes_on()
    ensures messages { (before : Progress) (part : Part) → GoesOn stream_message before part }
    ensures sets { (domain : ℕ) (before : Contents) (part : Part) → GoesOn (message_set domain) before part }
    ensures templates { (options : Bool) (domain : ℕ) (before : Templates) (part : Part)
        → GoesOn (template_record options domain) before part }
    ensures data_records { (domain number : ℕ) (fields : List FieldSpec) (before : List DataRecord) (part : Part)
        → 0 < least_length fields → GoesOn (data_record domain number fields) before part }
{}

/// A flow record is known by its fields: numbers that fit the fields are those of one flow record, and others are of
/// none.
pub fn flows_have_fields()
    ensures tell { FieldsTell }
    ensures fit { FlowsFit }
    ensures answers { AnswersAsDefined }
    ensures flow { FlowOfItsFields }
{}

/// A stream has no more data records than bytes.
pub fn records_are_few()
    ensures { (bytes : List ℕ) (records : List DataRecord) → decode bytes ≡ Ok records → length records ≤ length bytes }
{}
