//! The law of the two directions: what is written of flow records is read as those flow records.
#![tactic(auto)]

ghost use Rattle.std.specs.Prelude.{◌≡◌, ◌≤◌, ℕ, List, Some};
ghost use Rattle.record_ledger.specs.declared.record.FlowRecord.{FlowRecord};
ghost use Rattle.ipfix_writer.specs.Layout.{IsLayout};
ghost use Rattle.ipfix_reader.specs.Flows.{flows_of};

/// The stream that is the layout of some flow records, in messages of at most `size` octets (at most 65,535), decodes
/// to as many data records, and they are these flow records, in order. The call does nothing.
pub fn layout_law()
    ensures { (flows : List FlowRecord) (bytes : List ℕ) (size export_time : ℕ) → size ≤ 65535
        → IsLayout size export_time flows bytes → flows_of bytes ≡ Some flows }
{}
