//! The line that reports a refused file.

ghost use Rattle.std.specs.Prelude.{◌≡◌, ◌++◌, IfOk, OnOk};
ghost use Rattle.join_program.specs.Statuses.{fault_text, fault_line};

use crate::status::FileFault;
use no_memory::NoMemory;
use plain_text::{append, append_numbered};
use std::alloc::Global;

/// Appends what is wrong with a file.
fn append_fault(text: &mut Vec<u8>, fault: &FileFault) -> Result<(), NoMemory>
    ensures { OnOk result (text.new.items ≡ text.old.items ++ fault_text fault.now) }
{
    match fault {
        FileFault::ReadFault => append(text, b"read fault"),
        FileFault::TooLarge => append(text, b"too large"),
        FileFault::NotStream(fault) => {
            append(text, b"not a stream: ")?;
            append(text, fault.text().as_str().as_bytes())
        }
        FileFault::NotFlows(place) => append_numbered(text, b"not flow records: ", *place),
        FileFault::TooMany => append(text, b"too many"),
    }
}

/// The line that reports a refused file: its name, and what is wrong with it.
pub(crate) fn fault_line(alloc: Global, name: &str, fault: &FileFault) -> Result<Vec<u8>, NoMemory>
    ensures { IfOk result (λ line. line.items ≡ fault_line name.now fault.now) }
{
    let mut line = Vec::new(alloc);
    append(&mut line, name.as_bytes())?;
    append(&mut line, b": ")?;
    append_fault(&mut line, fault)?;
    append(&mut line, b"\n")?;
    Ok(line)
}
