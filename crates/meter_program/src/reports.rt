//! What goes to standard error: the summary, a count, and the line of a refusal.
//!
//! Each text is put together in an array of fixed size and written in one piece, so no memory is taken.

ghost use Rattle.std.specs.Prelude.{◌≡◌, ◌+◌, ◌≤◌, ◌++◌, length, take, codes, decimal, OnOk, OnErr};
ghost use Rattle.arrayvec.specs.ArrayString.{array_string_len};
ghost use Rattle.meter_io.specs.Causes.{HasCause};
ghost use Rattle.meter_program.specs.Statuses.{fault_text, fault_line};
ghost use Rattle.meter_program.specs.Summary.{count_line, ignored_lines, summary};
ghost use Rattle.meter_io.specs.Sides.{HasTaken, HasBegun, side};

use crate::status::Status;
use arrayvec::ArrayString;
use capture_tally::Tally;
use itoa::Buffer;
use meter_io::{Failed, Sink, write_all};

/// The room of a text.
const ROOM: usize = 512;

/// A text of at most 512 bytes.
type Text = ArrayString<ROOM>;

/// Appends a number in decimal.
fn append_number(text: &mut Text, number: u64)
    requires { array_string_len text.old + 20 ≤ 512 }
    ensures bytes { text.new.bytes ≡ text.old.bytes ++ decimal number }
    ensures room { array_string_len text.new ≤ array_string_len text.old + 20 }
{
    let mut digits = Buffer::new();
    text.push_str(digits.format(number));
}

/// Appends the line of a name and a number.
#[tactic(auto, unfolding(crate::specs::Summary::count_line))]
fn append_count(text: &mut Text, name: &str, count: u64)
    requires { array_string_len text.old + (length name.now + 22) ≤ 512 }
    ensures bytes { text.new.bytes ≡ text.old.bytes ++ count_line name.now count }
    ensures room { array_string_len text.new ≤ array_string_len text.old + (length name.now + 22) }
{
    text.push_str(name);
    text.push_str(" ");
    append_number(text, count);
    text.push_str("\n");
}

/// Appends the lines of the ignored records, by cause.
#[tactic(auto, unfolding(crate::specs::Summary::ignored_lines))]
fn append_ignored(text: &mut Text, ignored: &[u64; 5])
    requires { array_string_len text.old + 154 ≤ 512 }
    ensures bytes { text.new.bytes ≡ text.old.bytes ++ ignored_lines ignored.now }
    ensures room { array_string_len text.new ≤ array_string_len text.old + 154 }
{
    append_count(text, "not-ip", ignored[0]);
    append_count(text, "short", ignored[1]);
    append_count(text, "bad-header", ignored[2]);
    append_count(text, "short-transport", ignored[3]);
    append_count(text, "bad-time", ignored[4]);
}

/// Writes the summary of a metered capture, eleven lines: the numbers of its tally, how many records of flows were
/// written, in how many messages, and how many bytes are left behind the last record of the capture.
///
/// `Failed` comes only where the count of faults of standard error rose; it then took a beginning of the summary.
#[tactic(auto, unfolding(crate::specs::Summary::summary))]
pub fn summary<E: Sink>(
    stderr: &mut E,
    tally: &Tally,
    flows: u64,
    messages: u64,
    tail: u64,
) -> Result<(), Failed>
    ensures whole { OnOk result
        (HasTaken (side E.held E.faults stderr.old stderr.new) (summary tally.now flows messages tail)) }
    ensures begun { OnErr result
        (HasBegun (side E.held E.faults stderr.old stderr.new) (summary tally.now flows messages tail)) }
    ensures cause { HasCause (E.faults stderr.old) (E.faults stderr.new) result }
{
    let mut text = Text::new();
    append_count(&mut text, "captured", tally.captured);
    append_count(&mut text, "accepted", tally.accepted);
    append_ignored(&mut text, &tally.ignored);
    append_count(&mut text, "octets", tally.octets);
    append_count(&mut text, "flows", flows);
    append_count(&mut text, "messages", messages);
    append_count(&mut text, "tail", tail);
    write_all(stderr, text.as_str().as_bytes())
}

/// Writes the line of a name and a number.
///
/// `Failed` comes only where the count of faults of standard error rose; it then took a beginning of the line.
pub fn count<E: Sink>(stderr: &mut E, name: &str, count: u64) -> Result<(), Failed>
    requires { length name.now ≤ 100 }
    ensures whole { OnOk result (HasTaken (side E.held E.faults stderr.old stderr.new) (count_line name.now count)) }
    ensures begun { OnErr result (HasBegun (side E.held E.faults stderr.old stderr.new) (count_line name.now count)) }
    ensures cause { HasCause (E.faults stderr.old) (E.faults stderr.new) result }
{
    let mut text = Text::new();
    append_count(&mut text, name, count);
    write_all(stderr, text.as_str().as_bytes())
}

/// Appends words and the number behind them.
fn append_numbered(text: &mut Text, words: &str, number: u64)
    requires { array_string_len text.old + (length words.now + 20) ≤ 512 }
    ensures bytes { text.new.bytes ≡ text.old.bytes ++ (words.now ++ decimal number) }
    ensures room { array_string_len text.new ≤ array_string_len text.old + (length words.now + 20) }
{
    text.push_str(words);
    append_number(text, number);
}

/// Appends what is said of a status; nothing where all was done or a write failed.
fn append_fault(text: &mut Text, status: &Status)
    requires { array_string_len text.old + 80 ≤ 512 }
    ensures bytes { text.new.bytes ≡ text.old.bytes ++ fault_text status.now }
    ensures room { array_string_len text.new ≤ array_string_len text.old + 80 }
{
    match status {
        Status::Done | Status::WriteFault => {}
        Status::ReadFault => text.push_str("read fault"),
        Status::Usage => text.push_str("usage: meter, show, make, schedule or selftest"),
        Status::NotCapture => text.push_str("not a capture"),
        Status::LinkUnknown(link) => append_numbered(text, "link type ", *link as u64),
        Status::Damaged(at) => append_numbered(text, "damaged at ", *at),
        Status::TooLarge => text.push_str("too large"),
        Status::NoMemory => text.push_str("no memory"),
        Status::NotStream(fault) => {
            text.push_str("not a stream: ");
            text.push_str(fault.text().as_str());
        }
        Status::BadSchedule(line) => append_numbered(text, "bad schedule line ", *line),
    }
}

/// Writes the line of a status. `Done` and `WriteFault` have none: for them nothing is written.
///
/// `Failed` comes only where the count of faults of standard error rose; it then took a beginning of the line.
pub fn fault_line<E: Sink>(stderr: &mut E, status: &Status) -> Result<(), Failed>
    ensures whole { OnOk result (HasTaken (side E.held E.faults stderr.old stderr.new) (fault_line status.now)) }
    ensures begun { OnErr result (HasBegun (side E.held E.faults stderr.old stderr.new) (fault_line status.now)) }
    ensures cause { HasCause (E.faults stderr.old) (E.faults stderr.new) result }
{
    let mut text = Text::new();
    append_fault(&mut text, status);
    text.push_str("\n");
    write_all(stderr, text.as_str().as_bytes())
}
