//! The program `romtyalig-watch`: the command line's words, the standard streams, help and hints, and the exit status. It
//! meters a capture, and asks for open flows meanwhile.
#![tactic(auto)]

use command_words::OptionsError;
use meter_io::{FirstBytes, StdSink, StdSource};
use meter_workers::OpenGate;
use program_help::{Cause, Faults, InputKind, Start, WATCH, begin, explain, explain_words};
use std::alloc::Global;
use std::io;
use std::process::ExitCode;
use watch_program::{WatchStatus, run_watch};

/// Of what a hint tells more.
fn cause_of(status: &WatchStatus) -> Cause {
    match status {
        WatchStatus::Usage => Cause::Usage,
        WatchStatus::ReadFault => Cause::ReadFault,
        WatchStatus::WriteFault => Cause::WriteFault,
        WatchStatus::NotCapture => Cause::NotExpected(InputKind::Capture),
        WatchStatus::LinkUnknown(link) => Cause::LinkUnknown(*link),
        WatchStatus::Done
        | WatchStatus::Damaged(_)
        | WatchStatus::TooLarge
        | WatchStatus::NoMemory => Cause::Other,
    }
}

/// Writes why a run refused; of words, reads and writes the hints say it.
fn report(host: &HostRuntime, status: &WatchStatus) -> io::Result<()> {
    match status {
        WatchStatus::NotCapture => eprintln!(host; "romtyalig-watch: not a capture"),
        WatchStatus::LinkUnknown(link) => eprintln!(host; "romtyalig-watch: link type {link}"),
        WatchStatus::Damaged(at) => eprintln!(host; "romtyalig-watch: damaged at {at}"),
        WatchStatus::TooLarge => eprintln!(host;
            "romtyalig-watch: the input is larger than 1073741824 octets"
        ),
        WatchStatus::NoMemory => eprintln!(host; "romtyalig-watch: no memory"),
        WatchStatus::Done | WatchStatus::Usage | WatchStatus::ReadFault | WatchStatus::WriteFault =>
            Ok(()),
    }
}

fn main(rt: HostRuntime) -> ExitCode {
    let alloc: Global = rt.alloc();
    let words = match begin(&rt, &WATCH) {
        Start::Run(words) => words,
        Start::End(code) => return code,
        Start::Refuse(OptionsError::NotOptions) => {
            explain_words(&rt, &WATCH);
            return ExitCode::from(WatchStatus::Usage.code());
        }
        Start::Refuse(OptionsError::NoMemory) => {
            let _reported = report(&rt, &WatchStatus::NoMemory);
            return ExitCode::from(WatchStatus::NoMemory.code());
        }
    };
    let mut input = FirstBytes::new(StdSource::new(rt.stdin()));
    let mut output = StdSink::new(rt.stdout());
    let status = run_watch(
        &rt,
        alloc,
        words.as_slice(),
        &mut input,
        &mut output,
        &OpenGate,
    );
    let faults = Faults {
        first: input.first(),
        read: input.inner().last_error(),
        written: output.last_error(),
    };
    let _reported = report(&rt, &status);
    explain(&rt, &WATCH, words.as_slice(), cause_of(&status), &faults);
    ExitCode::from(status.code())
}
