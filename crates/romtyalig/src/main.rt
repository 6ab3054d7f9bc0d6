//! The program `romtyalig`: the command line's words, the standard streams, help and hints, and the exit status.
#![tactic(auto)]

use command_words::OptionsError;
use flow_cache::PebrCaches;
use meter_io::{FirstBytes, Sink, StdSink, StdSource};
use meter_program::{Status, fault_line, run};
use meter_workers::OpenGate;
use program_help::{Cause, Faults, InputKind, METER, Start, begin, explain, explain_words};
use std::alloc::Global;
use std::process::ExitCode;

/// Writes the line of a refusal.
fn refuse<E: Sink>(stderr: &mut E, status: Status) -> Status {
    let _reported = fault_line(stderr, &status);
    status
}

/// Of what a hint tells more.
fn cause_of(status: &Status) -> Cause {
    match status {
        Status::Usage => Cause::Usage,
        Status::ReadFault => Cause::ReadFault,
        Status::WriteFault => Cause::WriteFault,
        Status::NotCapture => Cause::NotExpected(InputKind::Capture),
        Status::NotStream(_) => Cause::NotExpected(InputKind::Stream),
        Status::LinkUnknown(link) => Cause::LinkUnknown(*link),
        Status::Done
        | Status::Damaged(_)
        | Status::TooLarge
        | Status::NoMemory
        | Status::BadSchedule(_) => Cause::Other,
    }
}

fn main(rt: HostRuntime) -> ExitCode {
    let alloc: Global = rt.alloc();
    let mut stderr = StdSink::new(rt.stderr());
    let words = match begin(&rt, &METER) {
        Start::Run(words) => words,
        Start::End(code) => return code,
        Start::Refuse(OptionsError::NotOptions) => {
            let status = refuse(&mut stderr, Status::Usage);
            explain_words(&rt, &METER);
            return ExitCode::from(status.code());
        }
        Start::Refuse(OptionsError::NoMemory) => {
            return ExitCode::from(refuse(&mut stderr, Status::NoMemory).code());
        }
    };
    let mut input = FirstBytes::new(StdSource::new(rt.stdin()));
    let mut output = StdSink::new(rt.stdout());
    let status = run(
        &rt,
        alloc,
        words.as_slice(),
        &mut input,
        &mut output,
        &mut stderr,
        &mut PebrCaches::new(),
        &OpenGate,
    );
    let faults = Faults {
        first: input.first(),
        read: input.inner().last_error(),
        written: output.last_error(),
    };
    explain(&rt, &METER, words.as_slice(), cause_of(&status), &faults);
    ExitCode::from(status.code())
}
