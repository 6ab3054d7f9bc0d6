//! The program `romtyalig-pair`: the command line's words, the standard streams, help and hints, and the exit status. It
//! reads a stream of flow records, as `romtyalig meter` writes it, and writes the stream of their biflows.
#![tactic(auto)]

use command_words::OptionsError;
use meter_io::{FirstBytes, StdSink, StdSource};
use pair_program::{PairStatus, run_pair};
use program_help::{Cause, Faults, InputKind, PAIR, Start, begin, explain, explain_words};
use std::alloc::Global;
use std::io;
use std::process::ExitCode;

/// Of what a hint tells more.
fn cause_of(status: &PairStatus) -> Cause {
    match status {
        PairStatus::Usage => Cause::Usage,
        PairStatus::ReadFault => Cause::ReadFault,
        PairStatus::WriteFault => Cause::WriteFault,
        PairStatus::NotStream(_) => Cause::NotExpected(InputKind::Stream),
        PairStatus::Done | PairStatus::TooLarge | PairStatus::NoMemory | PairStatus::NotFlows(_) =>
            Cause::Other,
    }
}

/// Writes why a run refused; of words, reads and writes the hints say it.
fn report(host: &HostRuntime, status: &PairStatus) -> io::Result<()> {
    match status {
        PairStatus::TooLarge => eprintln!(host;
            "romtyalig-pair: the input is larger than 67108864 octets"
        ),
        PairStatus::NoMemory => eprintln!(host; "romtyalig-pair: no memory"),
        PairStatus::NotStream(fault) => {
            let text = fault.text();
            let text = text.as_str();
            eprintln!(host; "romtyalig-pair: not a stream: {text}")
        }
        PairStatus::NotFlows(place) => {
            eprintln!(host;
                "romtyalig-pair: data record {place}, counted from 0, is no flow record of romtyalig meter"
            )
        }
        PairStatus::Done | PairStatus::Usage | PairStatus::ReadFault | PairStatus::WriteFault => Ok(
            (),
        ),
    }
}

fn main(rt: HostRuntime) -> ExitCode {
    let alloc: Global = rt.alloc();
    let words = match begin(&rt, &PAIR) {
        Start::Run(words) => words,
        Start::End(code) => return code,
        Start::Refuse(OptionsError::NotOptions) => {
            explain_words(&rt, &PAIR);
            return ExitCode::from(PairStatus::Usage.code());
        }
        Start::Refuse(OptionsError::NoMemory) => {
            let _reported = report(&rt, &PairStatus::NoMemory);
            return ExitCode::from(PairStatus::NoMemory.code());
        }
    };
    let mut input = FirstBytes::new(StdSource::new(rt.stdin()));
    let mut output = StdSink::new(rt.stdout());
    let status = run_pair(alloc, words.as_slice(), &mut input, &mut output);
    let faults = Faults {
        first: input.first(),
        read: input.inner().last_error(),
        written: output.last_error(),
    };
    let _reported = report(&rt, &status);
    explain(&rt, &PAIR, words.as_slice(), cause_of(&status), &faults);
    ExitCode::from(status.code())
}
