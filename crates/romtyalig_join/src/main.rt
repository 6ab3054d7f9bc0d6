//! The program `romtyalig-join`: the command line's words, the files, the standard streams, help and hints, and the exit
//! status. It reads streams of flow records, as `romtyalig meter` writes them, and writes the one stream that they
//! become.
#![tactic(auto)]

mod hints;
mod host_files;

use command_words::OptionsError;
use hints::{explain_file, warn_of_twice};
use host_files::HostFiles;
use join_program::{JoinStatus, run_join};
use meter_io::StdSink;
use program_help::{Cause, Faults, JOIN, Start, begin, explain, explain_words, tell};
use std::alloc::Global;
use std::process::ExitCode;

/// Of what a hint tells more.
fn cause_of(status: &JoinStatus) -> Cause {
    match status {
        JoinStatus::Usage => Cause::Usage,
        JoinStatus::WriteFault => Cause::WriteFault,
        JoinStatus::Done | JoinStatus::NoMemory | JoinStatus::Refused { .. } => Cause::Other,
    }
}

fn main(rt: HostRuntime) -> ExitCode {
    let alloc: Global = rt.alloc();
    let words = match begin(&rt, &JOIN) {
        Start::Run(words) => words,
        Start::End(code) => return code,
        Start::Refuse(OptionsError::NotOptions) => {
            explain_words(&rt, &JOIN);
            return ExitCode::from(JoinStatus::Usage.code());
        }
        Start::Refuse(OptionsError::NoMemory) => {
            tell(&rt, &JOIN, "no memory");
            return ExitCode::from(JoinStatus::NoMemory.code());
        }
    };
    let mut output = StdSink::new(rt.stdout());
    let mut stderr = StdSink::new(rt.stderr());
    let mut files = HostFiles::new(&rt);
    let status = run_join(
        &rt,
        alloc,
        words.as_slice(),
        &mut files,
        &mut output,
        &mut stderr,
    );
    let faults = Faults {
        first: &[],
        read: None,
        written: output.last_error(),
    };
    match &status {
        JoinStatus::Done => warn_of_twice(&rt, words.as_slice()),
        JoinStatus::NoMemory => tell(&rt, &JOIN, "no memory"),
        JoinStatus::Refused { fault, .. } => explain_file(
            &rt,
            words.as_slice(),
            fault,
            files.last_error(),
        ),
        JoinStatus::Usage | JoinStatus::WriteFault => {}
    }
    explain(&rt, &JOIN, words.as_slice(), cause_of(&status), &faults);
    ExitCode::from(status.code())
}
