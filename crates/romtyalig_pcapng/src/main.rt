//! The program `romtyalig-pcapng`: the command line's words, the standard streams, the summary, help and hints, and the
//! exit status. It reads a pcapng file and writes its packets as a classic capture, for `romtyalig meter` to read.
#![tactic(auto)]

use command_words::OptionsError;
use meter_io::{FirstBytes, StdSink, StdSource};
use pcapng_reader::{PngStatus, PngTally, run_tallied};
use program_help::{Cause, Faults, InputKind, PCAPNG, Start, begin, explain, explain_words};
use std::alloc::Global;
use std::io;
use std::process::ExitCode;

/// Writes the summary to standard error: a line for each number of the tally, and for each link type that isn't read.
fn write_summary(host: &HostRuntime, tally: &PngTally) -> io::Result<()> {
    let lines = [
        ("blocks", tally.blocks),
        ("packets", tally.packets),
        ("written", tally.written),
        ("not-ip", tally.not_ip),
        ("short", tally.short),
        ("bad-header", tally.bad_header),
        ("short-transport", tally.short_transport),
        ("bad-time", tally.bad_time),
        ("tail", tally.tail),
    ];
    for (name, number) in lines {
        eprintln!(host; "romtyalig-pcapng: {name} {number}")?;
    }
    for (link, packets) in tally.unread.iter().enumerate() {
        if *packets > 0 {
            eprintln!(host; "romtyalig-pcapng: link-type-{link} {packets}")?;
        }
    }
    Ok(())
}

/// Ends a run that is done with its summary. `WriteFault`: the summary can't be written.
fn summarize(host: &HostRuntime, tally: &PngTally) -> PngStatus {
    match write_summary(host, tally) {
        Ok(()) => PngStatus::Done,
        Err(_) => PngStatus::WriteFault,
    }
}

/// Of what a hint tells more.
fn cause_of(status: &PngStatus) -> Cause {
    match status {
        PngStatus::Usage => Cause::Usage,
        PngStatus::ReadFault => Cause::ReadFault,
        PngStatus::WriteFault => Cause::WriteFault,
        PngStatus::NotPcapng => Cause::NotExpected(InputKind::Pcapng),
        PngStatus::Done | PngStatus::BadBlock(_) | PngStatus::TooLarge | PngStatus::NoMemory =>
            Cause::Other,
    }
}

/// Writes why a run refused; of words, reads and writes the hints say it.
fn report(host: &HostRuntime, status: &PngStatus) -> io::Result<()> {
    match status {
        PngStatus::NotPcapng => eprintln!(host; "romtyalig-pcapng: not a pcapng file"),
        PngStatus::BadBlock(at) => eprintln!(host; "romtyalig-pcapng: bad block at {at}"),
        PngStatus::TooLarge => eprintln!(host;
            "romtyalig-pcapng: the input is larger than 1073741824 octets"
        ),
        PngStatus::NoMemory => eprintln!(host; "romtyalig-pcapng: no memory"),
        PngStatus::Done | PngStatus::Usage | PngStatus::ReadFault | PngStatus::WriteFault => Ok(()),
    }
}

fn main(rt: HostRuntime) -> ExitCode {
    let alloc: Global = rt.alloc();
    let words = match begin(&rt, &PCAPNG) {
        Start::Run(words) => words,
        Start::End(code) => return code,
        Start::Refuse(OptionsError::NotOptions) => {
            explain_words(&rt, &PCAPNG);
            return ExitCode::from(PngStatus::Usage.code());
        }
        Start::Refuse(OptionsError::NoMemory) => {
            let _reported = report(&rt, &PngStatus::NoMemory);
            return ExitCode::from(PngStatus::NoMemory.code());
        }
    };
    let mut input = FirstBytes::new(StdSource::new(rt.stdin()));
    let mut output = StdSink::new(rt.stdout());
    let status = match run_tallied(alloc, words.as_slice(), &mut input, &mut output) {
        Ok(tally) => summarize(&rt, &tally),
        Err(status) => status,
    };
    let faults = Faults {
        first: input.first(),
        read: input.inner().last_error(),
        written: output.last_error(),
    };
    let _reported = report(&rt, &status);
    explain(&rt, &PCAPNG, words.as_slice(), cause_of(&status), &faults);
    ExitCode::from(status.code())
}
