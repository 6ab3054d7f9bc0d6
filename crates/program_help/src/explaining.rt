//! What is told of a run that refused, behind the line that the run itself reported.

use crate::input::{InputKind, kind_of};
use crate::lines::tell;
use crate::mistake::tell_mistake;
use crate::program::Program;
use std::alloc::Global;
use std::io::{Error, ErrorKind};

/// Why a run ended without being done, as far as more can be said of it.
#[derive(Clone, Copy, Debug, PartialEq, Eq)]
pub enum Cause {
    /// The words are no command line of the program.
    Usage,
    /// A read failed.
    ReadFault,
    /// A write failed.
    WriteFault,
    /// The input isn't of this kind, which the command reads.
    NotExpected(InputKind),
    /// The capture has this link type, which isn't read.
    LinkUnknown(u32),
    /// Another, of which the run's own line says all.
    Other,
}

/// What is known of a run that ended.
#[derive(Drop)]
pub struct Faults<'a> {
    /// The first octets of standard input, 16 at most.
    pub first: &'a [u8],
    /// The error of the last read that failed.
    pub read: Option<Error>,
    /// The error of the last write that failed.
    pub written: Option<Error>,
}

/// The line on an input of this kind: what it is, and which command reads it.
fn input_hint(kind: InputKind) -> &'static str {
    match kind {
        InputKind::Nothing => "the input has no octets at all",
        InputKind::Capture => "the input is a capture; it is read by: romtyalig meter < FILE",
        InputKind::Pcapng =>
            "the input is pcapng; it is read by: romtyalig-pcapng < FILE | romtyalig meter",
        InputKind::Stream =>
            "the input looks like an IPFIX stream; it is read by: romtyalig show < FILE",
        InputKind::Gzip => "the input is compressed by gzip; first: zcat FILE |",
        InputKind::Zstd => "the input is compressed by zstd; first: zstdcat FILE |",
        InputKind::Xz => "the input is compressed by xz; first: xzcat FILE |",
        InputKind::Bzip2 => "the input is compressed by bzip2; first: bzcat FILE |",
        InputKind::Unknown => "the input begins as none of the files that these programs read",
    }
}

/// Tells what an input is that isn't what it should be, by its first octets.
fn tell_input(rt: &HostRuntime, program: &Program, first: &[u8], wanted: InputKind) {
    let kind = kind_of(first);
    let hint = if kind == wanted {
        "the input begins as one that is read here, but is cut off or damaged"
    } else {
        input_hint(kind)
    };
    tell(rt, program, hint);
}

/// Tells where to look: the help of the command that the first word names, or of the program.
fn tell_help(rt: &HostRuntime, program: &Program, words: &[String]) {
    let alloc: Global = rt.alloc();
    let name = program.name;
    let command = match words.first() {
        Some(first) => program.command(first.as_str()),
        None => None,
    };
    let line = match command {
        Some(text) if program.only_command().is_none() => format!(in alloc;
            "try '{name} {} --help'",
            text.word
        ),
        _ => format!(in alloc; "try '{name} --help'"),
    };
    if let Ok(line) = line {
        tell(rt, program, line.as_str());
    }
}

/// Tells what the system said of a read or a write that failed.
pub(crate) fn tell_error(rt: &HostRuntime, program: &Program, what: &str, error: Option<Error>) {
    let Some(error) = error else {
        return;
    };
    if error.kind() == ErrorKind::BrokenPipe {
        return;
    }
    let alloc: Global = rt.alloc();
    if let Ok(line) = format!(in alloc; "can't {what}: {error}") {
        tell(rt, program, line.as_str());
    }
}

/// Tells which recipe reads a link type.
fn tell_link(rt: &HostRuntime, program: &Program, link: u32) {
    let hint = match link {
        0 | 108 =>
            "BSD loopback; see 'Other link types and tunnels' in OPERATORS: its link header is cut off by editcap",
        276 =>
            "Linux cooked, version 2, what 'tcpdump -i any' writes; see 'Other link types and tunnels' in OPERATORS",
        _ =>
            "read are 1 (Ethernet), 101 (IP) and 113 (Linux cooked, version 1); see 'Other link types and tunnels' in OPERATORS",
    };
    tell(rt, program, hint);
}

/// Writes to standard error why words that can't be read as text are refused, and where to look.
pub fn explain_words(rt: &HostRuntime, program: &Program) {
    tell(rt, program, "a word of the command line is not UTF-8");
    tell_help(rt, program, &[]);
}

/// Writes to standard error what helps after a run that ended for this cause: lines that begin with the program's name
/// and a colon. A closed pipe stays silent. What can't be written, or finds no memory, is left out.
pub fn explain(
    rt: &HostRuntime,
    program: &Program,
    words: &[String],
    cause: Cause,
    faults: &Faults<'_>,
) {
    match cause {
        Cause::Usage => {
            let _told = tell_mistake(rt, program, words);
            tell_help(rt, program, words);
        }
        Cause::ReadFault => tell_error(rt, program, "read the input", faults.read),
        Cause::WriteFault => tell_error(rt, program, "write the output", faults.written),
        Cause::NotExpected(wanted) => tell_input(rt, program, faults.first, wanted),
        Cause::LinkUnknown(link) => tell_link(rt, program, link),
        Cause::Other => {}
    }
}
