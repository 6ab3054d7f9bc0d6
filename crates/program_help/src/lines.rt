//! Lines to standard error, each of which begins with the program's name and a colon.

use crate::program::Program;

/// Writes a line to standard error behind the program's name and a colon. A line that can't be written is left out.
pub fn tell(rt: &HostRuntime, program: &Program, line: &str) {
    let name = program.name;
    let _told = eprintln!(rt; "{name}: {line}");
}
