//! What is told besides: words that may be meant otherwise, and what the system said of a file.

use join_program::FileFault;
use program_help::{JOIN, tell};
use std::alloc::Global;
use std::io;

/// The words that are files: those behind the command's word, the options and their values.
fn files_in(words: &[String]) -> &[String] {
    let mut is_value = true;
    for (place, word) in words.iter().enumerate() {
        if is_value {
            is_value = false;
        } else if word.as_str().starts_with("--") {
            is_value = !word.as_str().contains('=');
        } else {
            return words.split_at(place).1;
        }
    }
    &[]
}

/// Warns of the first file that is named twice, since its records count twice. Without memory to find out, nothing is
/// told.
pub fn warn_of_twice(host: &HostRuntime, words: &[String]) {
    let alloc: Global = host.alloc();
    let mut names = Vec::new(alloc);
    for name in files_in(words) {
        if names.push(name.as_str()).is_err() {
            return;
        }
    }
    if names.sort().is_err() {
        return;
    }
    let mut before = "";
    for name in names.as_slice() {
        if *name == before {
            if let Ok(line) = format!(in alloc;
                "warning: {name} is named twice, so its records count twice"
            ) {
                tell(host, &JOIN, line.as_str());
            }
            return;
        }
        before = *name;
    }
}

/// What a file's fault means, if the system said nothing of it.
fn meaning_of(fault: &FileFault) -> &'static str {
    match fault {
        FileFault::ReadFault => "that file can't be opened or read; nothing was written",
        FileFault::TooLarge => "that file is larger than 4294967296 octets; nothing was written",
        FileFault::NotStream(_) =>
            "that file is no IPFIX stream, as romtyalig meter writes it; nothing was written",
        FileFault::NotFlows(_) =>
            "that file has a record that romtyalig meter doesn't write; nothing was written",
        FileFault::TooMany =>
            "with that file a record would count beyond 2^64 - 1; nothing was written",
    }
}

/// Tells of a word that begins with two hyphens and is taken as a file, since one stands before it.
fn tell_of_options(host: &HostRuntime, words: &[String]) {
    let alloc: Global = host.alloc();
    for word in files_in(words) {
        if word.as_str().starts_with("--") {
            if let Ok(line) = format!(in alloc;
                "{word} stands behind a file, so it is taken as one: options come first"
            ) {
                tell(host, &JOIN, line.as_str());
            }
            return;
        }
    }
}

/// Tells what a refused file's fault means, or what the system said of it, behind the run's own line, which names the
/// file.
pub fn explain_file(
    host: &HostRuntime,
    words: &[String],
    fault: &FileFault,
    error: Option<io::Error>,
) {
    let alloc: Global = host.alloc();
    match (fault, error) {
        (FileFault::ReadFault, Some(error)) => {
            if let Ok(line) = format!(in alloc; "can't read that file: {error}") {
                tell(host, &JOIN, line.as_str());
            }
        }
        _ => tell(host, &JOIN, meaning_of(fault)),
    }
    tell_of_options(host, words);
}
