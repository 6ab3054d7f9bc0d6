//! The words of the command line.

use crate::reading::OptionsError;
use std::alloc::AllocError;
use std::env;
use std::io::ErrorKind;

/// The words behind the program's name, as the system gives them.
///
/// `NotOptions` where they can't be read as UTF-8: no command of these programs takes a word that isn't. `NoMemory`
/// where memory ran out.
pub fn words_of(rt: &HostRuntime) -> Result<Vec<String>, OptionsError> {
    match env::args(rt) {
        Ok(words) => words
            .skip(1)
            .collect(rt.alloc())
            .map_err(|_error: AllocError| OptionsError::NoMemory),
        Err(error) if error.kind() == ErrorKind::OutOfMemory => Err(OptionsError::NoMemory),
        Err(_) => Err(OptionsError::NotOptions),
    }
}
