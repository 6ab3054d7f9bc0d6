//! The files of the machine, and standard input.

ghost use Rattle.std.specs.Prelude.{◌≡◌, ◌≤◌, None};
ghost use Rattle.std.specs.Io.{ReadsAtMost};
ghost use Rattle.meter_io.specs.Causes.{one_more};

use join_program::Opener;
use meter_io::{Failed, Source};
use std::fs::File;
use std::io::{Read, Stdin};
use std::{fs, io};

/// Where the bytes of an open file come from.
#[derive(Drop)]
enum Input {
    Named(File),
    Standard(Stdin),
}

/// A file that is open, how many of its reads failed, and what the system said of the last that did. What a file has left
/// isn't told.
#[derive(Drop)]
pub struct OpenFile {
    input: Input,
    faults: u64,
    last: Option<io::Error>,
}

/// Counts a failed call, unless the count is at its greatest value.
fn count_fault(faults: &mut u64) -> Failed
    ensures counted { faults.new ≡ one_more faults.old }
    ensures later { faults.old ≤ faults.new }
{
    *faults = faults.saturating_add(1);
    Failed
}

/// Reads some bytes.
fn read_some(input: &mut Input, buf: &mut [u8]) -> io::Result<usize>
    ensures { ReadsAtMost result buf.new }
{
    match input {
        Input::Named(file) => file.read(buf),
        Input::Standard(stdin) => stdin.read(buf),
    }
}

impl Source for OpenFile {
    ghost left = { λ _. None };

    ghost faults = { λ file. file.faults };

    fn read(&mut self, buf: &mut [u8]) -> Result<usize, Failed> {
        match read_some(&mut self.input, buf) {
            Ok(count) => Ok(count),
            Err(error) => {
                self.last = Some(error);
                Err(count_fault(&mut self.faults))
            }
        }
    }
}

/// The files of the machine by their names; `-` is standard input.
#[derive(Drop)]
pub struct HostFiles<'a> {
    rt: &'a HostRuntime,
    faults: u64,
    last: Option<io::Error>,
}

impl<'a> HostFiles<'a> {
    /// No file is open yet.
    pub fn new(rt: &'a HostRuntime) -> HostFiles<'a> {
        HostFiles {
            rt,
            faults: 0,
            last: None,
        }
    }

    /// What the system said of the last file that couldn't be opened or read; `None` if each could.
    pub fn last_error(&self) -> Option<io::Error> {
        self.last
    }

    /// Opens the file of this name.
    fn input(&self, name: &str) -> io::Result<Input> {
        if name == "-" {
            Ok(Input::Standard(self.rt.stdin()))
        } else {
            Ok(Input::Named(fs::open(self.rt, name)?))
        }
    }
}

impl<'a> Opener for HostFiles<'a> {
    type File = OpenFile;

    ghost contents = { λ _ name. None };

    ghost faults = { λ files. files.faults };

    fn open(&mut self, name: &str) -> Result<OpenFile, Failed> {
        match self.input(name) {
            Ok(input) => Ok(OpenFile {
                input,
                faults: 0,
                last: None,
            }),
            Err(error) => {
                self.last = Some(error);
                Err(count_fault(&mut self.faults))
            }
        }
    }

    fn close(&mut self, file: OpenFile) {
        if file.faults > 0 {
            self.last = file.last;
            self.faults = self.faults.saturating_add(1);
        }
    }
}
