//! Files in memory, by their names.

ghost use Rattle.std.specs.Prelude.{None};

use join_program::Opener;
use meter_io::{Failed, MemSource, Source};

/// A file: its name, its bytes, and which of its reads fail, counted from 1.
#[derive(Drop)]
pub(crate) struct Held {
    pub name: &'static str,
    pub bytes: Vec<u8>,
    pub fails: &'static [u64],
}

/// A file that is open, and how many of its reads failed. The contracts don't say what it has left.
#[derive(Drop)]
pub(crate) struct HeldFile<'a> {
    source: MemSource<'a>,
    faults: u64,
}

impl<'a> Source for HeldFile<'a> {
    ghost left = { λ _. None };

    ghost faults = { λ file. file.faults };

    fn read(&mut self, buf: &mut [u8]) -> Result<usize, Failed> {
        match self.source.read(buf) {
            Ok(count) => Ok(count),
            Err(Failed) => {
                self.faults = self.faults.saturating_add(1);
                Err(Failed)
            }
        }
    }
}

/// Files of which each can be opened by its name. The contracts don't say what they have.
#[derive(Drop)]
pub(crate) struct HeldFiles<'a> {
    files: &'a [Held],
    faults: u64,
}

impl<'a> HeldFiles<'a> {
    /// These files, with no fault counted yet.
    pub(crate) fn new(files: &'a [Held]) -> HeldFiles<'a> {
        HeldFiles { files, faults: 0 }
    }
}

impl<'a> Opener for HeldFiles<'a> {
    type File = HeldFile<'a>;

    ghost contents = { λ _ name. None };

    ghost faults = { λ files. files.faults };

    fn open(&mut self, name: &str) -> Result<HeldFile<'a>, Failed> {
        for file in self.files {
            if file.name == name {
                let source = MemSource::new(file.bytes.as_slice(), 1000, file.fails);
                return Ok(HeldFile { source, faults: 0 });
            }
        }
        self.faults = self.faults.saturating_add(1);
        Err(Failed)
    }

    fn close(&mut self, file: HeldFile<'a>) {
        if file.faults > 0 {
            self.faults = self.faults.saturating_add(1);
        }
    }
}
