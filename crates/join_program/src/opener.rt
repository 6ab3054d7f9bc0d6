//! Files by their names.

ghost use Rattle.std.specs.Prelude.{◌≡◌, ◌≤◌, List, ℕ, IfOk};
ghost use Rattle.std.specs.declared.option.Option.{Option};
ghost use Rattle.meter_io.specs.Causes.{HasCause, Rose};

use meter_io::{Failed, Source};

/// Opens files by their names, and closes them.
pub trait Opener {
    /// A file that is open.
    type File: Source + Drop;

    /// The bytes of the file with a name, where they are known.
    ghost contents: { Self → List ℕ → Option (List ℕ) };

    /// A count of faults: it rises where a file couldn't be opened, and where a file is closed of which a read failed.
    /// It never falls.
    ghost faults: { Self → ℕ };

    /// Opens the file with this name. All its bytes are still left, and no read of it has failed yet.
    ///
    /// `Failed` comes only where the count of faults rose in this call.
    fn open(&mut self, name: &str) -> Result<Self::File, Failed>
        ensures same { contents self.new ≡ contents self.old }
        ensures begins { IfOk result (λ file. Self.File.left file ≡ contents self.old name.now) }
        ensures fresh { IfOk result (λ file. Self.File.faults file ≡ 0) }
        ensures cause { HasCause (faults self.old) (faults self.new) result };

    /// Closes the file. The count of faults rises exactly where a read of the file failed.
    fn close(&mut self, file: Self::File)
        ensures same { contents self.new ≡ contents self.old }
        ensures later { faults self.old ≤ faults self.new }
        ensures quiet { Self.File.faults file ≡ 0 → faults self.new ≡ faults self.old }
        ensures risen { 1 ≤ Self.File.faults file → Rose (faults self.old) (faults self.new) };
}
