//! Reading files, one after the other.

ghost use Rattle.std.specs.Prelude.{◌≡◌, ◌≤◌, ◌++◌, List, ℕ, map, IfOk, IfErr, IsErrOf, Some};
ghost use Rattle.std.specs.String.{string_bytes};
ghost use Rattle.meter_io.specs.Causes.{Rose};
ghost use Rattle.meter_io.specs.Sides.{side};
ghost use Rattle.record_ledger.specs.declared.record.FlowRecord.{FlowRecord};
ghost use Rattle.join_program.specs.Joined.{together};
ghost use Rattle.join_program.specs.Outcome.{HasGiven, HaveGiven, files_seen};
ghost use Rattle.join_program.specs.Filed.{HasBegun, HasGivenAll, TakingFails};
ghost use Rattle.join_program.specs.Taking.{IsTaken, share_of, asked_of, FileFails, FilesFail};

use crate::file_error::FileError;
use crate::file_taker::{Begun, FileTaker};
use crate::opener::Opener;
use crate::settings::{JoinSettings, Share};
use crate::status::{FileFault, JoinStatus};
use crate::taken::Taken;
use crate::taking::nothing_taken;
use capture_input::Window;
use ipfix_reader::laws::records_are_few;
use meter_io::{Failed, Source};
use std::alloc::Global;
use std::marker::{Brand, PhantomData};
use stream_input::{open_window, read_stream};

/// The most bytes of a file.
const FILE_LIMIT: u64 = 1 << 32;

/// Takes the records of a source, which is one file, in addition to `taken`. `K` says what `taken` was taken from.
fn take_from_as<K: Begun, S: Source>(
    alloc: Global,
    source: &mut S,
    window: &mut Window,
    share: Option<Share>,
    taken: Taken,
) -> Result<Taken, FileError>
    requires size { window.old.size ≡ 262184 }
    requires start { K.start ≡ Some taken }
    requires share { share_of share ≡ K.share }
    ensures size { window.new.size ≡ 262184 }
    ensures taken { IfOk result (λ kept. (flows : List FlowRecord)
        × HasGivenAll (side S.left S.faults source.old source.new) flows
        × ((before : List FlowRecord) → HasBegun K.start K.share before
        → IsTaken (share_of share) (before ++ flows) kept)) }
    ensures wrong { IfErr result (λ error. (before : List FlowRecord) → HasBegun K.start K.share before
        → TakingFails (share_of share) before (side S.left S.faults source.old source.new) error) }
    ensures cause { IsErrOf result (FileError.Fault FileFault.ReadFault)
        → Rose (S.faults source.old) (S.faults source.new) }
    ensures later { S.faults source.old ≤ S.faults source.new }
{
    records_are_few();
    let mut taker = FileTaker::<K> {
        taken,
        alloc,
        share,
        flows: 0,
        has_other: false,
        are_many: false,
        begun: PhantomData,
    };
    read_stream(alloc, source, window, FILE_LIMIT, &mut taker)?;
    if taker.has_other {
        return Err(FileError::Fault(FileFault::NotFlows(taker.flows)));
    }
    if taker.are_many {
        return Err(FileError::Fault(FileFault::TooMany));
    }
    let FileTaker { taken, .. } = taker;
    Ok(taken)
}

/// Takes the records of a source, which is one file, in addition to `taken`.
fn take_from<S: Source>(
    alloc: Global,
    source: &mut S,
    window: &mut Window,
    share: Option<Share>,
    taken: Taken,
) -> Result<Taken, FileError>
    requires { window.old.size ≡ 262184 }
    ensures size { window.new.size ≡ 262184 }
    ensures taken { IfOk result (λ kept. (flows : List FlowRecord)
        × HasGivenAll (side S.left S.faults source.old source.new) flows
        × ((before : List FlowRecord) → IsTaken (share_of share) before taken
        → IsTaken (share_of share) (before ++ flows) kept)) }
    ensures wrong { IfErr result (λ error. (before : List FlowRecord) → IsTaken (share_of share) before taken
        → TakingFails (share_of share) before (side S.left S.faults source.old source.new) error) }
    ensures cause { IsErrOf result (FileError.Fault FileFault.ReadFault)
        → Rose (S.faults source.old) (S.faults source.new) }
    ensures later { S.faults source.old ≤ S.faults source.new }
{
    take_from_as::<Brand, S>(alloc, source, window, share, taken)
}

/// Takes the records of the file with this name, in addition to `taken`.
fn take_file<O: Opener>(
    alloc: Global,
    opener: &mut O,
    name: &str,
    window: &mut Window,
    share: Option<Share>,
    taken: Taken,
) -> Result<Taken, FileError>
    requires { window.old.size ≡ 262184 }
    ensures size { window.new.size ≡ 262184 }
    ensures same { O.contents opener.new ≡ O.contents opener.old }
    ensures later { O.faults opener.old ≤ O.faults opener.new }
    ensures taken { IfOk result (λ kept. (flows : List FlowRecord) × HasGiven (O.contents opener.old) name.now flows
        × ((before : List FlowRecord) → IsTaken (share_of share) before taken
        → IsTaken (share_of share) (before ++ flows) kept)) }
    ensures wrong { IfErr result (λ error. (before : List FlowRecord) → IsTaken (share_of share) before taken
        → FileFails (share_of share) before (O.contents opener.old name.now) error) }
    ensures broken { IsErrOf result (FileError.Fault FileFault.ReadFault)
        → Rose (O.faults opener.old) (O.faults opener.new) }
{
    let mut file = match opener.open(name) {
        Ok(file) => file,
        Err(Failed) => return Err(FileError::Fault(FileFault::ReadFault)),
    };
    let kept = take_from(alloc, &mut file, window, share, taken);
    opener.close(file);
    kept
}

/// Takes the records of all files, one file after the other.
pub(crate) fn take_files<O: Opener>(
    alloc: Global,
    opener: &mut O,
    settings: &JoinSettings,
    names: &[String],
) -> Result<Taken, JoinStatus>
    ensures taken { IfOk result (λ taken. (inputs : List (List FlowRecord))
        × HaveGiven (O.contents opener.old) (map string_bytes names.now) inputs
        × IsTaken (share_of settings.now.share) (together inputs) taken) }
    ensures wrong { IfErr result (FilesFail (asked_of settings.now (map string_bytes names.now))
        (files_seen O.contents O.faults opener.old opener.new)) }
{
    let Ok(mut window) = open_window(alloc) else {
        return Err(JoinStatus::NoMemory);
    };
    let mut taken = nothing_taken(alloc);
    for place in 0..names.len() {
        let name = names[place].as_str();
        match take_file(alloc, opener, name, &mut window, settings.share, taken) {
            Ok(kept) => taken = kept,
            Err(FileError::NoMemory) => return Err(JoinStatus::NoMemory),
            Err(FileError::Fault(fault)) => {
                let place = place as u64;
                return Err(JoinStatus::Refused { place, fault });
            }
        }
    }
    Ok(taken)
}
