//! Laws on files that are read in parts, for proofs in the crates above. The call does nothing.

ghost use Rattle.std.specs.Prelude.{◌≡◌, ◌+◌, ◌≤◌, ◌<◌, ◌++◌, ◌∷◌, [], ℕ, List, Some, None, length, flat_map};
ghost use Rattle.std.specs.List.{AllByRecursion};
ghost use Rattle.std.specs.Option.{option_map};
ghost use Rattle.pcap_reader.specs.File.{CaptureFile, capture_file, file_header_len};
ghost use Rattle.pcap_reader.specs.Records.{most_captured, records_of, rest_of, rest_offset, tail_of, damage_of};
ghost use Rattle.pcap_reader.specs.Parts.{grown_file, part_with, place_behind, IsReadIn, GoesOn, GrowsFromFront};
ghost use Rattle.pcap_reader.specs.Parts.{BeginsWithMore};

/// The law of parts. The records of a file are those of its parts in order, where each part but the first begins with
/// the rest of the one before, and the file's rest is the last part's. Damage in a part is the file's damage, its
/// offset counted from where the part begins in the file. A part at least as long as the longest record with its header
/// begins with a record or with damage.
pub fn parts_law()
    ensures records { (file : CaptureFile) (parts : List CaptureFile) → file.start ≤ length file.bytes
        → IsReadIn file parts
        → records_of file ≡ flat_map records_of parts }
    ensures rest { (file : CaptureFile) (parts earlier : List CaptureFile) (last : CaptureFile)
        → file.start ≤ length file.bytes
        → IsReadIn file parts → parts ≡ earlier ++ last ∷ [] → rest_of file ≡ rest_of last }
    ensures damage { (file : CaptureFile) (parts earlier later : List CaptureFile) (part : CaptureFile) (at : ℕ)
        → file.start ≤ length file.bytes → IsReadIn file parts → parts ≡ earlier ++ part ∷ later
        → damage_of part ≡ Some at
        → damage_of file ≡ Some (place_behind file earlier + at) }
    ensures sound { (file : CaptureFile) (parts : List CaptureFile) → file.start ≤ length file.bytes
        → IsReadIn file parts
        → AllByRecursion (λ part. damage_of part ≡ None) parts → damage_of file ≡ None }

    // One part more: the file so far, and more bytes.
    ensures next { (file : CaptureFile) (more : List ℕ) → file.start ≤ length file.bytes → GoesOn file more }
    ensures stays { (file : CaptureFile) (more : List ℕ) (at : ℕ) → file.start ≤ length file.bytes
        → damage_of file ≡ Some at
        → damage_of (grown_file file more) ≡ Some at }
    ensures header { (bytes more : List ℕ) → file_header_len ≤ length bytes
        → capture_file (bytes ++ more) ≡ option_map (λ file. grown_file file more) (capture_file bytes) }

    ensures front { (bytes : List ℕ) (file : CaptureFile) → capture_file bytes ≡ Some file → GrowsFromFront file }

    // A part with room for the longest record.
    ensures full { (file : CaptureFile) → file.start + 16 + most_captured ≤ length file.bytes → BeginsWithMore file }
    ensures short { (file : CaptureFile) → file.start ≤ length file.bytes → damage_of file ≡ None
        → tail_of file < 16 + most_captured }
    ensures whole { (file : CaptureFile) → file.start ≤ length file.bytes
        → rest_offset file + tail_of file ≡ length file.bytes }
{}
