//! Laws on the definitions, for proofs in the crates above. The calls do nothing.

ghost use Rattle.std.specs.Prelude.{◌≡◌, ◌+◌, ◌++◌, ℕ, List, [], ◌∷◌, Option, Result, Some, IsPermutation, length};
ghost use Rattle.std.specs.Prelude.{take, slice_get};
ghost use Rattle.pcap_reader.specs.File.{CaptureFile};
ghost use Rattle.pcap_reader.specs.Records.{PacketRecord, records_of};
ghost use Rattle.packet_accept.specs.declared.packet.Packet.{Packet};
ghost use Rattle.packet_accept.specs.declared.ignored.Ignored.{Ignored};
ghost use Rattle.packet_accept.specs.Acceptance.{accepted_packet};
ghost use Rattle.packet_accept.specs.Packets.{answers_of, packets_in, packets_of};
ghost use Rattle.packet_accept.specs.Clock.{IsClock, later_clock};

/// A file has one answer for each of its records, at the record's place. The packets of two lists of answers, one
/// behind the other, are those of the first and then those of the second, and permuted answers have permuted packets.
pub fn packets_law()
    ensures count { (file : CaptureFile) → length (answers_of file) ≡ length (records_of file) }
    ensures place { (file : CaptureFile) (n : ℕ) (rec : PacketRecord) → slice_get (records_of file) n ≡ Some rec
        → slice_get (answers_of file) n ≡ Some (accepted_packet file.link file.nanos rec n) }
    // The first records, and one more.
    ensures next { (file : CaptureFile) (n : ℕ) (rec : PacketRecord) → slice_get (records_of file) n ≡ Some rec
        → packets_in (take (n + 1) (answers_of file)) ≡ packets_in (take n (answers_of file))
        ++ packets_in (accepted_packet file.link file.nanos rec n ∷ []) }
    ensures all { (file : CaptureFile) → packets_in (take (length (records_of file)) (answers_of file))
        ≡ packets_of file }
    ensures together { (answers others : List (Result Packet Ignored))
        → packets_in (answers ++ others) ≡ packets_in answers ++ packets_in others }
    ensures permuted { (answers others : List (Result Packet Ignored)) → IsPermutation answers others
        → IsPermutation (packets_in answers) (packets_in others) }
{}

/// The clock of two lists of packets together is the later of theirs, and permuting a list doesn't change its clock.
pub fn clock_law()
    ensures together { (packets others : List Packet) (one two : Option ℕ) → IsClock packets one → IsClock others two
        → IsClock (packets ++ others) (later_clock one two) }
    ensures permuted { (packets others : List Packet) (clock : Option ℕ) → IsPermutation packets others
        → IsClock packets clock → IsClock others clock }
{}
