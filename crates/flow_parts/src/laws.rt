//! Laws of fragments, and of sharing out for any lists of packets and fragments. These functions do nothing; each
//! contract is a law.
ghost use Rattle.flow_parts.specs.Laws.{NothingIsShared, StandsTogether, StandsPermuted, SharesItsHeap, CountsAll};
ghost use Rattle.flow_parts.specs.Laws.{CoversTimes, StandsOpened, StandsAbsorbed, StandsJoined, OwnIsOne};
ghost use Rattle.flow_parts.specs.Laws.{FitsAsJoinable, AbsorbsAsJoins, JoinsEitherWay, ClosedByPackets, WordsTell};
ghost use Rattle.flow_parts.specs.Laws.{FieldsTell, PartsFit, AnswersOnce, PartOfItsFields, NoneWhereUnfit};
ghost use Rattle.flow_parts.specs.Laws.{StandsReached, ReachesCounts, ReachesOnward, ReachesPermuted, ReachesTogether};
ghost use Rattle.flow_parts.specs.Laws.{ReachesJoined, ReachesNone};

/// Sharing out still holds when two lists are put together, and when the packets or the fragments are permuted. Where
/// there are no fragments there are no packets, and the other way round; one fragment shares out its heaps.
pub fn sharing_out_stands()
    ensures nothing { NothingIsShared }
    ensures together { StandsTogether }
    ensures permuted { StandsPermuted }
    ensures alone { SharesItsHeap }
{}

/// Fragments that share out a list of packets have as many packets and octets as it, and each packet lies in
/// the span of a fragment of its key, which begins and ends at a packet.
pub fn sharing_out_counts()
    ensures counts { CountsAll }
    ensures times { CoversTimes }
{}

/// Sharing out goes on when a packet is opened as a fragment of its own, absorbed where it fits, and when joinable
/// fragments are joined, wherever in their lists these stand.
pub fn sharing_out_goes_on()
    ensures opened { StandsOpened }
    ensures absorbed { StandsAbsorbed }
    ensures joined { StandsJoined }
{}

/// Fragments that are reached from others by permuting and joining share out what these do, and have as many packets
/// and octets.
pub fn reaching_shares_out()
    ensures shared { StandsReached }
    ensures counts { ReachesCounts }
    ensures none { ReachesNone }
{}

/// Reaching goes on: from itself, onward, when lists are permuted or put together, and when two fragments are joined,
/// wherever they stand.
pub fn reaching_goes_on()
    ensures onward { ReachesOnward }
    ensures permuted { ReachesPermuted }
    ensures together { ReachesTogether }
    ensures joined { ReachesJoined }
{}

/// A packet fits a fragment exactly where the packet's own fragment is joinable with it, and absorbing it is joining.
/// Joining goes either way round.
pub fn packets_are_fragments()
    ensures own { OwnIsOne }
    ensures fits { FitsAsJoinable }
    ensures absorbs { AbsorbsAsJoins }
    ensures either_way { JoinsEitherWay }
{}

/// A fragment is closed exactly where one of its packets ends its flow.
pub fn fragments_are_closed_by_packets()
    ensures { ClosedByPackets }
{}

/// A fragment is known by its words.
pub fn fragments_have_words()
    ensures { WordsTell }
{}

/// A fragment is known by its fields: numbers that fit the fields are those of one fragment, and others are of none.
pub fn fragments_have_fields()
    ensures tell { FieldsTell }
    ensures fit { PartsFit }
    ensures once { AnswersOnce }
    ensures part { PartOfItsFields }
    ensures none { NoneWhereUnfit }
{}
