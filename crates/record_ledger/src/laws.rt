//! Laws about lawful lists, for any packets and records. These functions do nothing; each contract is a law.
ghost use Rattle.record_ledger.specs.Laws.{TiesJoin, HasNoTies, CutsAreSessions, HaveSessions, LawfulAreSessions};
ghost use Rattle.record_ledger.specs.Laws.{RecordsAreOne, LawfulIsOne, OwnClockIsGiven, LawfulTogether};
ghost use Rattle.record_ledger.specs.Laws.{GatheredIsOne, GatheredInAnyOrder, GatheredByKeys};

/// Two fragments of one key with the same last time are always joinable, where each stands for packets of its own. So
/// no two records of a lawful list tie in the written order.
pub fn lawful_lists_have_no_ties()
    ensures ties_join { TiesJoin }
    ensures no_ties { HasNoTies }
{}

/// Each list of packets has sessions. Where neither the active time-out nor a packet that ends its flow cuts one of
/// them, each list that is lawful for the packets is the list of their records, and there is one such list.
pub fn lawful_lists_are_sessions()
    ensures cuts { CutsAreSessions }
    ensures sessions { HaveSessions }
    ensures lawful { LawfulAreSessions }
    ensures one { RecordsAreOne }
    ensures unique { LawfulIsOne }
{}

/// Lists of records of different keys, each lawful for its packets by one clock, are lawful for all of these packets by
/// that clock, once they are put together in the written order. And lawful by the packets' own clock is the same as
/// lawful.
pub fn lawful_lists_go_together()
    ensures own_clock { OwnClockIsGiven }
    ensures together { LawfulTogether }
{}

/// Fragments are gathered into one list of records, whatever their order. The records gathered of the fragments of some
/// keys are those of these keys among the records gathered of all.
pub fn gathered_lists_are_one()
    ensures one { GatheredIsOne }
    ensures any_order { GatheredInAnyOrder }
    ensures by_keys { GatheredByKeys }
{}
