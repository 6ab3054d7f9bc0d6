//! Laws about what a cache keeps. These functions do nothing; each contract is a law.
ghost use Rattle.cache_face.specs.Laws.{KeepsOpening, KeepsSplit, KeepsMerged, KeepsTaken, KeepsPassed, KeptAtEnd};
ghost use Rattle.cache_face.specs.Laws.{KeepsSeen, BacksTaken, BacksSeen, BacksMerged, KeptIsBacked, EmptyIsBacked};
ghost use Rattle.cache_face.specs.Laws.{TakenIsSmall, WholeIsSmall, WordsShow, ChoiceTakes};

/// Each step of a cache leaves it with what `Keeps` says (`specs/Keeping.antt`).
pub fn steps_keep()
    ensures opening { KeepsOpening }
    ensures split { KeepsSplit }
    ensures merged { KeepsMerged }
    ensures taken { KeepsTaken }
    ensures passed { KeepsPassed }
    ensures seen { KeepsSeen }
{}

/// What the notes of a cache back, and that they still back it after each step.
pub fn notes_back()
    ensures taken { BacksTaken }
    ensures seen { BacksSeen }
    ensures merged { BacksMerged }
    ensures kept { KeptIsBacked }
    ensures empty { EmptyIsBacked }
{}

/// What follows where one pass has done all that was done.
pub fn ends_keep()
    ensures { KeptAtEnd }
{}

/// What ten words show, and what a choice does to the entry at its place.
pub fn contents_show()
    ensures small { WholeIsSmall }
    ensures taken { TakenIsSmall }
    ensures words { WordsShow }
    ensures takes { ChoiceTakes }
{}
