//! Laws about keys. These functions do nothing; each contract is a law.
ghost use Rattle.flow_key.specs.Laws.{OrdersTotally, TiesOnlyItself, WordsTell, FieldsTell, KeysFit, AnswersOnce};
ghost use Rattle.flow_key.specs.Laws.{KeyOfItsFields, NoneWhereUnfit};

/// The order of keys is total, and a key ties with itself alone.
pub fn keys_are_ordered()
    ensures total { OrdersTotally }
    ensures ties { TiesOnlyItself }
{}

/// Two keys with the same words are one key.
pub fn keys_have_words()
    ensures { WordsTell }
{}

/// Six numbers that fit the fields are those of exactly one key, and other numbers are those of none.
pub fn keys_have_fields()
    ensures tell { FieldsTell }
    ensures fit { KeysFit }
    ensures once { AnswersOnce }
    ensures key { KeyOfItsFields }
    ensures none { NoneWhereUnfit }
{}
