//! Lists over a `Vec`, which contracts see as lists.

ghost use Rattle.std.specs.Prelude.{◌≡◌};

use std::marker::Model;

/// A list of items, made from a `Vec` and seen as the list of them. Making one and reading it takes no memory.
#[derive(Drop)]
pub struct ListOf<T> {
    entries: Vec<T>,
}

impl<T> Model for ListOf<T> {
    ghost use Rattle.std.specs.Prelude.{List};

    ghost Value = { List T };

    ghost view = { λ list. list.entries.items };
}

impl<T> ListOf<T> {
    /// The list of these items.
    pub fn of(items: Vec<T>) -> Self
        ensures { result ≡ items.items }
    {
        ListOf { entries: items }
    }

    /// The items of the list.
    pub fn items(&self) -> &[T]
        ensures { result.now ≡ self.now }
    {
        self.entries.as_slice()
    }
}
