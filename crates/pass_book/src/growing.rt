//! How a book grows. These types stand in proofs alone.

use crate::book::PassBook;
use flow_parts::Fragment;
use logbook::{Opening, Rule};
use std::marker::Model;

/// What a book has at one time. No value of it is made.
pub struct Page {
    unit: (),
}

impl Model for Page {
    ghost use Rattle.pass_book.specs.Books.{Book, first_book};

    ghost Value = { Book };

    ghost view = { λ _. first_book };
}

/// A book may have anything.
pub struct Anything;

impl Rule<Page, u64> for Anything {
    ghost use Rattle.std.specs.Prelude.{[]};
    ghost use base.Fml.{ftrue};

    ghost holds = { λ cells log. Unit {0} };

    ghost first = { [] };

    ghost hinted = { λ n log. Unit {0} };

    ghost shows = { λ log. [] };

    ghost keeps = { λ names log. ftrue };

    ghost moves = { λ ask before after answer. Unit {0} };
}

/// The first page.
pub struct First;

impl Opening<(), Page> for First {
    ghost use Rattle.std.specs.Prelude.{◌∷◌, []};
    ghost use Rattle.pass_book.specs.Books.{first_book};

    ghost log = { λ count about. first_book ∷ [] };
}

/// A book, a fragment that is put in, and what is handed out.
#[derive(Drop)]
pub struct Putting {
    pub book: PassBook,
    pub own: Fragment,
    pub out: Option<Fragment>,
}

impl Opening<Putting, Page> for Putting {
    ghost use Rattle.std.specs.Prelude.{◌∷◌, []};
    ghost use Rattle.pass_book.specs.Books.{book_with};

    ghost log = { λ count about. book_with about.book about.own about.out ∷ [] };
}

/// Two books that become one.
#[derive(Drop)]
pub struct Merging {
    pub one: PassBook,
    pub other: PassBook,
}

impl Opening<Merging, Page> for Merging {
    ghost use Rattle.std.specs.Prelude.{◌∷◌, []};
    ghost use Rattle.pass_book.specs.Books.{merged_book};

    ghost log = { λ count about. merged_book about.one about.other ∷ [] };
}
