//! The book of a pass.

ghost use Rattle.std.specs.Prelude.{◌≡◌, ◌∷◌, []};
ghost use Rattle.pass_book.specs.Books.{first_book, book_with, merged_book};

use crate::growing::{Anything, First, Merging, Page, Putting};
use flow_parts::Fragment;
use logbook::{Seen, Start};
use std::marker::Model;

/// What was put in through a pass, and what it was handed. It has no bytes.
#[derive(Drop)]
pub struct PassBook {
    seen: Seen<Page, u64, Anything>,
}

impl Model for PassBook {
    ghost use Rattle.pass_book.specs.Books.{Book, last_book};

    ghost Value = { Book };

    ghost view = { λ b. last_book b.seen.log };
}

impl PassBook {
    /// Nothing was put in yet.
    pub fn new() -> PassBook
        ensures { result ≡ first_book }
    {
        let (seen, _pens) = Seen::open_row::<(), First>(&(), Start::alone(), 0);
        PassBook { seen }
    }

    /// A fragment is put in, and a fragment is handed out, or none.
    #[inline(always)]
    pub fn put(&mut self, own: &Fragment, out: &Option<Fragment>)
        ensures { self.new ≡ book_with self.old own.now out.now }
    {
        let putting = Putting {
            book: PassBook {
                seen: self.seen.again(),
            },
            own: *own,
            out: *out,
        };
        let (seen, _pens) = Seen::open_row::<Putting, Putting>(&putting, Start::alone(), 0);
        self.seen = seen;
    }

    /// One book of both.
    pub fn merge(self, other: PassBook) -> PassBook
        ensures { result ≡ merged_book self other }
    {
        let merging = Merging { one: self, other };
        let (seen, _pens) = Seen::open_row::<Merging, Merging>(&merging, Start::alone(), 0);
        PassBook { seen }
    }
}
