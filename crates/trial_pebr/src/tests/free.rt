//! A protocol that always keeps.

use pebr_words::RootProtocol;

/// A protocol that always keeps, with notes without content.
pub struct Free;

impl RootProtocol for Free {
    type Note = ();

    type Act = ();

    type Fixed = ();

    ghost keeps = { λ fixed contents notes. Unit {0} };

    ghost whole = { λ content. Unit {0} };

    ghost backed = { λ fixed notes content. Unit {0} };

    ghost first = { tt };

    ghost empty = { tt };

    ghost merged = { λ a b. tt };

    ghost after = { λ note act. tt };

    ghost unites = { λ fixed contents notes i j a b kept apart at at'. tt };

    ghost backs = { λ fixed notes content i j a b kept apart at at'. tt };
}
