//! Shields and scans: how a seat keeps a slot although it is ejected, and how an owner finds that out.
//!
//! A seat sets a shield on a slot that it has loaded ([`shield`]), and then looks at its own status ([`check`]). Where
//! it is still in, the shield is valid: whoever ejects the seat later does so after the shield was set, reads the
//! shields after the ejection ([`scan`]), and so finds it. Where the seat was ejected already, the owner may have read
//! the shield before it was set. So a shield that is set protects nothing until a check has said [`Checked::Valid`].
//!
//! Each call is one step of the core on the words of [`pebr_words`], and nothing else.
#![tactic(auto)]

mod checked;
mod shields;

pub use checked::Checked;
pub use pebr_words::{NoMemory, RootProtocol, Seat, Shape, Words};
pub use shields::{check, scan, shield, unshield};
