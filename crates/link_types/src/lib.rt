//! The link types of captures that are read, and their numbers.
//!
//! A capture file says by a number what stands in front of its packets. Three of these numbers are known here. Code
//! that depends on the link type matches on [`LinkType`], so that no place is missed if a fourth is added.
#![tactic(auto)]

mod link;

pub use link::LinkType;
