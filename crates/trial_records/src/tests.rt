//! Fragments, and what is gathered of them.

mod fragments;
mod records;
