//! The layers, each by its public calls.

mod batches;
mod captures;
mod headers;
mod keys;
mod links;
mod machine;
mod made;
mod memory;
mod numbers;
mod packets;
mod pieces;
mod sides;
mod tallies;
mod text;
mod threads;
