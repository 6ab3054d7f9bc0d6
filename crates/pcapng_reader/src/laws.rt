//! Laws on the definitions, for proofs in the crates above and for readers of the definitions. The calls do nothing.

ghost use Rattle.std.specs.Prelude.{ℕ, List};
ghost use Rattle.pcapng_reader.specs.Blocks.{pieces_of};
ghost use Rattle.pcapng_reader.specs.Cut.{IsOnlyCut};

/// There is one way to cut a file into blocks.
pub fn blocks_law()
    ensures { (bytes : List ℕ) → IsOnlyCut bytes (pieces_of bytes) }
{}
