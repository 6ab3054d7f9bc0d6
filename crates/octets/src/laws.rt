//! Laws on the definitions, for proofs in the crates above. The calls do nothing.

ghost use Rattle.std.specs.Prelude.{◌^◌, ◌<◌, ℕ, List};
ghost use Rattle.octets.specs.Numbers.{AreOctets, number_at};

/// A number fits the octets that hold it: `size` octets hold less than `256 ^ size`.
pub fn numbers_law()
    ensures { (place size : ℕ) (octets : List ℕ) → AreOctets octets → number_at place size octets < 256 ^ size }
{}
