//! A stream of flow records as a stream of biflows.

ghost use Rattle.std.specs.Prelude.{◌≡◌, ◌≤◌, ◌<◌, ◌^◌, ℕ, List, Some, IfOk, IfErr};
ghost use Rattle.ipfix_reader.specs.Flows.{flows_of};
ghost use Rattle.pair_program.specs.BiLayout.{IsBiLayout};
ghost use Rattle.pair_program.specs.Pairing.{greatest_last, IsPaired, PairingFails};
ghost use Rattle.ipfix_model.specs.Sizes.{bi_template_message_length};

use crate::biflow::Biflow;
use crate::encoding::bi_layout;
use crate::pairing::pair;
use ipfix_reader::{FlowsError, StreamFault, read_flows};
use no_memory::NoMemory;
use record_ledger::FlowRecord;
use std::alloc::Global;

/// Why a stream wasn't paired.
#[derive(Clone, Copy, Debug, PartialEq, Eq)]
pub enum PairError {
    /// The stream has this fault.
    NotStream(StreamFault),
    /// The data record at this place, counted from 0, is the first that isn't a flow record.
    NotFlows(u64),
    /// Out of memory.
    NoMemory,
}

/// The greatest last time of flow records, in milliseconds; 0 where there are none.
fn greatest_last(flows: &[FlowRecord]) -> u64
    ensures { result ≡ greatest_last flows.now }
{
    let mut greatest = 0u64;
    for flow in flows {
        greatest = greatest.max(flow.part.last);
    }
    greatest
}

/// The biflows of the flow records of a stream, and the export time of their stream in seconds.
#[derive(Drop)]
pub struct Paired {
    pub pairs: Vec<Biflow>,
    pub seconds: u32,
}

/// The flow records of a stream. The stream is freed once they are read.
fn flows_in(alloc: Global, stream: Vec<u8>) -> Result<Vec<FlowRecord>, PairError>
    ensures flows { IfOk result (λ flows. flows_of stream.items ≡ Some flows.items) }
    ensures cause { IfErr result (PairingFails stream.items) }
{
    match read_flows(alloc, stream.as_slice()) {
        Ok(flows) => Ok(flows),
        Err(FlowsError::NotStream(fault)) => Err(PairError::NotStream(fault)),
        Err(FlowsError::NotFlows(place)) => Err(PairError::NotFlows(place)),
        Err(FlowsError::NoMemory) => Err(PairError::NoMemory),
    }
}

/// The biflows of the flow records in a stream, paired with this idle time-out, in milliseconds up to 86,400,000. The
/// export time is the greatest last time in whole seconds, modulo 2^32. The stream is freed once its records are read,
/// and the records once they are paired.
///
/// `NotStream` has the stream's first fault. `NotFlows` comes where the stream has no fault, and has the place of the
/// first data record that isn't a flow record, counted from 0.
pub fn pairs_of(alloc: Global, stream: Vec<u8>, idle: u64) -> Result<Paired, PairError>
    requires { idle ≤ 86400000 }
    ensures paired { IfOk result (λ p. (size : ℕ) (written : List ℕ) → size ≤ 65535
        → IsBiLayout size p.seconds p.pairs.items written → IsPaired idle size stream.items written) }
    ensures cause { IfErr result (PairingFails stream.items) }
{
    let flows = match flows_in(alloc, stream) {
        Ok(flows) => flows,
        Err(error) => return Err(error),
    };
    let seconds = (greatest_last(flows.as_slice()) / 1000 % (1 << 32)) as u32;
    match pair(alloc, flows, idle) {
        Ok(pairs) => Ok(Paired { pairs, seconds }),
        Err(NoMemory) => Err(PairError::NoMemory),
    }
}

/// The stream of the biflows of the flow records in a stream: they are paired by [`pairs_of`], and laid out in messages
/// of at most `size` octets, from 308 to 65,535.
///
/// The errors are those of [`pairs_of`].
pub fn pair_stream(
    alloc: Global,
    stream: Vec<u8>,
    idle: u64,
    size: usize,
) -> Result<Vec<u8>, PairError>
    requires idle { idle ≤ 86400000 }
    requires size { (bi_template_message_length ≤ size) × (size < 2 ^ 16) }
    ensures paired { IfOk result (λ written. IsPaired idle size stream.items written.items) }
    ensures cause { IfErr result (PairingFails stream.items) }
{
    let paired = match pairs_of(alloc, stream, idle) {
        Ok(paired) => paired,
        Err(error) => return Err(error),
    };
    match bi_layout(alloc, paired.pairs.as_slice(), size, paired.seconds) {
        Ok(written) => Ok(written),
        Err(NoMemory) => Err(PairError::NoMemory),
    }
}
