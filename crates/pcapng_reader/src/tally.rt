//! What a file holds, what is written of it and what is left out, in numbers.

ghost use Rattle.std.specs.Prelude.{◌≡◌, ◌<◌, ◌^◌, ℕ, [], IfOk, Ok, Err, length, slice_index};
ghost use Rattle.packet_accept.specs.declared.packet.Packet.{Packet};
ghost use Rattle.pcapng_reader.specs.Tallied.{IsTallyOf};
ghost use Rattle.pcapng_reader.specs.Counting.{HasRoom, Adds};

use link_types::LinkType;
use meter_io::NoMemory;
use packet_accept::Ignored;
use std::alloc::Global;

/// How many numbers of link types there are: a link type has 16 bits.
const LINK_NUMBERS: usize = 65_536;

/// How many blocks a file has, and how many bytes are left behind the last of them.
#[derive(Clone, Copy, Debug)]
pub(crate) struct Extent {
    pub(crate) blocks: u64,
    pub(crate) tail: u64,
}

/// What a file holds, what is written of it and what is left out, in numbers. The packets that are written and those
/// that are left out for each cause are together all packets.
#[derive(Debug, Drop)]
pub struct PngTally {
    /// How many blocks the file has, also of types that aren't read.
    pub blocks: u64,
    /// How many bytes are left behind the last block: the beginning of one that is cut off.
    pub tail: u64,
    /// How many of the blocks hold a packet.
    pub packets: u64,
    /// How many of the packets are written.
    pub written: u64,
    /// How many are left out because they aren't IP, or because their link type isn't read.
    pub not_ip: u64,
    /// How many are left out because the link part or the IP header isn't whole.
    pub short: u64,
    /// How many are left out for a bad IP header.
    pub bad_header: u64,
    /// How many are left out because the TCP or UDP header isn't whole.
    pub short_transport: u64,
    /// How many are left out because they have no time, as simple packets, or one whose seconds don't fit 32 bits.
    pub bad_time: u64,
    /// How many of those in `not_ip` have a link type that isn't read, by the number of the link type: 65,536 counts.
    pub unread: Vec<u64>,
}

/// So many counts that are 0.
fn zeros(alloc: Global, count: usize) -> Result<Vec<u64>, NoMemory>
    ensures many { IfOk result (λ counts. length counts.items ≡ count) }
    ensures zero { IfOk result (λ counts. (n : ℕ) → n < count → slice_index counts.items n ≡ 0) }
{
    Ok(vec![in alloc; 0u64; count]?)
}

impl PngTally {
    /// The tally of a file's blocks, before its first packet.
    pub(crate) fn new(alloc: Global, extent: Extent) -> Result<PngTally, NoMemory>
        ensures tally { IfOk result (λ tally. IsTallyOf tally []) }
        ensures blocks { IfOk result (λ tally. tally.blocks ≡ extent.blocks) }
        ensures tail { IfOk result (λ tally. tally.tail ≡ extent.tail) }
    {
        let unread = zeros(alloc, LINK_NUMBERS)?;
        Ok(PngTally {
            blocks: extent.blocks,
            tail: extent.tail,
            packets: 0,
            written: 0,
            not_ip: 0,
            short: 0,
            bad_header: 0,
            short_transport: 0,
            bad_time: 0,
            unread,
        })
    }

    /// Counts a packet that is written.
    pub(crate) fn add_written(&mut self)
        requires { HasRoom self.old }
        ensures { (link : ℕ) (packet : Packet) → Adds self.old self.new link (Ok packet) }
    {
        self.packets += 1;
        self.written += 1;
    }

    /// Counts a packet of this link type that isn't IP as far as is known.
    fn add_not_ip(&mut self, link: u32)
        requires room { HasRoom self.old }
        requires narrow { link < 2 ^ 16 }
        ensures { Adds self.old self.new link (Err Ignored.NotIp) }
    {
        self.packets += 1;
        self.not_ip += 1;
        if LinkType::of(link).is_none() {
            self.unread[link as usize] += 1;
        }
    }

    /// Counts a packet of this link type that is left out for this cause.
    pub(crate) fn add_left_out(&mut self, link: u32, cause: Ignored)
        requires room { HasRoom self.old }
        requires narrow { link < 2 ^ 16 }
        ensures { Adds self.old self.new link (Err cause) }
    {
        match cause {
            Ignored::NotIp => self.add_not_ip(link),
            Ignored::Short => {
                self.packets += 1;
                self.short += 1;
            }
            Ignored::BadHeader => {
                self.packets += 1;
                self.bad_header += 1;
            }
            Ignored::ShortTransport => {
                self.packets += 1;
                self.short_transport += 1;
            }
            Ignored::BadTime => {
                self.packets += 1;
                self.bad_time += 1;
            }
        }
    }
}
