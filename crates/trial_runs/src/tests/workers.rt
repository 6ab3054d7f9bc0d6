//! Workers: the same octets by any number of them, and two that wait for each other.

use super::{HEADER, TEMPLATES, check_ran, check_run, run_by, two_packets, two_packets_stream};
use meter_program::Status;
use meter_workers::OpenGate;
use std::alloc::Global;
use std::test::Fail;
use trial_metering::Meeting;
use trial_samples::octets_of;

/// A web exchange and the query before it, from 1,700,000,000 s on: each packet by its record header and its captured
/// bytes.
static EXCHANGE: [&str; 20] = [
    "00f15365 00000000 2a000000 2a000000",
    "020000000002 020000000001 0806 0001080006040001 020000000001 0a000005 000000000000 0a000001",
    "00f15365 10270000 2a000000 4a000000",
    "020000000002 020000000001 0800 4500003c 00000000 40110000 0a000005 0a000001 c350 0035 0028 0000",
    "00f15365 a8610000 2a000000 5a000000",
    "020000000002 020000000001 0800 4500004c 00000000 40110000 0a000001 0a000005 0035 c350 0038 0000",
    "00f15365 30750000 36000000 4a000000",
    "020000000002 020000000001 0800 4500003c 00000000 40060000 0a000005 c6336407 9c40 0050 00000000 00000000 5002 0000 00000000",
    "00f15365 50c30000 36000000 4a000000",
    "020000000002 020000000001 0800 4500003c 00000000 40060000 c6336407 0a000005 0050 9c40 00000000 00000000 5012 0000 00000000",
    "00f15365 38c70000 36000000 42000000",
    "020000000002 020000000001 0800 45000034 00000000 40060000 0a000005 c6336407 9c40 0050 00000000 00000000 5010 0000 00000000",
    "00f15365 20cb0000 36000000 a6000000",
    "020000000002 020000000001 0800 45000098 00000000 40060000 0a000005 c6336407 9c40 0050 00000000 00000000 5018 0000 00000000",
    "00f15365 40190100 36000000 42000000",
    "020000000002 020000000001 0800 45000034 00000000 40060000 c6336407 0a000005 0050 9c40 00000000 00000000 5010 0000 00000000",
    "00f15365 80380100 36000000 ea050000",
    "020000000002 020000000001 0800 450005dc 00000000 40060000 c6336407 0a000005 0050 9c40 00000000 00000000 5018 0000 00000000",
    "00f15365 905f0100 36000000 36000000",
    "020000000002 020000000001 0800 45000028 00000000 40060000 0a000005 c6336407 9c40 0050 00000000 00000000 5004 0000 00000000",
];

/// The records of the exchange: the query, the reply, the server's side, and the client's, which ends with a reset.
pub(super) static RECORDS: [&str; 4] = [
    "0a000005 0a000001 c350 0035 11 0000 0000000000000001 000000000000003c 0000018bcfe5680a 0000018bcfe5680a 04",
    "0a000001 0a000005 0035 c350 11 0000 0000000000000001 000000000000004c 0000018bcfe56819 0000018bcfe56819 04",
    "c6336407 0a000005 0050 9c40 06 001a 0000000000000003 000000000000064c 0000018bcfe56832 0000018bcfe56850 04",
    "0a000005 c6336407 9c40 0050 06 001e 0000000000000004 0000000000000130 0000018bcfe5681e 0000018bcfe5685a 03",
];

pub(super) static SUMMARY: &str =
    "captured 10\naccepted 9\nnot-ip 1\nshort 0\nbad-header 0\nshort-transport 0\nbad-time 0\noctets 2052\nflows 4\nmessages 2\ntail 0\n";

static SETTINGS: [&str; 6] = [
    "meter --sets 64",
    "meter --sets 64 --workers 2",
    "meter --sets 64 --workers 8",
    "meter --sets 1",
    "meter --sets 64 --piece 1",
    "meter --workers 8 --sets 1 --piece 1",
];

/// The octets of these pieces behind a first one.
fn behind(alloc: Global, first: &str, pieces: &[&str]) -> Result<Vec<u8>, Fail> {
    let octets = octets_of(alloc, &[first])?;
    joined(octets, &octets_of(alloc, pieces)?)
}

/// These octets with more behind them.
fn joined(mut octets: Vec<u8>, more: &[u8]) -> Result<Vec<u8>, Fail> {
    octets.extend_from_slice(more)?;
    Ok(octets)
}

/// The capture of the exchange.
pub(super) fn exchange_capture(alloc: Global) -> Result<Vec<u8>, Fail> {
    behind(alloc, HEADER, EXCHANGE.as_slice())
}

/// The stream of the exchange, its records in one message.
pub(super) fn exchange_stream(alloc: Global) -> Result<Vec<u8>, Fail> {
    let templates = octets_of(alloc, &["000a0074 6553f100", TEMPLATES])?;
    let header = "000a00d4 6553f100 00000000 00000001 0100 00c4";
    joined(templates, &behind(alloc, header, RECORDS.as_slice())?)
}

#[test]
fn an_exchange_is_the_same_by_all_settings(rt: HostRuntime) -> Result<(), Fail> {
    let alloc = rt.alloc();
    let capture = exchange_capture(alloc)?;
    let wanted = exchange_stream(alloc)?;
    let wanted = (Status::Done, wanted.as_slice(), SUMMARY);
    for line in SETTINGS {
        check_run(&rt, line, line, capture.as_slice(), wanted)?;
        for _turn in 1..100 {
            let ran = run_by(&rt, line, capture.as_slice(), &OpenGate)?;
            check_ran(&rt, line, &ran, wanted);
        }
    }
    Ok(())
}

#[test]
fn two_workers_meet(rt: HostRuntime) -> Result<(), Fail> {
    let alloc = rt.alloc();
    let capture = two_packets(alloc)?;
    let wanted = two_packets_stream(alloc)?;
    let gate = Meeting::new();
    let line = "meter --workers 2 --piece 1";
    let ran = run_by(&rt, line, capture.as_slice(), &gate)?;
    assert_eq!(rt; ran.status, Status::Done);
    assert_eq!(rt; ran.output.as_slice(), wanted.as_slice());
    assert!(rt; gate.has_met());
    Ok(())
}
