//! Reads and writes that fail, end early or come in small pieces.

ghost use Rattle.std.specs.Prelude.{◌<◌};

use meter_io::{
    Failed, MemSink, MemSource, ReadError, Sink, Source, StdSink, StdSource, read_all, write_all,
};
use std::collections::VecDeque;
use std::io::{self, Cursor, Read, Write};
use std::test::Fail;

/// Reads nine bytes in pieces of `piece`, where the calls with the numbers `fails` fail, and gives how many came.
fn read_nine(rt: &HostRuntime, piece: usize, fails: &[u64], limit: u64) -> Result<usize, ReadError>
    requires { 0 < piece }
{
    let mut source = MemSource::new(b"nine byte", piece, fails);
    let bytes = read_all(rt.alloc(), &mut source, limit)?;
    Ok(bytes.len())
}

#[test]
fn reads_to_the_end_within_the_limit(rt: HostRuntime) {
    for (piece, limit, fails, want) in [
        (100, 9, [0], Ok(9)),
        (1, 9, [0], Ok(9)),
        (4, 100, [0], Ok(9)),
        (100, u64::MAX, [0], Ok(9)),
        (100, 8, [0], Err(ReadError::TooLarge)),
        (1, 0, [0], Err(ReadError::TooLarge)),
        (10, 100, [2], Err(ReadError::Failed)),
        (10, 100, [1], Err(ReadError::Failed)),
        (10, 100, [3], Ok(9)),
        (2, 4, [4], Err(ReadError::TooLarge)),
    ] {
        assert!(rt; piece > 0);
        let got = read_nine(&rt, piece, fails.as_slice(), limit);
        assert_eq!(rt; got, want, "piece {piece}, limit {limit}");
    }
}

#[test]
fn writes_all_or_a_prefix(rt: HostRuntime) -> Result<(), Fail> {
    for (room, piece, fails, want, written) in [
        (9, 100, [0], Ok(()), 9),
        (9, 1, [0], Ok(()), 9),
        (8, 100, [0], Err(Failed), 8),
        (0, 100, [0], Err(Failed), 0),
        (100, 4, [2], Err(Failed), 4),
        (100, 4, [3], Err(Failed), 8),
        (100, 4, [4], Ok(()), 9),
    ] {
        assert!(rt; piece > 0);
        let mut sink = MemSink::open(rt.alloc(), room, piece, fails.as_slice())?;
        let end = write_all(&mut sink, b"nine byte");
        assert!(rt;
            end == want && sink.held().len() == written,
            "room {room}, piece {piece}"
        );
        assert!(rt;
            b"nine byte".starts_with(sink.held()),
            "room {room}, piece {piece}"
        );
    }
    Ok(())
}

/// A stream whose calls all fail.
#[derive(Drop)]
struct Broken;

impl Read for Broken {
    fn read(&mut self, _buf: &mut [u8]) -> io::Result<usize> {
        Err(io::Error::from(io::ErrorKind::BrokenPipe))
    }
}

impl Write for Broken {
    fn write(&mut self, _buf: &[u8]) -> io::Result<usize> {
        Err(io::Error::from(io::ErrorKind::BrokenPipe))
    }

    fn flush(&mut self) -> io::Result<()> {
        Ok(())
    }
}

#[test]
fn the_edge_passes_calls_on_and_reports_errors(rt: HostRuntime) -> Result<(), Fail> {
    let mut input = StdSource::new(Cursor::new(b"nine byte".as_slice()));
    let bytes = read_all(rt.alloc(), &mut input, 100).map_err(|_| Fail::from("not read"))?;
    assert!(rt; bytes.as_slice() == b"nine byte".as_slice());
    let mut buf = [0u8; 4];
    assert!(rt; StdSource::new(Broken).read(buf.as_mut_slice()) == Err(Failed));

    let mut output = StdSink::new(VecDeque::new(rt.alloc()));
    assert!(rt; write_all(&mut output, b"nine byte").is_ok());
    assert!(rt; write_all(&mut StdSink::new(Broken), b"nine byte") == Err(Failed));
    assert!(rt; write_all(&mut StdSink::new(Broken), b"").is_ok());
    Ok(())
}
