//! Each public call once.

use crate::{InputKind, NoMemory, Request, kind_of, request_of, with_command};
use std::alloc::Global;

/// Words of a command line.
fn words_of(alloc: Global, texts: &[&str]) -> Result<Vec<String>, NoMemory> {
    let mut words = Vec::new(alloc);
    for text in texts {
        words.push(String::from_str(alloc, text)?)?;
    }
    Ok(words)
}

/// What words ask for.
fn asked(alloc: Global, texts: &[&str]) -> Result<Request, NoMemory> {
    let words = words_of(alloc, texts)?;
    Ok(request_of(words.as_slice()))
}

/// How many words there are once the command `join` stands in front, and whether it does.
fn joined(alloc: Global, texts: &[&str]) -> Result<(usize, bool), NoMemory> {
    let words = with_command(alloc, words_of(alloc, texts)?, "join")?;
    let is_first = match words.first() {
        Some(first) => first.as_str() == "join",
        None => false,
    };
    Ok((words.len(), is_first))
}

#[test]
fn requests(rt: HostRuntime) {
    let alloc = rt.alloc();
    assert_eq!(rt; asked(alloc, &[]), Ok(Request::Run));
    assert_eq!(rt; asked(alloc, &["-h"]), Ok(Request::Help));
    assert_eq!(rt; asked(alloc, &["help", "meter"]), Ok(Request::HelpOf(1)));
    assert_eq!(rt; asked(alloc, &["-V"]), Ok(Request::Version));
    assert_eq!(rt; asked(alloc, &["meter", "--help"]), Ok(Request::HelpOf(0)));
    assert_eq!(rt; asked(alloc, &["meter", "help"]), Ok(Request::Run));
}

#[test]
fn commands_in_front(rt: HostRuntime) {
    let alloc = rt.alloc();
    assert_eq!(rt; joined(alloc, &[]), Ok((1, true)));
    assert_eq!(rt; joined(alloc, &["join", "a.ipfix"]), Ok((2, true)));
    assert_eq!(rt; joined(alloc, &["a.ipfix", "join"]), Ok((3, true)));
}

#[test]
fn kinds(rt: HostRuntime) {
    assert_eq!(rt; kind_of(&[]), InputKind::Nothing);
    assert_eq!(rt;
        kind_of(&[0xd4, 0xc3, 0xb2, 0xa1, 2, 0]),
        InputKind::Capture
    );
    assert_eq!(rt; kind_of(&[0x0a, 0x0d, 0x0d, 0x0a]), InputKind::Pcapng);
    assert_eq!(rt; kind_of(b"BZh9"), InputKind::Bzip2);
    assert_eq!(rt; kind_of(b"text"), InputKind::Unknown);
}
