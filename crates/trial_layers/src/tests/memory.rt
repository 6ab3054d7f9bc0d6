//! Each error of an allocation becomes `NoMemory` by `?`.

use no_memory::NoMemory;
use std::alloc::{AllocError, AllocFailed, Global};

/// Turns a failed allocation into `NoMemory` by `?`.
fn pass_on(failed: Result<u8, AllocError>) -> Result<u8, NoMemory> {
    Ok(failed?)
}

/// Turns a failed allocation that gives its value back into `NoMemory` by `?`.
fn pass_back(failed: Result<u8, AllocFailed<u8>>) -> Result<u8, NoMemory> {
    Ok(failed?)
}

/// A list of one byte.
fn one_byte(alloc: Global) -> Result<Vec<u8>, NoMemory> {
    let mut bytes = Vec::with_capacity(alloc, 1)?;
    bytes.push(7)?;
    Ok(bytes)
}

#[test]
fn errors_of_an_allocation_are_passed_on(rt: HostRuntime) {
    assert_eq!(rt; pass_on(Err(AllocError)), Err(NoMemory));
    assert_eq!(rt; pass_on(Ok(3)), Ok(3));
    assert_eq!(rt; pass_back(Err(AllocFailed { value: 4 })), Err(NoMemory));
    assert_eq!(rt; pass_back(Ok(5)), Ok(5));
}

#[test]
fn ample_memory_is_no_want_of_it(rt: HostRuntime) -> Result<(), std::test::Fail> {
    let Ok(bytes) = one_byte(rt.alloc()) else {
        return Err(std::test::Fail::from("no memory"));
    };
    assert_eq!(rt; bytes.as_slice(), [7].as_slice());
    Ok(())
}
