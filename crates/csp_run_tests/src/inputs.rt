//! Tests of the inputs of csp_io, and of a read of each kind that fails.
ghost use Rattle.std.specs.Prelude.{◌<◌};

use crate::runs::{files, numbers};
use csp_io::{Failed, FileInputs, Inputs, MemoryInputs, ReadError, StartError, read_all};
use csp_model::{Bytes, Memory};
use std::alloc::Global;
use std::fs;
use std::rt::Files;
use std::test::Fail;

// Whether "hello" is read from the file of these bytes, which is neither the first nor the only
// one of its name.
fn read_hello(
    alloc: Global,
    piece: usize,
    limit: u8,
    failing: &[u64],
) -> Result<Result<bool, ReadError>, Memory>
    requires { 0 < piece }
{
    let held = files(alloc, &[("a", "other"), ("b", "hello"), ("b", "second")])?;
    let mut inputs = MemoryInputs::new(held, piece, numbers(alloc, failing)?);
    let read = read_all(alloc, &mut inputs, "b", usize::from(limit));
    drop(inputs);
    Ok(read.map(|bytes| bytes.as_slice() == b"hello".as_slice()))
}

// The bytes a read gives, the limit, the calls that fail, and what comes of the file.
const HELLO: [(usize, u8, &[u64], Result<bool, ReadError>); 16] = [
    (1, 5, &[], Ok(true)),
    (3, 5, &[], Ok(true)),
    (5, 5, &[], Ok(true)),
    (9, 200, &[], Ok(true)),
    (1, 4, &[], Err(ReadError::TooLong)),
    (3, 4, &[], Err(ReadError::TooLong)),
    (9, 0, &[], Err(ReadError::TooLong)),
    // A start and six reads, of which the last finds the end.
    (1, 5, &[0], Err(ReadError::Fault)),
    (1, 5, &[3], Err(ReadError::Fault)),
    (1, 5, &[6], Err(ReadError::Fault)),
    (1, 5, &[7], Ok(true)),
    // A start and three reads.
    (3, 5, &[3], Err(ReadError::Fault)),
    (3, 5, &[4], Ok(true)),
    // A start and three reads of a byte, one past the limit.
    (1, 2, &[3], Err(ReadError::Fault)),
    (1, 2, &[4], Err(ReadError::TooLong)),
    (3, 2, &[2], Err(ReadError::TooLong)),
];

#[test]
fn whole_files_at_and_past_the_limit(rt: HostRuntime) -> Result<(), Fail> {
    for &(piece, limit, failing, wanted) in &HELLO {
        assert!(rt; 0 < piece);
        let found = read_hello(rt.alloc(), piece, limit, failing)?;
        assert_eq!(rt;
            found,
            wanted,
            "pieces of {piece}, limit {limit}, calls {failing:?}"
        );
    }
    Ok(())
}

#[test]
fn files_in_memory(rt: HostRuntime) -> Result<(), Fail> {
    let alloc = rt.alloc();
    let held = files(alloc, &[("a", "hello"), ("a", "second")])?;
    let mut inputs = MemoryInputs::new(held, 3, numbers(alloc, &[3])?);
    assert_eq!(rt; inputs.start("b"), Err(StartError::Failed));
    assert_eq!(rt; inputs.start("a"), Ok(()));
    let mut into = *b"....";
    assert_eq!(rt; inputs.read(&mut into), Ok(3));
    assert_eq!(rt; into, *b"hel.");
    assert_eq!(rt; inputs.read(&mut into), Err(Failed));
    drop(inputs);
    Ok(())
}

fn read_file(rt: &impl Files, alloc: Global, name: &str, limit: u8) -> Result<Bytes, ReadError> {
    let mut inputs = FileInputs::new(rt, alloc);
    let read = read_all(alloc, &mut inputs, name, usize::from(limit));
    drop(inputs);
    read
}

#[test]
fn files_of_the_system(rt: HostRuntime) -> Result<(), Fail> {
    let alloc = rt.alloc();
    let name = "csp_tests.tmp";
    fs::write(&rt, name, "hello")?;
    let whole = read_file(&rt, alloc, name, 5);
    let is_whole = whole.is_ok_and(|bytes| bytes.as_slice() == b"hello".as_slice());
    let short = read_file(&rt, alloc, name, 4).err();
    fs::remove_file(&rt, name)?;
    let gone = read_file(&rt, alloc, name, 5).err();
    assert!(rt; is_whole);
    assert_eq!(rt; short, Some(ReadError::TooLong));
    assert_eq!(rt; gone, Some(ReadError::Fault));
    Ok(())
}

#[test]
fn a_folder_opens_and_does_not_read(rt: HostRuntime) {
    let mut inputs = FileInputs::new(&rt, rt.alloc());
    let mut into = [0; 4];
    assert_eq!(rt; inputs.start("."), Ok(()));
    assert_eq!(rt; inputs.read(&mut into), Err(Failed));
    drop(inputs);
    let whole = read_file(&rt, rt.alloc(), ".", 5);
    assert_eq!(rt; whole.err(), Some(ReadError::Fault));
}
