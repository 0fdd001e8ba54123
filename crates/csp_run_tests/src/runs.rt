//! Words and files in memory.
use csp_io::MemoryInputs;
use csp_model::{Bytes, List, Memory, Text};
use std::alloc::Global;

pub(crate) fn numbers(alloc: Global, all: &[u64]) -> Result<List<u64>, Memory> {
    Ok(List::from_vec(Vec::from_slice(alloc, all)?))
}

pub(crate) fn texts(alloc: Global, words: &[&str]) -> Result<List<Text>, Memory> {
    let mut made = List::new(alloc);
    for word in words {
        made.push(Text::new(alloc, word)?)?;
    }
    Ok(made)
}

// The files of these names and bytes.
pub(crate) fn files(alloc: Global, all: &[(&str, &str)]) -> Result<List<(Text, Bytes)>, Memory> {
    let mut made = List::new(alloc);
    for (name, bytes) in all {
        let bytes = Bytes::new(alloc, bytes.as_bytes())?;
        made.push((Text::new(alloc, name)?, bytes))?;
    }
    Ok(made)
}

// The files `p` and `r`, which give at most 64 bytes a read.
pub(crate) fn inputs(alloc: Global, policy: &str, requests: &str) -> Result<MemoryInputs, Memory> {
    let held = files(alloc, &[("p", policy), ("r", requests)])?;
    Ok(MemoryInputs::new(held, 64, List::new(alloc)))
}
