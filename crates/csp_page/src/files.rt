//! The files of a call.
ghost use Rattle.std.specs.Prelude.{◌≡◌, ℕ, List as Items, []};
ghost use Rattle.csp_io.specs.Files.{contents_of};
ghost use Rattle.csp_io.specs.MemoryInputs.{failing_calls};

use csp_io::{Failed, Inputs, MemoryInputs, StartError};
use csp_model::{Bytes, List, Text};
use std::alloc::Global;

// The most bytes that a read moves.
const PIECE: usize = 65_536;

/// Files in memory. One that is there never fails, and the counts of the others rise together.
#[derive(Drop)]
pub(crate) struct PageInputs {
    files: MemoryInputs,
    ghost calm: { failing_calls files ≡ [] },
}

impl PageInputs {
    ghost use Rattle.csp_page.specs.Files.{page_contents, page_log};

    /// Of two files of one name the first counts.
    pub(crate) fn new(alloc: Global, files: List<(Text, Bytes)>) -> PageInputs
        ensures contents { (n : Items ℕ) → page_contents result n ≡ contents_of files n }
        ensures log { page_log result ≡ [] }
    {
        PageInputs {
            files: MemoryInputs::new(files, PIECE, List::new(alloc)),
        }
    }
}

impl Inputs for PageInputs {
    ghost use Rattle.csp_page.specs.Files.{page_contents, page_current, page_left, page_faults, page_log};

    ghost contents = { page_contents };

    ghost current = { page_current };

    ghost left = { page_left };

    ghost faults = { page_faults };

    ghost log = { page_log };

    fn start(&mut self, name: &str) -> Result<(), StartError> {
        self.files.start(name)
    }

    fn read(&mut self, into: &mut [u8]) -> Result<usize, Failed> {
        self.files.read(into)
    }
}
