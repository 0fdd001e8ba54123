//! The output of a call.
ghost use Rattle.std.specs.Prelude.{◌≡◌, ◌≤◌, ◌∷◌, [], IfOk, length};
ghost use Rattle.csp_io.specs.MemorySink.{failing_writes, sink_faults, sink_room, sink_taken};
ghost use Rattle.csp_io.specs.Told.{Rose};

use csp_io::{Failed, MemorySink, Sink};
use csp_model::{List, Memory};
use std::alloc::Global;

// The most bytes that a write moves.
const PIECE: usize = 65_536;

/// A sink in memory, which fails only where it is full.
///
/// To proofs its room stands before the bytes that it took. So a call that promises only how these grew gives
/// back a sink with the same room.
#[derive(Drop)]
pub(crate) struct PageSink {
    sink: MemorySink,
    ghost calm: { failing_writes sink ≡ [] },
    ghost full: { Rose 0 (sink_faults sink) → sink_room sink ≤ length (sink_taken sink) },
}

impl PageSink {
    ghost use Rattle.csp_page.specs.Sink.{page_room, page_taken, page_refusals};

    /// A sink with room for so many bytes. The memory for them is taken here.
    pub(crate) fn new(alloc: Global, room: usize) -> Result<PageSink, Memory>
        ensures taken { IfOk result (λ made. page_taken made ≡ room ∷ []) }
        ensures faults { IfOk result (λ made. page_refusals made ≡ 0) }
    {
        Ok(PageSink {
            sink: MemorySink::new(alloc, room, PIECE, List::new(alloc))?,
        })
    }

    /// The bytes that it took.
    pub(crate) fn bytes(&self) -> &[u8]
        ensures bytes { page_taken self.now ≡ page_room self.now ∷ result.now }
        ensures full { Rose 0 (page_refusals self.now) → page_room self.now ≤ length result.now }
    {
        self.sink.taken()
    }
}

impl Sink for PageSink {
    ghost use Rattle.csp_page.specs.Sink.{page_taken, page_refusals};

    ghost taken = { page_taken };

    ghost faults = { page_refusals };

    fn write(&mut self, piece: &[u8]) -> Result<usize, Failed> {
        self.sink.write(piece)
    }
}
