//! What all inputs in memory have in common, as the contract of a function with no body.
ghost use Rattle.csp_io.specs.MemoryInputs.{memory_contents, memory_log};
ghost use Rattle.csp_io.specs.Starts.{MissingAreUnread};
ghost use Rattle.csp_io.specs.Types.{MemoryInputs};

/// Of a name that isn't among the files no start gave a byte, and none found an end.
pub fn a_file_that_is_not_there_gives_nothing()
    ensures { (inputs : MemoryInputs) → MissingAreUnread (memory_contents inputs) (memory_log inputs) }
{}
