//! Ways from one list to others.

// A way along pairs.
#[derive(Drop)]
pub(crate) struct Way {
    // The lists that it comes by behind the first, in order.
    pub(crate) steps: Vec<u32>,
    // The list that it leads to: its last step, or else the first list.
    pub(crate) end: u32,
}
