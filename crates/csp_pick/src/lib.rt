//! One check for each cell: a valid check of the cell's shape of which each literal of the cell is true.
#![tactic(auto)]

mod digest;
mod fresh;
mod host;
mod integrity;
mod nonce;
mod number;
mod path;
mod pick;
mod port;
mod scheme;
mod url;

pub use pick::representative;
