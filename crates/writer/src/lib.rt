// Write: a builder's table as a file. It answers the length of the file, or why there is none.
#![tactic(auto)]

mod atom;
mod bytes;
mod files;
mod sections;
mod slabs;
mod tail;

pub use atom::atom_write;
pub use files::write;
pub use tail::{LentTail, write_tail};
