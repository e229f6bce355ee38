// Recordings: a message as a list of 16-bit words. Word 0 ends an element, and v from 1 to 513 starts one of the
// code v - 1. A recording tells its message as any source does.
#![tactic(auto)]

pub mod words;

pub use words::{MOST_WORDS, Recording, Word};
