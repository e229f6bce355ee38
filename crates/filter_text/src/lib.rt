// Filter text: reading it into a filter and writing a filter as text, by a vocabulary. What is read is written back as
// the same text, and what is written is read back as the same filter.
#![tactic(auto)]

pub mod reading;
pub mod writing;

pub use reading::{parse_filter, read_filter};
pub use writing::write_filter;

#[cfg(test)]
mod tests;
