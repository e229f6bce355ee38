// The vocabulary: the names that filters and messages have codes for, and the faults and bounds of the whole product.
#![tactic(auto)]

pub mod faults;
pub mod limits;
pub mod names;
mod tables;
pub mod vocabularies;

pub use faults::{Fault, Question};
pub use limits::{MOST_NAME_BYTES, MOST_NAMES, MOST_OPEN, MOST_STEPS};
pub use vocabularies::Vocabulary;

#[cfg(test)]
mod tests;
