// A row of at most N items, which lie in the value itself, with no heap. Clauses see its items alone.
#![tactic(auto)]

pub mod rows;

pub use rows::{Full, Row};

#[cfg(test)]
mod tests;
