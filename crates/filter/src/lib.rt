// Filters: linear location paths of one to eight steps, when one embeds at an element, and the walk of one
// filter along the open elements of a message. The walk is proved to answer by the rule of embeddings.
#![tactic(auto)]

pub mod filters;
pub mod steps;
pub mod walks;

pub use filters::Filter;
pub use steps::{Axis, Step, Test};
pub use walks::Walk;

#[cfg(test)]
mod tests;
