// Messages: events, the sources that tell them, and whether a filter hits a message. A closed message is a tree,
// and a filter hits it exactly when it selects one of its elements as an XPath 1.0 location path.
#![tactic(auto)]

pub mod events;
pub mod hits;

pub use events::{Event, Source, conclude};
pub use hits::{hit, settled_examples};
