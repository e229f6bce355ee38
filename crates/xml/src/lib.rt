// XML text: a message as the bytes of a document. A text tells its message as any source does.
#![tactic(auto)]

mod items;
mod seeking;
mod tags;
pub mod texts;

pub use texts::{MOST_TEXT, TextReader};
