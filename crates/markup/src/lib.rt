// Markup: the bytes of tags, comments and instructions.
#![tactic(auto)]

pub mod tags;
pub mod texts;

pub use tags::{Class, Ended, Misread, Outcome, Tag, TagKind, class_of};
pub use texts::{Mark, is_white, text_len};
