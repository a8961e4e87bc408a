//! Streams that bytes are read from or written to, which count how many reads and writes failed;
//! files by their names; and the lines of a text, its words and numbers.
#![tactic(auto)]

mod failure_counted;
mod files;
mod lines;
mod sink;
mod source;
mod stream_fault;
mod words;

pub use failure_counted::{FailureCounted, ReadFailed, WriteFailed};
pub use files::{Files, SystemFiles};
pub use lines::first_line;
pub use sink::Sink;
pub use source::Source;
pub use stream_fault::StreamFault;
pub use words::{
    first_word, is_blank, is_word, number_of, place_of, small_number_of, text_first, u32_first,
    u64_first,
};
