//! What the bytes of a response say (RFC 9112), and whether an HTTP/1.1 connection persists after
//! it (RFC 9112, sections 9.3 and 9.6).
#![tactic(auto)]

mod answer;
mod body;
mod chunks;
mod facts;
mod head;
mod laws;
mod limits;
mod method;
mod number;
mod reader;

pub use answer::{Fed, ReadFault};
pub use facts::{Facts, Framing, Version, persists};
pub use laws::split_is_unique;
pub use method::Method;
pub use reader::ResponseReader;
