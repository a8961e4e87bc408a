//! What a script does, as a drawing: for each host a lane, in which each connection is a bar from
//! left to right.
#![tactic(auto)]

mod bars;
mod causes;
mod frame;
mod labels;
mod lane;
mod lanes;
mod legend;
mod measures;
mod picture;
mod reading;
mod rows;
mod style;
mod timeline;
mod waits;

pub use picture::{PicturedHost, picture_of};
pub use timeline::MOST_EVENTS;
