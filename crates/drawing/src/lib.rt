//! Drawings in SVG: shapes, texts and groups of them, in colours for a light and a dark screen. A
//! drawing has no scripts, and takes nothing from elsewhere.
#![tactic(auto)]

mod drawing;
mod escaping;
mod shapes;

pub use drawing::{Drawing, Style};
pub use escaping::add_escaped;
pub use shapes::{Anchor, Place, Point, Size};
