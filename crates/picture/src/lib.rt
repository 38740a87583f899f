//! Pictures of days: train graphs, with the events' order to the right and the place upwards.
#![tactic(auto)]

mod axes;
pub mod drawing;
pub mod extent;
mod glyphs;
mod heading;
mod legend;
mod message_lines;
mod messages;
mod nearest;
mod notes;
mod sending;
mod style;
mod svg;
mod track;
mod train_lines;

pub use drawing::Drawing;
pub use extent::Extent;
pub use heading::Heading;
pub use svg::write_picture;
