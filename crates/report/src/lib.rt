// The text of a run: a line for its three numbers, and one for each place of the picture that shows. And the image of a memory, as it stands or
// in levels. And any text or digits, laid on a page. specs/Text.antt is the text, specs/Image.antt the image, specs/Levels.antt the levels, specs/Calls.antt what the calls that write
// tell and leave.
#![tactic(auto)]

mod heading;
mod image;
mod number;
mod page;
mod place;
mod scale;
mod text;

pub use image::{image_heading, image_rows};
pub use number::Base;
pub use page::{Page, has_room};
pub use scale::{drawn_places, to_levels};
pub use text::write;

// A text that does not fit: writing answers the length that it wrote, or this. specs/Calls.antt has document 01's number of each.
#[derive(Clone, Copy, Debug, PartialEq, Eq)]
pub struct NoRoom;
