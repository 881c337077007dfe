//! Where traces come from: names of files, and the path of a socket, become feeds and doors.
#![tactic(auto)]

mod input_door;
mod input_feed;
mod names;
mod serve;
mod verbose;

pub use input_door::{INPUT, InputDoor, door_of};
pub use input_feed::InputFeed;
pub use names::{BadNames, names_of};
pub use serve::{CannotServe, Serving, is_sender_count, listen};
pub use verbose::is_verbose;
