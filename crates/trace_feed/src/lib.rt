//! Where the bytes of traces come from and where texts go: feeds, the doors that feeds come
//! through, and writing that knows how far it got.
#![tactic(auto)]

mod door;
mod feed;
mod list_door;
mod mem_feed;
mod path_door;
mod put;
mod read_feed;
mod unix_door;

pub use door::{Arrival, Door};
pub use feed::{Feed, FeedFault};
pub use list_door::ListDoor;
pub use mem_feed::MemFeed;
pub use path_door::PathDoor;
pub use put::{PutFault, put_all};
pub use read_feed::ReadFeed;
pub use unix_door::UnixDoor;
