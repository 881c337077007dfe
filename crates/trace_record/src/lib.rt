//! The records of a trace: what a stream of bytes says that a process did, and how that is spelled
//! in bytes.
#![tactic(auto)]

mod decoder;
mod encoding;
mod end;
mod event;
mod fields;
mod format;
mod laws;
mod partial;
mod shade;
mod version;

pub use decoder::{Ahead, Decoder, MAX_LIMIT, Out, Step};
pub use encoding::encode;
pub use end::{End, Fate, Flaw};
pub use event::{Access, Event, Place, Region};
pub use format::{CLOSE, HEADER, HEADER_2, HEADER_3, RECORD_ROOM};
pub use laws::{
    decisions_stand, encoded_events_are_read, events_stand, every_event_spells_in_version_3,
    open_texts_are_short, spellings_are_prefix_free, texts_have_one_reading, texts_spell_one_end,
    whole_records_say_one_thing,
};
pub use shade::{Kind, Shade};
pub use version::Version;
