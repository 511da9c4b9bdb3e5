//! Refs, mappings and packs as records of numbers. Texts are spans of the server's bytes, so nothing is copied.
#![tactic(auto)]

mod advertised;
mod bands;
mod line;
mod mapped_refs;
mod mapping_entry;
mod packets;
mod place;
mod refs;
mod span;
mod spec_text;
mod spelling;
mod white_space;

pub use advertised::{
    AdvertisedEnd, AdvertisedFound, AdvertisedLineRefused, AdvertisedRefused,
    advertisement_loses_white_space, read_advertised,
};
pub use bands::{BandPiece, next_piece};
pub use line::LineRefused;
pub use mapped_refs::{MapEnd, MapRefused, map_records};
pub use mapping_entry::{MappedRecord, MappingRecord};
pub use packets::PacketRefused;
pub use place::{pack_start_v0, pack_start_v2};
pub use refs::{RefRecord, RefsEnd, RefsFound, RefsRefused, read_refs};
pub use span::Span;
pub use spec_text::{SpecsRefused, prefix_text, specs_in};
pub use spelling::spec_lines;
pub use white_space::list_loses_white_space;
