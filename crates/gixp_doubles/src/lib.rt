//! Test doubles: readers and writers of bytes in memory that fail at one call, a progress reporter and a negotiator that record
//! their calls, a negotiator that skips unreadable commits, and a repository that records its calls and fails on request.
#![tactic(auto)]

mod device;
mod ids;
mod lenient;
mod objects;
mod paper;
mod progress_log;
mod recorder;
mod refs;

pub use device::{Device, Pieces, next_random};
pub use ids::{numbered_id, numbered_ids};
pub use lenient::Lenient;
pub use objects::{LentObjects, MemoryObjects};
pub use paper::Paper;
pub use progress_log::{Call, Lent, ProgressLog};
pub use recorder::Recorder;
pub use refs::MemoryRefs;
