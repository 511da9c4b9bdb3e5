//! The progress of a fetch.
ghost use Rattle.std.specs.Prelude.{◌≡◌, codes};

/// Which part of a fetch a progress reporter shows.
#[derive(Clone, Copy, Debug, PartialEq, Eq)]
pub enum ProgressId {
    /// The progress that the server reports.
    RemoteProgress,
}

impl From<ProgressId> for [u8; 4] {
    ghost from_gives = { λ id bytes. bytes ≡ codes "FERP" };

    fn from(id: ProgressId) -> [u8; 4] {
        match id {
            ProgressId::RemoteProgress => *b"FERP",
        }
    }
}
