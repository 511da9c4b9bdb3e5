//! The meaning of a banded line.
ghost use Rattle.std.specs.Prelude.{◌≡◌};
ghost use Rattle.gixp_sidebands.specs.Bands.{band_of};

/// The meaning of a line to a sideband reader.
#[derive(Clone, Copy, Drop)]
pub(crate) enum Band {
    /// Nothing, or band 1 with no bytes after it.
    Empty,
    /// Band 1 with bytes after it.
    Content,
    /// Band 2, or band 3 (true), whose text is an error.
    Text(bool),
    /// A first byte that is not a band.
    Unknown(u8),
}

/// The meaning of a line, by its first byte.
pub(crate) fn band_of(line: &[u8]) -> Band
    ensures { result ≡ band_of line.now }
{
    match line {
        [] | [1] => Band::Empty,
        [1, ..] => Band::Content,
        [2, ..] => Band::Text(false),
        [3, ..] => Band::Text(true),
        [band, ..] => Band::Unknown(*band),
    }
}
