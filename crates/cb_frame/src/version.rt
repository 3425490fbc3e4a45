//! The versions of the format.
ghost use Rattle.std.specs.Prelude.{◌≡◌};
ghost use Rattle.cb_frame.specs.Versions.{has_kind, has_size, size_length, version_byte};

use crate::Kind;

/// A version of the format. The second version has every frame of the first, and adds two things: a
/// wider size before a page's bytes, so that pages may have more than 4,096 bytes, and two new
/// kinds.
#[derive(Clone, Copy, Debug, PartialEq, Eq)]
pub enum FrameVersion {
    One,
    Two,
}

impl FrameVersion {
    /// The first byte of a frame.
    pub fn byte(self) -> u8
        ensures { result ≡ version_byte self }
    {
        match self {
            FrameVersion::One => 1,
            FrameVersion::Two => 2,
        }
    }

    /// How many bytes the size before a page's bytes takes.
    pub fn size_length(self) -> usize
        ensures { result ≡ size_length self }
    {
        match self {
            FrameVersion::One => 2,
            FrameVersion::Two => 4,
        }
    }

    /// Whether frames of this version have pages of this size.
    pub fn has_size(self, page_size: usize) -> bool
        ensures { result ≡ has_size self page_size }
    {
        match self {
            FrameVersion::One => page_size <= 4096,
            FrameVersion::Two => true,
        }
    }

    /// Whether this version has frames of this kind.
    pub fn has_kind(self, kind: Kind) -> bool
        ensures { result ≡ has_kind self kind }
    {
        match self {
            FrameVersion::One => !matches!(kind, Kind::Downgraded | Kind::Downgrade),
            FrameVersion::Two => true,
        }
    }
}
