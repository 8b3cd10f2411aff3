//! Why a try to flip changes nothing.

/// Why a flip can't come yet.
#[derive(Clone, Copy, Debug, PartialEq, Eq)]
pub enum Unready {
    /// A log isn't closed in the open cycle.
    LogOpen,
    /// A record wasn't taken.
    Undrained,
    /// A field of a replica isn't filled.
    Unscanned,
    /// What a root refers to has no replica.
    RootNotCopied,
}
