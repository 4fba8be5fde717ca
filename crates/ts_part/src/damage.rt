//! Why a file is no part.

/// The first fault of a file, in the order of the variants.
#[derive(Clone, Copy, PartialEq, Eq, Debug, Drop)]
pub enum Damage {
    /// There are fewer than 88 bytes, or they break a rule of headers, or are another header than the
    /// expected one, or the file is not as long as they say.
    Header,
    /// The table of the sections, or the bytes between them, are not as the format fixes them.
    Table,
    /// The section of this kind, counted from 1, is the first that breaks its rule.
    Section(u8),
    /// A new subject is no node, a layer has a term that no addition has, or a triple comes and goes.
    Facts,
}

/// Why a part was not loaded.
#[derive(Debug, Drop)]
pub enum LoadError {
    Damage(Damage),
    Memory,
}
