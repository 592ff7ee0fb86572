// The limits of a text, each in one place.

/// The most bytes that a text may have.
pub const TEXT_LIMIT: usize = 32_000;

/// The most bytes that a token may have.
pub const TOKEN_LIMIT: usize = 32;

/// The most forms that may be open at once.
pub const NESTING_LIMIT: usize = 16;
