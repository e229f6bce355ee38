// The bounds of the product, each with its definition of the same name in specs/Limits.antt.

// The names of a vocabulary at most, and so the greatest code.
pub const MOST_NAMES: usize = 512;

// The bytes of a name in a vocabulary or a filter at most.
pub const MOST_NAME_BYTES: usize = 32;

// The steps of a filter at most.
pub const MOST_STEPS: usize = 8;

// The elements open at a time at most.
pub const MOST_OPEN: usize = 32;
