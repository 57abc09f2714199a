//! The limits of what is read. What passes one is refused where it is met.

/// The most entries listed over all directories.
pub const MAX_ENTRIES: u32 = 65536;

/// The most directories, one in the other, below the named one.
pub const MAX_DEPTH: u32 = 64;

/// The most class files noted.
pub const MAX_FILES: usize = 20000;

/// The most bytes of one class file or roots file.
pub const MAX_FILE_BYTES: u32 = 16777216;

/// The most bytes of all class files together.
pub const MAX_BYTES: u32 = 536870912;
