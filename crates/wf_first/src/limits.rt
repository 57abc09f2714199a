//! The limits of a program. One that passes them is refused.

/// The most types other than null.
pub const MAX_TYPES: usize = 8192;

/// The most methods of all classes together.
pub const MAX_METHODS: usize = 65536;

/// The most nodes of a flow system.
pub const MAX_NODES: usize = 4194304;
