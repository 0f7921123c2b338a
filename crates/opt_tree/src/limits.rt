/// The most nodes that a tree may have.
pub const NODE_LIMIT: u32 = 1_000_000;
