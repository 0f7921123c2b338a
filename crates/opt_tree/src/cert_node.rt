use opt_bound::Mult;

/// A node of a certificate's tree, as it stands in the order in which each split comes before its left tree and that
/// before its right tree.
#[derive(Debug, Drop)]
pub enum CertNode {
    /// The box is split: the left tree has the values of `quantity` up to `at`, the right tree those from `at + 1` on.
    Split { quantity: u32, at: i64 },
    /// The box is a leaf, and these multipliers show what is known of it.
    Leaf(Mult),
}
