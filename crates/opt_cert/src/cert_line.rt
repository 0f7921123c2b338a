use crate::point_entries::PointEntries;
use opt_base::Verdict;
use opt_bound::Mult;

/// A line of a certificate.
#[derive(Debug, Drop)]
pub enum CertLine {
    /// The first line, which says that this is a certificate.
    Header,
    /// What the certificate claims.
    Verdict(Verdict),
    /// The multipliers of the root line.
    Root(Mult),
    /// The entries of the point, where the verdict names an objective or a best.
    Point(Option<PointEntries>),
    /// A node that is split: the left tree has the values of `quantity` up to `at`, the right tree those from `at + 1` on.
    Split { quantity: u32, at: i64 },
    /// A node that is a leaf, with its multipliers.
    Leaf(Mult),
    /// The last line.
    End,
}
