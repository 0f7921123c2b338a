/// Which lines may stand next in a certificate.
#[derive(Clone, Copy, Debug, PartialEq, Eq)]
pub enum Place {
    /// The first line.
    Header,
    /// The verdict's line.
    Verdict,
    /// The root line; the verdict before it names an objective or a best just where `has_point` says so.
    Root { has_point: bool },
    /// The point's line, which lists entries just where `has_point` says so.
    Point { has_point: bool },
    /// A line of a node, where so many trees are still to come; where none are, the last line.
    Nodes { trees: u32 },
}
