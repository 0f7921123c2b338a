//! Systems with the certificates that an independent search wrote of them, by its own simplex and its own search.

use opt_system::RowKind;

/// A row: its kind, its right-hand side and its terms.
pub type CaseRow = (RowKind, i64, &'static [(u32, i64)]);

/// A line's number, another line in its place, and what is printed of the text after the file's name.
pub type Change = (usize, &'static str, &'static str);

/// A system with a certificate of it.
pub struct Case {
    pub low: &'static [i64],
    pub high: &'static [i64],
    pub costs: &'static [i64],
    pub rows: &'static [CaseRow],
    pub gap: i64,
    pub limit: u32,
    pub nodes: u32,
    /// The certificate's lines after the first one.
    pub text: &'static str,
    /// Another bound or objective, a multiplier of the other sign, another cut: none of these certificates stands.
    pub changes: &'static [Change],
}

/// A best point is known, and no better one is left.
pub static PLANS: [Case; 11] = [
    Case {
        low: &[0, 0, 0],
        high: &[2, 1, 100],
        costs: &[1, 1, 2],
        rows: &[(RowKind::Eq, -74, &[(0, 360), (1, 360), (2, -7)])],
        gap: 0,
        limit: 7,
        nodes: 7,
        text: "plan 125 125\nroot 7 1 0:-2\npoint 2 0:1 2:62\nsplit 2 10\nleaf 0 1 0:-1\nsplit 0 0\n\
             split 1 0\nleaf 0 1 0:1\nleaf 7 1 0:-2\nleaf 7 1 0:-2\nend\n",
        changes: &[
            (2, "plan 125 126", ": WrongBound 125"),
            (2, "plan 126 125", ": WrongObjective 125"),
            (6, "leaf 0 1 0:1", " node 1: LeafOpen 22"),
            (8, "split 1 1", " node 3: CutRange"),
        ],
    },
    Case {
        low: &[0, 0, 3, 1, 0],
        high: &[5, 2, 103, 6, 0],
        costs: &[17, 1, 0, 1, 0],
        rows: &[
            (RowKind::Ge, 350, &[(0, -2), (2, 10), (3, -3)]),
            (RowKind::Ge, 29, &[(0, 1), (1, 1), (3, 5)]),
            (RowKind::Ge, 502, &[(0, 1), (2, 5), (3, 1), (4, 1)]),
            (RowKind::Ge, -1, &[(0, 3), (4, 360)]),
        ],
        gap: 0,
        limit: 7,
        nodes: 1,
        text: "plan 6 6\nroot 5 1 1:1\npoint 2 2:100 3:6\nleaf 5 1 1:1\nend\n",
        changes: &[
            (2, "plan 6 7", ": WrongBound 6"),
            (2, "plan 7 6", ": WrongObjective 6"),
            (5, "leaf 5 1 1:-1", " node 0 row 1: Sign"),
        ],
    },
    Case {
        low: &[1, 1, 0, 0],
        high: &[1, 1, 5, 20],
        costs: &[0, 0, 17, 5],
        rows: &[(RowKind::Ge, 1805, &[(0, 2), (2, 360), (3, 2)])],
        gap: 0,
        limit: 7,
        nodes: 3,
        text: "plan 95 95\nroot 2 1 0:5\npoint 4 0:1 1:1 2:5 3:2\nsplit 3 1\nleaf 0 1 0:1\n\
             leaf 360 1 0:17\nend\n",
        changes: &[
            (2, "plan 95 96", ": WrongBound 95"),
            (2, "plan 96 95", ": WrongObjective 95"),
            (3, "root 2 1 0:-5", ": RootLine"),
            (5, "split 3 2", " node 1: LeafOpen 93"),
        ],
    },
    Case {
        low: &[3, 0, 0],
        high: &[103, 2, 100],
        costs: &[17, 1, 17],
        rows: &[
            (RowKind::Ge, 247, &[(0, 5), (1, 2), (2, 2)]),
            (RowKind::Ge, -141, &[(0, -3), (1, -3)]),
            (RowKind::Ge, 315, &[(2, 5)]),
            (RowKind::Ge, 118, &[(0, 5), (1, 1)]),
            (RowKind::Ge, 51, &[(2, 1)]),
        ],
        gap: 1,
        limit: 3,
        nodes: 3,
        text: "plan 1480 1480\nroot 25 2 0:85 2:51\npoint 3 0:24 1:1 2:63\nsplit 0 23\nleaf 0 1 3:1\n\
             leaf 10 2 0:5 2:32\nend\n",
        changes: &[
            (2, "plan 1480 1481", ": WrongBound 1480"),
            (2, "plan 1481 1480", ": WrongObjective 1480"),
            (3, "root 25 2 0:-85 2:51", ": RootLine"),
            (5, "split 0 24", " node 1: LeafOpen 1471"),
        ],
    },
    Case {
        low: &[1, 0, 1, 3, 3],
        high: &[10, 5, 6, 3, 3],
        costs: &[0, 17, 17, 0, 1],
        rows: &[(RowKind::Eq, 10, &[(1, 1), (2, 10), (4, -1)])],
        gap: 0,
        limit: 25,
        nodes: 3,
        text: "plan 71 71\nroot 10 1 0:17\npoint 5 0:1 1:3 2:1 3:3 4:3\nsplit 2 1\nleaf 1 1 0:17\n\
             leaf 0 1 0:-1\nend\n",
        changes: &[
            (2, "plan 71 72", ": WrongBound 71"),
            (2, "plan 72 71", ": WrongObjective 71"),
            (6, "leaf 1 1 0:-17", " node 1: LeafOpen 26"),
            (5, "split 2 0", " node 0: CutRange"),
        ],
    },
    Case {
        low: &[0, 0, 3],
        high: &[5, 1, 8],
        costs: &[17, 2, 2],
        rows: &[(RowKind::Ge, -2, &[(1, 2), (2, -1)])],
        gap: 0,
        limit: 3,
        nodes: 3,
        text: "plan 8 8\nroot 1 1 0:1\npoint 2 1:1 2:3\nsplit 1 0\nleaf 0 1 0:1\nleaf 1 0\nend\n",
        changes: &[
            (2, "plan 8 9", ": WrongBound 8"),
            (2, "plan 9 8", ": WrongObjective 8"),
            (3, "root 1 1 0:-1", ": RootLine"),
            (5, "split 1 1", " node 0: CutRange"),
        ],
    },
    Case {
        low: &[1, 0],
        high: &[2, 2],
        costs: &[5, 1],
        rows: &[(RowKind::Eq, -1, &[(0, 1), (1, -3)])],
        gap: 5,
        limit: 1000,
        nodes: 3,
        text: "plan 11 11\nroot 3 1 0:-1\npoint 2 0:2 1:1\nsplit 1 0\nleaf 0 1 0:-1\nleaf 1 1 0:5\n\
             end\n",
        changes: &[
            (2, "plan 11 12", ": WrongBound 11"),
            (2, "plan 12 11", ": WrongObjective 11"),
            (6, "leaf 0 1 0:1", ": WrongBound 6"),
            (5, "split 1 1", ": WrongBound 6"),
        ],
    },
    Case {
        low: &[0, 0, 0, 0, 0, 0, 0, 3],
        high: &[100, 9, 1, 0, 0, 0, 5, 3],
        costs: &[17, 1, 0, 1, 17, 5, 2, 2],
        rows: &[
            (
                RowKind::Eq,
                370,
                &[(0, 5), (1, -7), (2, 1), (3, 10), (4, 2), (5, 2), (6, -3)],
            ),
            (RowKind::Ge, -9, &[(5, 1), (7, -3)]),
            (RowKind::Ge, -13, &[(4, 2), (7, -1)]),
            (
                RowKind::Ge,
                -659,
                &[(0, -7), (1, 1), (3, -2), (5, 5), (6, -1), (7, -3)],
            ),
        ],
        gap: 0,
        limit: 3,
        nodes: 3,
        text: "plan 1264 1264\nroot 5 1 0:17\npoint 2 0:74 7:3\nsplit 0 73\nleaf 0 1 0:1\nleaf 1 0\n\
             end\n",
        changes: &[
            (2, "plan 1264 1265", ": WrongBound 1264"),
            (2, "plan 1265 1264", ": WrongObjective 1264"),
            (6, "leaf 0 1 0:-1", " node 1: LeafOpen 1261"),
            (5, "split 0 74", " node 1: LeafOpen 1261"),
        ],
    },
    Case {
        low: &[1, 0, 0, 1],
        high: &[1, 20, 9, 21],
        costs: &[17, 5, 17, 0],
        rows: &[
            (RowKind::Ge, -29, &[(2, -3)]),
            (RowKind::Ge, 44, &[(3, 10)]),
            (RowKind::Ge, -5, &[(0, 2), (1, -3), (2, 5), (3, -1)]),
            (RowKind::Ge, 27, &[(1, 3), (2, 1)]),
            (RowKind::Eq, 33, &[(1, 3)]),
        ],
        gap: 1,
        limit: 3,
        nodes: 3,
        text: "plan 191 191\nroot 150 3 1:51 2:510 4:760\npoint 4 0:1 1:11 2:7 3:5\nsplit 2 6\n\
             leaf 0 3 1:1 2:10 4:10\nleaf 3 1 4:5\nend\n",
        changes: &[
            (2, "plan 191 192", ": WrongBound 191"),
            (2, "plan 192 191", ": WrongObjective 191"),
            (6, "leaf 0 3 1:-1 2:10 4:10", " node 1 row 1: Sign"),
            (5, "split 2 7", " node 1: LeafOpen 176"),
        ],
    },
    Case {
        low: &[0, 1, 0, 3, 3, 1],
        high: &[5, 10, 9, 5, 3, 101],
        costs: &[2, 17, 5, 1, 0, 2],
        rows: &[
            (
                RowKind::Eq,
                38,
                &[(0, 10), (1, -7), (2, -7), (4, -2), (5, 2)],
            ),
            (RowKind::Eq, 360, &[(0, 360)]),
            (RowKind::Ge, -36, &[(2, -7)]),
        ],
        gap: 0,
        limit: 1000,
        nodes: 7,
        text: "plan 75 75\nroot 45 2 0:45 1:-1\npoint 6 0:1 1:1 2:1 3:3 4:3 5:24\nsplit 5 20\n\
             leaf 0 2 0:36 1:-1\nsplit 2 0\nsplit 1 1\nleaf 0 2 0:-36 1:1\nleaf 45 2 0:45 1:-1\n\
             leaf 45 2 0:45 1:-1\nend\n",
        changes: &[
            (2, "plan 75 76", ": WrongBound 75"),
            (2, "plan 76 75", ": WrongObjective 75"),
            (6, "leaf 0 2 0:-36 1:-1", " node 1: LeafOpen 63"),
            (8, "split 1 0", " node 3: CutRange"),
        ],
    },
    Case {
        low: &[0, 3, 3],
        high: &[2, 12, 12],
        costs: &[0, 5, 1],
        rows: &[
            (RowKind::Ge, 0, &[(1, 2)]),
            (RowKind::Eq, 74, &[(0, 3), (1, 3), (2, 10)]),
        ],
        gap: 1,
        limit: 25,
        nodes: 13,
        text: "plan 35 35\nroot 10 1 1:1\npoint 3 0:2 1:6 2:5\nsplit 2 5\nleaf 3 1 1:5\nsplit 0 1\n\
             split 2 6\nsplit 1 3\nleaf 0 1 1:1\nsplit 0 0\nsplit 1 4\nleaf 0 1 1:1\nleaf 0 1 1:-1\n\
             leaf 0 1 1:-1\nleaf 0 1 1:-1\nleaf 0 1 1:-1\nend\n",
        changes: &[
            (2, "plan 35 36", ": WrongBound 35"),
            (2, "plan 36 35", ": WrongObjective 35"),
            (6, "leaf 3 1 1:-5", " node 1: LeafOpen 21"),
            (7, "split 0 2", " node 2: CutRange"),
        ],
    },
];
