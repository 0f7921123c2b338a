//! Systems of which an independent search shows that no point meets the rows, or stopped at its limit.

use super::cases::Case;
use opt_system::RowKind;

/// No point meets the rows.
pub static NO_PLANS: [Case; 7] = [
    Case {
        low: &[0, 1, 0, 3],
        high: &[9, 21, 9, 23],
        costs: &[2, 1, 0, 5],
        rows: &[
            (RowKind::Ge, 27, &[(0, 3)]),
            (RowKind::Ge, -3, &[(0, -3)]),
            (RowKind::Eq, 31, &[(0, -3), (1, -2), (2, 10), (3, -1)]),
            (RowKind::Ge, 3295, &[(0, 360), (1, 10), (2, 1), (3, -7)]),
        ],
        gap: 0,
        limit: 7,
        nodes: 1,
        text: "no-plan\nroot 0 2 0:1 1:1\npoint none\nleaf 0 2 0:1 1:1\nend\n",
        changes: &[(5, "leaf 0 2 0:-1 1:1", " node 0 row 0: Sign")],
    },
    Case {
        low: &[0],
        high: &[20],
        costs: &[2],
        rows: &[(RowKind::Ge, 26, &[(0, 3)]), (RowKind::Ge, -24, &[(0, -7)])],
        gap: 0,
        limit: 2,
        nodes: 1,
        text: "no-plan\nroot 0 2 0:7 1:3\npoint none\nleaf 0 2 0:7 1:3\nend\n",
        changes: &[(3, "root 0 2 0:-7 1:3", ": RootLine")],
    },
    Case {
        low: &[1, 0, 0],
        high: &[21, 0, 1],
        costs: &[1, 1, 2],
        rows: &[
            (RowKind::Ge, 33, &[(0, 3), (1, 3), (2, 5)]),
            (RowKind::Ge, 2159, &[(0, 360), (1, -2), (2, 2)]),
            (RowKind::Eq, -38, &[(0, -3), (1, 3), (2, -3)]),
        ],
        gap: 1,
        limit: 1000,
        nodes: 7,
        text: "no-plan\nroot 3 1 2:-1\npoint none\nsplit 0 12\nsplit 2 0\nleaf 0 1 2:-1\nsplit 0 11\n\
             leaf 0 1 2:-1\nleaf 0 1 2:1\nleaf 0 1 2:1\nend\n",
        changes: &[
            (7, "leaf 0 1 2:1", " node 2: LeafOpen 13"),
            (5, "split 0 11", " node 3: CutRange"),
        ],
    },
    Case {
        low: &[0, 0, 0],
        high: &[1, 9, 5],
        costs: &[0, 0, 1],
        rows: &[
            (RowKind::Eq, 1, &[(1, 3), (2, -7)]),
            (RowKind::Ge, 1080, &[(1, 1), (2, 360)]),
            (RowKind::Ge, -15, &[(0, 1), (2, -3)]),
            (RowKind::Ge, -21, &[(1, -2), (2, -1)]),
        ],
        gap: 0,
        limit: 25,
        nodes: 5,
        text: "no-plan\nroot 1087 2 0:-1 1:3\npoint none\nsplit 1 7\nleaf 0 2 0:360 1:7\nsplit 2 3\n\
             leaf 0 1 0:-1\nleaf 0 1 0:1\nend\n",
        changes: &[
            (6, "leaf 0 2 0:-360 1:7", " node 1: LeafOpen 3"),
            (5, "split 1 8", " node 1: LeafOpen 3"),
        ],
    },
    Case {
        low: &[3, 0, 0, 0],
        high: &[23, 0, 20, 20],
        costs: &[1, 1, 1, 2],
        rows: &[(RowKind::Eq, -31, &[(1, 1), (2, -2), (3, 10)])],
        gap: 0,
        limit: 1000,
        nodes: 5,
        text: "no-plan\nroot 2 1 0:-1\npoint none\nsplit 2 15\nleaf 0 1 0:-1\nsplit 3 0\nleaf 0 1 0:1\n\
             leaf 0 1 0:-1\nend\n",
        changes: &[
            (6, "leaf 0 1 0:1", " node 1: LeafOpen 19"),
            (5, "split 2 16", " node 1: LeafOpen 19"),
        ],
    },
    Case {
        low: &[3, 0],
        high: &[5, 1],
        costs: &[1, 0],
        rows: &[
            (RowKind::Eq, 1798, &[(0, 360), (1, 2)]),
            (RowKind::Ge, -3, &[(0, 2), (1, -1)]),
            (RowKind::Ge, -1, &[(1, 3)]),
        ],
        gap: 0,
        limit: 25,
        nodes: 3,
        text: "no-plan\nroot 360 1 0:1\npoint none\nsplit 0 4\nleaf 0 1 0:1\nleaf 0 1 0:-1\nend\n",
        changes: &[
            (6, "leaf 0 1 0:-1", " node 1: LeafOpen 5"),
            (5, "split 0 5", " node 0: CutRange"),
        ],
    },
    Case {
        low: &[0, 0, 0, 0, 3, 3, 0, 3, 0],
        high: &[0, 5, 100, 9, 23, 3, 1, 4, 9],
        costs: &[1, 2, 0, 1, 1, 2, 0, 5, 17],
        rows: &[
            (RowKind::Eq, -22, &[(2, -7), (3, 1), (5, 1), (7, 1)]),
            (
                RowKind::Eq,
                -7,
                &[
                    (0, -2),
                    (1, -3),
                    (2, 1),
                    (3, 1),
                    (4, -1),
                    (5, -3),
                    (6, 2),
                    (7, -2),
                    (8, 1),
                ],
            ),
            (RowKind::Ge, 34, &[(3, 3), (4, 1), (5, 2), (8, -2)]),
        ],
        gap: 0,
        limit: 1000,
        nodes: 3,
        text: "no-plan\nroot 29 3 0:-2 1:-14 2:15\npoint none\nsplit 2 5\nleaf 0 3 0:-4 1:1 2:1\n\
             leaf 0 1 0:1\nend\n",
        changes: &[
            (3, "root 29 3 0:-2 1:-14 2:-15", ": RootLine"),
            (5, "split 2 6", " node 1: LeafOpen 34"),
        ],
    },
];

/// The search met its limit of nodes.
pub static UNFINISHED: [Case; 7] = [
    Case {
        low: &[0, 0],
        high: &[9, 9],
        costs: &[0, 17],
        rows: &[
            (RowKind::Ge, -9, &[(0, -1), (1, 3)]),
            (RowKind::Ge, -5, &[(0, -3), (1, 1)]),
            (RowKind::Ge, 4, &[(1, 3)]),
            (RowKind::Ge, 11, &[(0, 1), (1, 2)]),
            (RowKind::Ge, 8, &[(0, -7), (1, 2)]),
        ],
        gap: 5,
        limit: 3,
        nodes: 3,
        text: "unfinished 94 102\nroot 16 2 3:119 4:17\npoint 1 1:6\nsplit 0 0\nleaf 2 1 3:17\n\
             leaf 2 1 4:17\nend\n",
        changes: &[
            (2, "unfinished 95 102", ": WrongBound 94"),
            (2, "unfinished 94 101", ": WrongObjective 102"),
            (3, "root 16 2 3:-119 4:17", ": RootLine"),
            (5, "split 0 1", ": WrongBound 91"),
        ],
    },
    Case {
        low: &[0, 0, 3, 0, 0, 0, 0, 3],
        high: &[100, 0, 12, 1, 20, 20, 5, 3],
        costs: &[1, 5, 0, 2, 1, 2, 5, 17],
        rows: &[
            (RowKind::Ge, -9, &[(0, -3), (2, -3), (3, 10), (4, 1)]),
            (
                RowKind::Eq,
                1144,
                &[(1, -7), (2, 3), (4, 1), (5, 1), (6, 360), (7, 3)],
            ),
        ],
        gap: 0,
        limit: 2,
        nodes: 1,
        text: "unfinished 67 none\nroot 72 2 0:1 1:1\npoint none\nleaf 72 2 0:1 1:1\nend\n",
        changes: &[
            (2, "unfinished 68 none", ": WrongBound 67"),
            (5, "leaf 72 2 0:-1 1:1", " node 0 row 0: Sign"),
        ],
    },
    Case {
        low: &[0, 3, 1],
        high: &[5, 12, 21],
        costs: &[2, 17, 2],
        rows: &[
            (RowKind::Ge, 1450, &[(0, 5), (1, 360)]),
            (RowKind::Ge, 154, &[(0, 10), (2, 10)]),
            (RowKind::Ge, -9, &[(0, -7)]),
        ],
        gap: 0,
        limit: 2,
        nodes: 1,
        text: "unfinished 99 none\nroot 2520 3 0:119 1:504 2:85\npoint none\n\
             leaf 2520 3 0:119 1:504 2:85\nend\n",
        changes: &[
            (2, "unfinished 100 none", ": WrongBound 99"),
            (5, "leaf 2520 3 0:-119 1:504 2:85", " node 0 row 0: Sign"),
        ],
    },
    Case {
        low: &[1, 0, 0],
        high: &[21, 2, 100],
        costs: &[17, 17, 2],
        rows: &[(RowKind::Ge, 21, &[(2, 3)]), (RowKind::Ge, 411, &[(2, 5)])],
        gap: 0,
        limit: 2,
        nodes: 1,
        text: "unfinished 182 183\nroot 5 1 1:2\npoint 2 0:1 2:83\nleaf 5 1 1:2\nend\n",
        changes: &[
            (2, "unfinished 183 183", ": WrongBound 182"),
            (2, "unfinished 182 182", ": WrongObjective 183"),
            (5, "leaf 5 1 1:-2", " node 0 row 1: Sign"),
        ],
    },
    Case {
        low: &[3, 1, 0, 0, 1, 3, 0],
        high: &[5, 2, 0, 100, 10, 8, 20],
        costs: &[1, 0, 1, 2, 5, 0, 0],
        rows: &[
            (RowKind::Ge, 3250, &[(4, 360), (6, 1)]),
            (
                RowKind::Ge,
                -210,
                &[(0, -2), (1, 10), (2, 5), (3, -2), (4, 3), (5, -7), (6, -2)],
            ),
            (RowKind::Ge, 371, &[(0, 3), (1, 1), (3, 5), (6, -2)]),
        ],
        gap: 1,
        limit: 2,
        nodes: 1,
        text: "unfinished 192 197\nroot 360 2 0:5 2:144\npoint 5 0:5 1:1 3:71 4:10 5:3\n\
             leaf 360 2 0:5 2:144\nend\n",
        changes: &[
            (2, "unfinished 193 197", ": WrongBound 192"),
            (2, "unfinished 192 196", ": WrongObjective 197"),
            (3, "root 360 2 0:-5 2:144", ": RootLine"),
        ],
    },
    Case {
        low: &[0, 0],
        high: &[5, 20],
        costs: &[1, 2],
        rows: &[(RowKind::Eq, 1, &[(0, 3), (1, -1)])],
        gap: 0,
        limit: 2,
        nodes: 1,
        text: "unfinished 1 5\nroot 3 1 0:1\npoint 2 0:1 1:2\nleaf 3 1 0:1\nend\n",
        changes: &[
            (2, "unfinished 2 5", ": WrongBound 1"),
            (2, "unfinished 1 4", ": WrongObjective 5"),
        ],
    },
    Case {
        low: &[3, 0, 3],
        high: &[23, 0, 5],
        costs: &[1, 0, 17],
        rows: &[
            (RowKind::Ge, -34, &[(0, -3), (2, 2)]),
            (RowKind::Eq, 0, &[(1, 3)]),
            (RowKind::Ge, -4, &[(1, -1)]),
            (RowKind::Eq, 32, &[(0, 3), (1, -1), (2, 5)]),
            (RowKind::Ge, -4, &[(1, -2), (2, -1)]),
        ],
        gap: 0,
        limit: 3,
        nodes: 3,
        text: "unfinished 63 none\nroot 3 1 3:1\npoint none\nsplit 0 5\nleaf 5 1 3:17\nleaf 0 1 3:-1\n\
             end\n",
        changes: &[
            (2, "unfinished 64 none", ": WrongBound 63"),
            (6, "leaf 5 1 3:-17", ": WrongBound 57"),
            (5, "split 0 6", ": WrongBound 57"),
        ],
    },
];
