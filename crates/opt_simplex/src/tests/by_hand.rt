/// Systems whose ends were worked out by hand: each a limit of pivots, a system and its end, as `reading` reads them.
pub const CASES: [&str; 7] = [
    // A box of one point that meets its row, and one that does not.
    "10 1 2 2 3 1 ge 1 1 0 1 Optimal 0 1 0 1 2 1",
    "10 1 2 2 3 1 ge 3 1 0 1 Empty 0 0 1 0 1 0",
    // A row without terms that holds, and one that does not.
    "10 1 0 4 0 1 eq 0 0 Optimal 0 1 0 1 0 1",
    "10 1 0 4 0 1 eq -1 0 Empty 0 0 1 0 -1 0",
    // One supplier, one arc and one point: 175/3 rations of 10 g are 17,500 kg. Three pivots do not reach it.
    "20000 5 0 0 0 0 0 60 0 20000 20000 18000 0 0 450 50 0 6 ge 210000 2 0 3600 1 100 ge 0 2 0 -300000 4 1000 ge
     -999 2 0 300000 4 -1000 eq 0 2 2 1 3 -1 eq 0 2 3 1 4 -1 ge -20000 1 3 -1 Optimal 4 6 4 0 250 1 3 3 2700 4 3000
     5 175 3 0 1 17500 1 17500 1 17500 1",
    "3 5 0 0 0 0 0 60 0 20000 20000 18000 0 0 450 50 0 6 ge 210000 2 0 3600 1 100 ge 0 2 0 -300000 4 1000 ge -999 2
     0 300000 4 -1000 eq 0 2 2 1 3 -1 eq 0 2 3 1 4 -1 ge -20000 1 3 -1 Pivots 3 60 3 0 250 1 3 4 3000 0",
    // The same with at most 50 rations, which do not meet the need.
    "20000 5 0 0 0 0 0 50 0 20000 20000 15000 0 0 450 50 0 6 ge 210000 2 0 3600 1 100 ge 0 2 0 -300000 4 1000 ge
     -999 2 0 300000 4 -1000 eq 0 2 2 1 3 -1 eq 0 2 3 1 4 -1 ge -20000 1 3 -1 Empty 1 0 1 0 1 0",
];
