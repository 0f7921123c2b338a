/// What a search says of a model or a system of rows. Objective, bound and best are in units of the goal: mills, or
/// weighted shortfall.
#[derive(Clone, Copy, Debug, PartialEq, Eq)]
pub enum Verdict {
    /// A plan of this objective, and no feasible plan lies below the bound.
    Plan { objective: i128, bound: i128 },
    /// No plan is feasible.
    NoPlan,
    /// The search stopped early: no feasible plan lies below the bound; the best known objective, where one is known.
    Unfinished { bound: i128, best: Option<i128> },
}
