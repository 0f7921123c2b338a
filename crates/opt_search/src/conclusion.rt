ghost use Rattle.std.specs.Prelude.{◌≡◌, option_map};
ghost use Rattle.opt_tree.specs.Shown.{bound_shown};
ghost use Rattle.opt_search.specs.State.{IsComplete, IsLeastShown, Concludes, best_value, least_after};

use crate::state::State;
use opt_base::Verdict;
use opt_bound::Leaf;
use opt_tree::Outcome;

/// What the search found, once no leaf is open or one more split would pass the limit.
pub fn conclude(state: State) -> Outcome
    requires { IsComplete state }
    ensures verdict { Concludes state result.verdict }
    ensures tree { result.tree ≡ state.tree }
    ensures root { result.root ≡ state.root }
    ensures best { result.best ≡ option_map (λ b. b.point) state.best }
{
    let verdict = verdict_of(&state);
    let State {
        tree,
        shown: _,
        root,
        root_bound: _,
        best,
        open_leaves: _,
    } = state;
    Outcome {
        verdict,
        tree,
        root,
        best: best.map(|best| best.point),
    }
}

/// A plan where a point is known and no leaf is open, no plan where none is and no leaf is open, else unfinished.
fn verdict_of(state: &State) -> Verdict
    requires { IsComplete state.now }
    ensures { Concludes state.now result }
{
    let bound = bound_of(state, least_of(state));
    let closed = state.open_leaves.is_empty();
    match &state.best {
        Some(best) if closed => Verdict::Plan {
            objective: best.value,
            bound,
        },
        None if closed => Verdict::NoPlan,
        best => Verdict::Unfinished {
            bound,
            best: best.as_ref().map(|best| best.value),
        },
    }
}

/// The bound that the tree shows: the least lower bound of its leaves, at least that of the root line and at most the
/// best value; where all leaves are empty, the best value.
fn bound_of(state: &State, least: Option<i128>) -> i128
    ensures { result ≡ bound_shown state.now.root_bound (best_value state.now.best) least }
{
    match (least, &state.best) {
        (Some(least), Some(best)) => best.value.min(state.root_bound.max(least)),
        (Some(least), None) => state.root_bound.max(least),
        (None, Some(best)) => best.value,
        (None, None) => state.root_bound,
    }
}

/// The least lower bound of the leaves that are not empty, where there is one.
fn least_of(state: &State) -> Option<i128>
    requires { IsComplete state.now }
    ensures { IsLeastShown state.now result }
{
    let mut least = None;
    for i in 0..state.tree.nodes() {
        if state.tree.is_leaf(i) {
            least = lower(least, state.shown[i as usize]);
        }
    }
    least
}

/// The least lower bound with that of one leaf more.
fn lower(least: Option<i128>, leaf: Leaf) -> Option<i128>
    ensures { result ≡ least_after least leaf }
{
    match (leaf, least) {
        (Leaf::Empty, _) => least,
        (Leaf::AtLeast(bound), Some(least)) => Some(least.min(bound)),
        (Leaf::AtLeast(bound), None) => Some(bound),
    }
}
