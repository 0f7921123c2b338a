ghost use Rattle.std.specs.Prelude.{◌≡◌, ◌≢◌, ◌↔◌, Some, ℤ, List, Option, [], ◌+◌, ◌≤◌, ◌≤ℤ◌, pos, length, Contains, IsTrue, IfOk, OnOk};
ghost use Rattle.opt_system.specs.Ranges.{LiesIn};
ghost use Rattle.opt_system.specs.Cuts.{IsCut};
ghost use Rattle.opt_bound.specs.Multipliers.{IsAdmissible};
ghost use Rattle.opt_bound.specs.declared.leaf.Leaf.TheVariants.{Empty, AtLeast};
ghost use Rattle.opt_tree.specs.declared.limits.TheConstants.{NODE_LIMIT};
ghost use Rattle.opt_tree.specs.Nodes.{IsLeaf, box_of};
ghost use Rattle.opt_tree.specs.Shown.{leaf_at};
ghost use Rattle.opt_guide.specs.Relations.{AllowsSame};
ghost use Rattle.opt_search.specs.Guided.{IsLine, IsOnePoint, IsCutLine, WasWeighed};
ghost use Rattle.opt_search.specs.State.{IsSound, IsLed, IsComplete, IsOpenLeaf, SettlesBox, Splits, IsClosing, KeepsTree, Falls, best_value, known_in};

use crate::line::{cut_line, line, point_line};
use crate::state::{State, Task};
use opt_base::{OutOfMemory, Point};
use opt_bound::{Mult, leaf_at};
use opt_guide::Guide;
use opt_system::Range;
use std::alloc::Global;

/// Splits one open leaf, which the guide picks, at the guide's cut, and settles its two halves.
pub fn grow<G: Guide>(
    alloc: Global,
    task: &Task<'_>,
    guide: &mut G,
    state: &mut State,
) -> Result<(), OutOfMemory>
    requires gap_from_zero { pos 0 ≤ℤ task.now.gap }
    requires sound { IsSound task.now.system.now task.now.gap state.old }
    requires complete { IsComplete state.old }
    requires some_open { state.old.open_leaves ≢ [] }
    requires room { length state.old.tree.nodes + 2 ≤ NODE_LIMIT }
    ensures sound { OnOk result (IsSound task.now.system.now task.now.gap state.new) }
    ensures complete { OnOk result (IsComplete state.new) }
    ensures two_more { OnOk result (length state.new.tree.nodes ≡ length state.old.tree.nodes + 2) }
    ensures led { (first : Option (List ℤ))
        → IsLed (G.may_weigh guide.old) (G.may_try guide.old) (G.may_cut guide.old)
        task.now.system.now task.now.gap first state.old
        → OnOk result (IsLed (G.may_weigh guide.old) (G.may_try guide.old) (G.may_cut guide.old)
        task.now.system.now task.now.gap first state.new) }
    ensures same { AllowsSame (G.may_weigh guide.old) (G.may_weigh guide.new) (G.may_try guide.old)
        (G.may_try guide.new) (G.may_cut guide.old) (G.may_cut guide.new) }
{
    let leaf = pick(guide, state);
    let cut = cut_leaf(alloc, task, guide, state, leaf.1)?;
    let (left, right) = split(alloc, state, leaf, cut)?;
    settle_child(alloc, task, guide, state, left)?;
    settle_child(alloc, task, guide, state, right)
}

/// The open leaf, by its bound and its number, that the guide picks by its rank; a rank that there is not counts as 0.
fn pick<G: Guide>(guide: &mut G, state: &State) -> (i128, u32)
    requires { state.now.open_leaves ≢ [] }
    ensures is_open { Contains state.now.open_leaves (result.0, result.1) }
    ensures same { AllowsSame (G.may_weigh guide.old) (G.may_weigh guide.new) (G.may_try guide.old)
        (G.may_try guide.new) (G.may_cut guide.old) (G.may_cut guide.new) }
{
    let count = u32::try_from(state.open_leaves.len()).unwrap_or(u32::MAX);
    let rank = guide.pick(count);
    let rank = if rank < count { rank } else { 0 };
    state.open_leaves.ranked(rank as usize)
}

/// The guide's cut of the leaf's box, or the halving in its place.
fn cut_leaf<G: Guide>(
    alloc: Global,
    task: &Task<'_>,
    guide: &mut G,
    state: &State,
    leaf: u32,
) -> Result<(u32, i64), OutOfMemory>
    requires leaf { IsLeaf state.now.tree leaf }
    requires inside { LiesIn task.now.system.now.root (box_of state.now.tree leaf) }
    requires several { ¬ IsOnePoint (box_of state.now.tree leaf) }
    ensures cut { IfOk result (λ cut. IsCut (box_of state.now.tree leaf) cut.0 cut.1) }
    ensures line { IfOk result (λ cut. IsCutLine (G.may_cut guide.old) task.now.system.now
        (box_of state.now.tree leaf) cut.0 cut.1) }
    ensures same { AllowsSame (G.may_weigh guide.old) (G.may_weigh guide.new) (G.may_try guide.old)
        (G.may_try guide.new) (G.may_cut guide.old) (G.may_cut guide.new) }
{
    let range = state.tree.range_of(alloc, leaf)?;
    cut_line(alloc, task.system, &range, guide)
}

/// Splits the open leaf of this bound and number at the cut of this quantity and value; it is open no longer.
fn split(
    alloc: Global,
    state: &mut State,
    leaf: (i128, u32),
    cut: (u32, i64),
) -> Result<(u32, u32), OutOfMemory>
    requires leaf { IsLeaf state.old.tree leaf.1 }
    requires cut { IsCut (box_of state.old.tree leaf.1) cut.0 cut.1 }
    requires room { length state.old.tree.nodes + 2 ≤ NODE_LIMIT }
    ensures split { OnOk result (Splits state.old state.new leaf.0 leaf.1 cut.0 cut.1) }
    ensures left { IfOk result (λ children. children.0 ≡ length state.old.tree.nodes) }
    ensures right { IfOk result (λ children. children.1 ≡ length state.old.tree.nodes + 1) }
{
    match state.tree.split(alloc, leaf.1, cut.0, cut.1) {
        Ok(children) => {
            state.open_leaves.remove(leaf.0, leaf.1);
            Ok(children)
        }
        Err(_) => Err(OutOfMemory),
    }
}

/// Gives a new leaf its multipliers, and weighs one candidate of its box.
fn settle_child<G: Guide>(
    alloc: Global,
    task: &Task<'_>,
    guide: &mut G,
    state: &mut State,
    node: u32,
) -> Result<(), OutOfMemory>
    requires gap_from_zero { pos 0 ≤ℤ task.now.gap }
    requires sound { IsSound task.now.system.now task.now.gap state.old }
    requires next { length state.old.shown.items ≡ node }
    requires leaf { IsLeaf state.old.tree node }
    requires root { leaf_at task.now.system.now task.now.system.now.root state.old.root ≢ Empty }
    ensures sound { OnOk result (IsSound task.now.system.now task.now.gap state.new) }
    ensures settled { OnOk result (SettlesBox (G.may_weigh guide.old) (G.may_try guide.old)
        task.now.system.now state.old state.new node (box_of state.old.tree node)) }
    ensures same { AllowsSame (G.may_weigh guide.old) (G.may_weigh guide.new) (G.may_try guide.old)
        (G.may_try guide.new) (G.may_cut guide.old) (G.may_cut guide.new) }
{
    let range = state.tree.range_of(alloc, node)?;
    let mult = line(alloc, task.system, &range, guide)?;
    settle(alloc, task, guide, state, node, &range, mult)
}

/// Settles the next node, whose box is `range`, with these multipliers of the guide, after one candidate was weighed.
///
/// On a box of one point that point is weighed too, and where it leaves the leaf open, the multipliers are those that
/// judge this point.
pub fn settle<G: Guide>(
    alloc: Global,
    task: &Task<'_>,
    guide: &mut G,
    state: &mut State,
    node: u32,
    range: &Range,
    mult: Mult,
) -> Result<(), OutOfMemory>
    requires gap_from_zero { pos 0 ≤ℤ task.now.gap }
    requires sound { IsSound task.now.system.now task.now.gap state.old }
    requires next { length state.old.shown.items ≡ node }
    requires leaf { IsLeaf state.old.tree node }
    requires own_box { range.now ≡ box_of state.old.tree node }
    requires line { IsLine (G.may_weigh guide.old) task.now.system.now range.now mult }
    requires root { leaf_at task.now.system.now task.now.system.now.root state.old.root ≡ Empty
        → leaf_at task.now.system.now range.now mult ≡ Empty }
    ensures sound { OnOk result (IsSound task.now.system.now task.now.gap state.new) }
    ensures settled { OnOk result (SettlesBox (G.may_weigh guide.old) (G.may_try guide.old)
        task.now.system.now state.old state.new node range.now) }
    ensures same { AllowsSame (G.may_weigh guide.old) (G.may_weigh guide.new) (G.may_try guide.old)
        (G.may_try guide.new) (G.may_cut guide.old) (G.may_cut guide.new) }
{
    let candidate = guide.candidate(alloc, task.system, range)?;
    state.weigh(alloc, task, candidate);
    let mult = leaf_line(alloc, task, state, range, mult)?;
    let _q = mult.q();
    let leaf = leaf_at(task.system, range, &mult);
    state.settle(task, node, mult, leaf)?;
    Ok(())
}

/// The multipliers of a leaf with this box: these, but on a box of one point, after this point was weighed, those that
/// close it.
fn leaf_line(
    alloc: Global,
    task: &Task<'_>,
    state: &mut State,
    range: &Range,
    mult: Mult,
) -> Result<Mult, OutOfMemory>
    requires gap_from_zero { pos 0 ≤ℤ task.now.gap }
    requires sound { IsSound task.now.system.now task.now.gap state.old }
    requires inside { LiesIn task.now.system.now.root range.now }
    requires admissible { IsAdmissible task.now.system.now mult }
    ensures sound { OnOk result (IsSound task.now.system.now task.now.gap state.new) }
    ensures falls { OnOk result (Falls (best_value state.old.best) (best_value state.new.best)) }
    ensures kept { OnOk result (KeepsTree state.old state.new) }
    ensures line { IfOk result (λ line. IsClosing task.now.system.now
        (known_in task.now.gap state.new) range.now mult line) }
{
    if is_one_point(range) {
        let point = Point::from_slice(alloc, range.low())?;
        state.weigh(alloc, task, Some(point));
        closing_line(alloc, task, state, range, mult)
    } else {
        Ok(mult)
    }
}

/// Whether each quantity has just one value in the box.
fn is_one_point(range: &Range) -> bool
    ensures { IsTrue result ↔ IsOnePoint range.now }
{
    range.low() == range.high()
}

/// Multipliers that close a box of one point, which was weighed: these where they do, else those that judge the point.
fn closing_line(
    alloc: Global,
    task: &Task<'_>,
    state: &State,
    range: &Range,
    mult: Mult,
) -> Result<Mult, OutOfMemory>
    requires gap_from_zero { pos 0 ≤ℤ task.now.gap }
    requires inside { LiesIn task.now.system.now.root range.now }
    requires point { IsOnePoint range.now }
    requires admissible { IsAdmissible task.now.system.now mult }
    requires weighed { WasWeighed task.now.system.now (best_value state.now.best) (Some range.now.low) }
    ensures { IfOk result (IsClosing task.now.system.now (known_in task.now.gap state.now) range.now mult) }
{
    let _quantities = task.system.quantities();
    if state.is_closed(task, &leaf_at(task.system, range, &mult)) {
        Ok(mult)
    } else {
        point_line(alloc, task.system, range.low())
    }
}
