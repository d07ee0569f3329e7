//! Laws of what a plan means without messages. A call does nothing: its caller learns what it ensures.
ghost use Rattle.std.specs.Prelude.{◌≡◌, ◌<◌, ◌+◌, ◌++◌, ℕ, List, Some, None, IsSome, Ok, filter_map, length, slice_index};
ghost use Rattle.mit_rows.specs.Bags.{BagOf};
ghost use Rattle.mit_expr.specs.declared.expr.Expr.{Expr};
ghost use Rattle.mit_ops.specs.Operators.{name_written, whole};
ghost use Rattle.mit_ops.specs.declared.kinds.OpSpec.TheVariants as op;
ghost use Rattle.mit_plan.specs.Bound.{most_places};
ghost use Rattle.mit_plan.specs.Chosen.{chosen};
ghost use Rattle.mit_plan.specs.Explained.{Explained, Extends};
ghost use Rattle.mit_plan.specs.Held.{History, Job, as_part, enters, held, part, run};
ghost use Rattle.mit_plan.specs.Meant.{fault_at, faults_of, made, pair, pairs_at, write_at, write_of, writes_of};
ghost use Rattle.mit_plan.specs.Plans.{PlanOf, block_at};
ghost use Rattle.mit_plan.specs.Sums.{TakesBags, bag_at, spec_at};
ghost use Rattle.mit_plan.specs.Valid.{EdgesGoUp, JumpsEnd, RangesFollow};

use mit_bags::laws::bags_are_sorted_lists;
use mit_op_laws::laws::{answers_add_up, partition_law, routes_law};
use mit_path::laws::{last_place_law, longer_view_law};

/// A choice is the same on a longer path.
pub fn longer_path_law()
    ensures { (plan : PlanOf) (path more : List ℕ) (op input place : ℕ) → place < length path
        → chosen plan (path ++ more) op input place ≡ chosen plan path op input place }
{
    longer_view_law();
}

/// A history of more places begins with that of fewer, and what is held at a place stays.
pub fn longer_history_law()
    ensures extends { (job : Job) (places more : ℕ)
        → Extends (run job places).history (run job (more + places)).history }
    ensures held { (job : Job) (places more place index partition : ℕ)
        → place < length (run job places).history.path
        → held (run job (more + places)).history place index partition
        ≡ held (run job places).history place index partition }
{}

/// Where edges inside a block go up, each part of a history is what its operator makes of the history itself.
pub fn parts_law()
    ensures rows { (job : Job) (places : ℕ) → RangesFollow job.plan → EdgesGoUp job.plan
        → Explained job (run job places).history }
    ensures held { (job : Job) (history : History) (place index partition : ℕ) → Explained job history
        → place < length history.path
        → index < (block_at job.plan (slice_index history.path place)).count
        → partition < job.partitions
        → held history place index partition ≡ part job history place index partition }
{
    longer_view_law();
    last_place_law();
}

/// Where jumps alone do not go on for ever, the path stops within as many places as there are blocks, for each decision
/// that may be taken and once more. Where it has stopped it stays.
pub fn path_stops_law()
    ensures stops { (job : Job) → 0 < length job.plan.blocks → JumpsEnd job.plan
        → (run job (most_places job.plan job.decisions)).next ≡ None }
    ensures stays { (job : Job) (places more : ℕ) → (run job places).next ≡ None
        → run job (more + places) ≡ run job places }
{}

/// With one place more the faults and the writes that were found before stay, and those of that place come behind them.
pub fn more_places_law()
    ensures even { (job : Job) (places : ℕ) →
        length (run job places).history.parts ≡ length (run job places).history.path }
    ensures faults { (job : Job) (history : History) (block : ℕ) →
        length history.parts ≡ length history.path → let after = enters job history block in
        faults_of job after ≡ faults_of job history
        ++ filter_map (fault_at job.plan after) (pairs_at job.plan after.path (length history.path)) }
    ensures writes { (job : Job) (history : History) (block : ℕ) →
        length history.parts ≡ length history.path → let after = enters job history block in
        writes_of job after ≡ writes_of job history
        ++ filter_map (write_at job after) (pairs_at job.plan after.path (length history.path)) }
{
    longer_view_law();
    last_place_law();
}

/// Where the bags of an operator's inputs are there, its parts add up to what it makes of the whole bags: to a bag,
/// whose parts are all ok then, or to a fault. So where a part is not ok, there is a fault. A write writes in partition 0
/// what it writes of the whole bags. A scalar is decided in partition 0: its part there is what it is of the whole bags.
pub fn sums_law()
    ensures whole { (job : Job) (history : History) (place index : ℕ) (columns : ℕ → ℕ)
        (bags : List BagOf) → Explained job history → 0 < job.partitions
        → TakesBags job history place index columns bags
        → made history (pair place index) ≡ whole (spec_at job history place index) bags job.files }
    ensures ok { (job : Job) (history : History) (place index : ℕ) (columns : ℕ → ℕ)
        (bags : List BagOf) (bag : BagOf) → Explained job history → 0 < job.partitions
        → TakesBags job history place index columns bags → made history (pair place index) ≡ Ok bag
        → bag_at job history place index ≡ Some bag }
    ensures faulty { (job : Job) (history : History) (place index : ℕ) (columns : ℕ → ℕ)
        (bags : List BagOf) → Explained job history → 0 < job.partitions
        → TakesBags job history place index columns bags → bag_at job history place index ≡ None
        → IsSome (fault_at job.plan history (pair place index)) }
    ensures made { (job : Job) (history : History) (place index : ℕ) (bag : BagOf)
        → Explained job history → place < length history.path
        → index < (block_at job.plan (slice_index history.path place)).count
        → bag_at job history place index ≡ Some bag → made history (pair place index) ≡ Ok bag }
    ensures write { (job : Job) (history : History) (place index : ℕ) (columns : ℕ → ℕ)
        (bags : List BagOf) (name : Expr) → Explained job history → 0 < job.partitions
        → TakesBags job history place index columns bags
        → spec_at job history place index ≡ op.Write name
        → write_at job history (pair place index) ≡ write_of (name_written (op.Write name) bags)
        (as_part (whole (op.Write name) bags job.files)) }
    ensures decides { (job : Job) (history : History) (place index : ℕ) (columns : ℕ → ℕ)
        (bags : List BagOf) (expr : Expr) → Explained job history → 0 < job.partitions
        → TakesBags job history place index columns bags
        → spec_at job history place index ≡ op.Scalar expr
        → held history place index 0 ≡ as_part (whole (op.Scalar expr) bags job.files) }
{
    longer_view_law();
    last_place_law();
    partition_law();
    routes_law();
    answers_add_up::<u64>();
    bags_are_sorted_lists();
}
