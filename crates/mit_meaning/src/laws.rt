//! The law of what the plans of scripts mean. A call does nothing: its caller learns what it ensures.
ghost use Rattle.std.specs.Prelude.{◌≡◌, ◌<◌, ℕ, List, Ok};
ghost use Rattle.mit_files.specs.Files.{FileMap};
ghost use Rattle.mit_ops.specs.declared.types.VarType.{VarType};
ghost use Rattle.mit_script.specs.Accepted.{checked};
ghost use Rattle.mit_script.specs.Execution.{exec};
ghost use Rattle.mit_script.specs.Trees.{IsFormed};
ghost use Rattle.mit_script.specs.declared.tree.Script.{Script};
ghost use Rattle.mit_plan.specs.Meant.{meant};
ghost use Rattle.mit_ssa.specs.PlanFor.{plan_for};

use mit_bags::laws::bags_are_sorted_lists;
use mit_cfg::laws::walk_law;
use mit_path::laws::last_place_law;
use mit_plan_laws::laws::{more_places_law, parts_law, sums_law};
use mit_ssa::laws::{definitions_law, reaching_law, structure_law, types_law};

/// The plan of an accepted script means what the script does: over all files, for every limit of decisions and cut into any
/// number of partitions it ends as the script does where it is executed step by step, with the same writes in order and the
/// same number of decisions, or with the same first fault.
pub fn meaning_law()
    ensures { (script : Script) (types : List VarType) (files : FileMap)
        (decisions partitions : ℕ) → IsFormed script → checked script ≡ Ok types → 0 < partitions
        → meant (plan_for script types) files decisions partitions ≡ exec script files decisions }
{
    bags_are_sorted_lists();
    last_place_law();
    parts_law();
    more_places_law();
    sums_law();
    walk_law();
    structure_law();
    definitions_law();
    types_law();
    reaching_law();
}
