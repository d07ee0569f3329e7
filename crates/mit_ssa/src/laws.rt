//! Laws of the plans of scripts. Each is the contract of a function that does nothing.
ghost use Rattle.std.specs.Prelude.{◌≡◌, ◌≤◌, List, Ok, length};
ghost use Rattle.mit_cfg.specs.Blocks.{blocks_of};
ghost use Rattle.mit_ops.specs.declared.types.VarType.{VarType};
ghost use Rattle.mit_plan.specs.Valid.{BlocksReached, BranchesDecide, EdgesGoUp, EdgesInOrder, HasTypes, InputsHaveEdges};
ghost use Rattle.mit_plan.specs.Valid.{IsValid, IsWithinLimits, JumpsEnd, LeavesNameBlocks, OperandsApart, PhisCopy, PlacesToChoose};
ghost use Rattle.mit_plan.specs.Valid.{RangesFollow, RoutesFit, WritesGiveNothing};
ghost use Rattle.mit_plan.specs.declared.plan.TheConstants.{MAX_EDGES, MAX_OPS};
ghost use Rattle.mit_script.specs.Accepted.{checked};
ghost use Rattle.mit_script.specs.Trees.{IsFormed};
ghost use Rattle.mit_script.specs.declared.tree.Script.{Script};
ghost use Rattle.mit_ssa.specs.PlanFor.{IsLarge, plan_for};
ghost use Rattle.mit_ssa.specs.Reaching.{Reaches, Reaching};

/// What the plan of an accepted script keeps: its blocks, operators and edges are numbered as they should be and name
/// each other, each block is reached and left, and each operator has its inputs. If its operators and edges are few
/// enough, so are its blocks.
pub fn structure_law()
    ensures ranges { (script : Script) (types : List VarType) → IsFormed script → checked script ≡ Ok types → RangesFollow (plan_for script types) }
    ensures phis { (script : Script) (types : List VarType) → IsFormed script → checked script ≡ Ok types → PhisCopy (plan_for script types) }
    ensures order { (script : Script) (types : List VarType) → IsFormed script → checked script ≡ Ok types → EdgesInOrder (plan_for script types) }
    ensures leaves { (script : Script) (types : List VarType) → IsFormed script → checked script ≡ Ok types → LeavesNameBlocks (plan_for script types) }
    ensures jumps { (script : Script) (types : List VarType) → IsFormed script → checked script ≡ Ok types → JumpsEnd (plan_for script types) }
    ensures reached { (script : Script) (types : List VarType) → IsFormed script → checked script ≡ Ok types → BlocksReached (plan_for script types) }
    ensures inputs { (script : Script) (types : List VarType) → IsFormed script → checked script ≡ Ok types → InputsHaveEdges (plan_for script types) }
    ensures writes { (script : Script) (types : List VarType) → IsFormed script → checked script ≡ Ok types → WritesGiveNothing (plan_for script types) }
    ensures limits { (script : Script) (types : List VarType) → IsFormed script → checked script ≡ Ok types
        → length (plan_for script types).ops ≤ MAX_OPS → length (plan_for script types).edges ≤ MAX_EDGES → IsWithinLimits (plan_for script types) }
{}

/// What the plan of a script keeps of definitions: the operands of a phi come from different blocks, none of them its own;
/// inside a block an operator takes what an earlier one gives; and wherever a path comes to an operator, it has a place to
/// choose for each of its inputs.
pub fn definitions_law()
    ensures operands { (script : Script) (types : List VarType) → IsFormed script
        → checked script ≡ Ok types → OperandsApart (plan_for script types) }
    ensures upward { (script : Script) (types : List VarType) → IsFormed script
        → checked script ≡ Ok types → EdgesGoUp (plan_for script types) }
    ensures places { (script : Script) (types : List VarType) → IsFormed script
        → checked script ≡ Ok types → PlacesToChoose (plan_for script types) }
{}

/// What the plan of a script keeps of types: a branch is decided by a truth value; there are types that fit; and by any that
/// fit, each edge has the route that its operator wants.
pub fn types_law()
    ensures branches { (script : Script) (types : List VarType) → IsFormed script
        → checked script ≡ Ok types → BranchesDecide (plan_for script types) }
    ensures types { (script : Script) (types : List VarType) → IsFormed script
        → checked script ≡ Ok types → HasTypes (plan_for script types) }
    ensures routes { (script : Script) (types : List VarType) → IsFormed script
        → checked script ≡ Ok types → RoutesFit (plan_for script types) }
{}

/// The blocks of the plan of an accepted script are those of the script with phis in front, and wherever a path comes to an
/// operator, each of its inputs takes from the operator that defined its variable last.
pub fn reaching_law()
    ensures { (script : Script) (types : List VarType) → IsFormed script → checked script ≡ Ok types
        → (known : Reaching) × Reaches (plan_for script types) (blocks_of script) known }
{}

/// The plan of an accepted script is valid, where it is not too large.
pub fn validity_law()
    ensures { (script : Script) (types : List VarType) → IsFormed script → checked script ≡ Ok types
        → (IsLarge (plan_for script types) → ⊥) → IsValid (plan_for script types) }
{
    structure_law();
    definitions_law();
    types_law();
}
