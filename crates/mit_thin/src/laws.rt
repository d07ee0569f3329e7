//! A law of thin scripts. A call does nothing: its caller learns what it ensures.
ghost use Rattle.std.specs.Prelude.{◌≡◌, ℕ, List, Some, Ok};
ghost use Rattle.mit_files.specs.Files.{FileMap};
ghost use Rattle.mit_ops.specs.declared.types.VarType.{VarType};
ghost use Rattle.mit_script.specs.Accepted.{checked};
ghost use Rattle.mit_script.specs.Execution.{exec};
ghost use Rattle.mit_script.specs.Trees.{IsFormed, IsNumbered};
ghost use Rattle.mit_script.specs.declared.tree.Script.{Script};
ghost use Rattle.mit_engine.specs.Thin.{IsFormedThin, exec_thin};
ghost use Rattle.mit_engine.specs.declared.thin.ThinStep.{ThinStep};
ghost use Rattle.mit_thin.specs.ThinEndings.{all_of_thin};
ghost use Rattle.mit_thin.specs.ThinScript.{thin_steps};

use mit_bags::laws::bags_are_sorted_lists;

/// The steps of an accepted script that is thin are formed, and end as the script does under the step-by-step interpreter, however
/// many decisions it may take.
pub fn thin_law()
    ensures formed { (script : Script) (types : List VarType) (steps : List ThinStep) → IsFormed script → IsNumbered script
        → checked script ≡ Ok types → thin_steps script ≡ Some steps → IsFormedThin steps }
    ensures means { (script : Script) (types : List VarType) (steps : List ThinStep) (files : FileMap) (decisions : ℕ)
        → IsFormed script → IsNumbered script → checked script ≡ Ok types → thin_steps script ≡ Some steps
        → exec script files decisions ≡ all_of_thin (exec_thin files steps) }
{
    bags_are_sorted_lists();
}
