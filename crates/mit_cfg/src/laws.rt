//! Laws of blocks. Each is the contract of a function that does nothing.
ghost use Rattle.std.specs.Prelude.{◌≡◌, ℕ, ◌+◌, ◌*◌, List, length};
ghost use Rattle.mit_files.specs.Files.{FileMap};
ghost use Rattle.mit_ops.specs.Endings.{Ending};
ghost use Rattle.mit_script.specs.Execution.{exec};
ghost use Rattle.mit_script.specs.Trees.{IsFormed};
ghost use Rattle.mit_script.specs.declared.tree.Script.{Script};
ghost use Rattle.mit_cfg.specs.Blocks.{blocks_of};
ghost use Rattle.mit_cfg.specs.Walk.{at_ending, walk};
ghost use Rattle.mit_cfg.specs.declared.block.Block.{Block};

/// Walking the blocks of a script comes to the ending that the script has where it is executed step by step: the same
/// writes in order and the same number of decisions, or the same fault. It comes to it within as many places as there
/// are blocks, for each decision that may be taken and once more, and stays there.
pub fn walk_law()
    ensures exec { (script : Script) (files : FileMap) (decisions : ℕ) → IsFormed script
        → walk (blocks_of script) files decisions ((decisions + 1) * length (blocks_of script))
        ≡ at_ending (exec script files decisions) }
    ensures stays { (blocks : List Block) (files : FileMap) (decisions places more : ℕ) (ending : Ending)
        → walk blocks files decisions places ≡ at_ending ending
        → walk blocks files decisions (more + places) ≡ at_ending ending }
{}
