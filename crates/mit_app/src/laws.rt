//! Laws of the definitions on which the top call stands. Each is the contract of a function that does nothing.
ghost use Rattle.std.specs.Prelude.{◌≡◌, ◌↔◌, ℕ, List, true};
ghost use Rattle.mit_files.specs.Files.{FileMap};
ghost use Rattle.mit_plan.specs.Plans.{PlanOf};
ghost use Rattle.mit_ssa.specs.PlanFor.{IsLarge};
ghost use Rattle.mit_words.specs.Words.{IsCommand};
ghost use Rattle.mit_words.specs.declared.words.Task.{Task};
ghost use Rattle.mit_app.specs.Due.{Due, Verdict, is_too_large};

use mit_parse::laws::one_reading;

/// Over the same words and files one verdict is due, and no other.
pub fn one_verdict()
    ensures some { (words : List (List ℕ)) (files : FileMap) (task : Task) (name : List ℕ) → IsCommand words task name
        → (verdict : Verdict) × Due words files verdict }
    ensures once { (words : List (List ℕ)) (files : FileMap) (a b : Verdict) → Due words files a → Due words files b → a ≡ b }
{
    one_reading();
}

/// The test of a plan's size, by which a script is refused, answers exactly what the rules of plans say.
pub fn plan_sizes()
    ensures { (plan : PlanOf) → (is_too_large plan ≡ true) ↔ IsLarge plan }
{}
