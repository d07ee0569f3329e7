//! Laws of the grammar. Each is the contract of a function that does nothing.
ghost use Rattle.std.specs.Prelude.{◌≡◌, ◌≤◌, ℕ, List, length, MatchResult};
ghost use Rattle.mit_lex.specs.declared.limits.TheConstants.{MAX_SCRIPT};
ghost use Rattle.mit_script.specs.Grammar.{IsSpelled, Kinds, Spells, StopsBefore};
ghost use Rattle.mit_script.specs.PrintsBack.{CanBeSpelled};
ghost use Rattle.mit_script.specs.Reading.{read_script};
ghost use Rattle.mit_script.specs.Trees.{IsFormed, IsNumbered};
ghost use Rattle.mit_script.specs.declared.tree.Script.{Script};

use mit_lex::laws::validity_law;

/// Tokens spell at most one script.
pub fn spelling_law()
    ensures { (tokens : Kinds) (one other : Script) → Spells one tokens → Spells other tokens → one ≡ other }
{}

/// Reading tokens from left to right gives the script that they spell, or stops before the first token that no spelled
/// list has there.
pub fn reading_law()
    ensures { (tokens : Kinds) → MatchResult (read_script tokens)
        (λ script. Spells script tokens) (λ rest. StopsBefore tokens rest) }
{}

/// What a text's tokens spell is formed, and its variables are numbered in the order in which they appear first.
pub fn formed_law()
    ensures formed { (tokens : Kinds) (script : Script) → Spells script tokens → length tokens ≤ MAX_SCRIPT → IsFormed script }
    ensures numbered { (tokens : Kinds) (script : Script) → Spells script tokens → IsNumbered script }
{}

/// The tokens of a text that spells a script are ones that a text can have. So what is printed of that script is read
/// again.
pub fn printing_law()
    ensures { (text : List ℕ) (script : Script) → IsSpelled text script → CanBeSpelled script }
{
    validity_law();
}
