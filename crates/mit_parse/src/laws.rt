//! Laws of the reading of texts. Each is the contract of a function that does nothing.
ghost use Rattle.std.specs.Prelude.{◌≡◌, ◌⊎◌, ℕ, List};
ghost use Rattle.mit_script.specs.Grammar.{IsSpelled};
ghost use Rattle.mit_script.specs.declared.tree.Script.{Script};
ghost use Rattle.mit_parse.specs.Places.{IsRefusedAt};

use mit_grammar::laws::{reading_law, spelling_law};

/// A text spells one script, or is refused at one place, and never both.
pub fn one_reading()
    ensures read { (text : List ℕ) → ((script : Script) × IsSpelled text script) ⊎ ((place : ℕ) × IsRefusedAt text place) }
    ensures script { (text : List ℕ) (one other : Script) → IsSpelled text one → IsSpelled text other → one ≡ other }
    ensures place { (text : List ℕ) (one other : ℕ) → IsRefusedAt text one → IsRefusedAt text other → one ≡ other }
    ensures either { (text : List ℕ) (script : Script) (place : ℕ) → IsSpelled text script → IsRefusedAt text place → ⊥ }
{
    spelling_law();
    reading_law();
}
