//! Laws of choice and fate. A call does nothing: its caller learns what it ensures.
ghost use Rattle.std.specs.Prelude.{◌≡◌, ◌≢◌, ◌<◌, ◌≤◌, ℕ, List, ◌++◌, Bool, true, false, length, slice_index, suc, ◌∷◌, ◌||◌};
ghost use Rattle.std.specs.Option.{MatchOption, is_some};
ghost use Rattle.std.specs.List.{list_any};
ghost use Rattle.mit_path.specs.Choice.{chosen_operand};
ghost use Rattle.mit_path.specs.Fate.{fate, first_decides, is_among, is_superseded};
ghost use Rattle.mit_path.specs.Last.{HasNone, IsLast};
ghost use Rattle.mit_path.specs.Views.{first_place_from};

use crate::fate::Fate;

/// A longer view changes no choice, and no fate that was Send or Drop before the path was complete, whether or not it is
/// complete by then. What was superseded stays so.
pub fn longer_view_law()
    ensures choice { (path more operands : List ℕ) (at : ℕ) (phi : Bool) → at < length path
        → chosen_operand (path ++ more) operands at phi ≡ chosen_operand path operands at phi }
    ensures fate { (path more : List ℕ) (source place target : ℕ) (siblings : List ℕ) (phi complete : Bool)
        → fate path source place target siblings phi false ≢ Fate.Undecided
        → fate (path ++ more) source place target siblings phi complete
        ≡ fate path source place target siblings phi false }
    ensures superseded { (path more : List ℕ) (source place : ℕ) (siblings : List ℕ) (complete : Bool)
        → is_superseded path source place siblings false ≡ true
        → is_superseded (path ++ more) source place siblings complete ≡ true }
{}

/// A fate that is undecided goes on with the blocks that come after the view, and is undecided at each later place too.
pub fn undecided_fate_law()
    ensures goes_on { (path more : List ℕ) (source place target : ℕ) (siblings : List ℕ) (phi complete : Bool)
        → place < length path → fate path source place target siblings phi false ≡ Fate.Undecided
        → fate (path ++ more) source place target siblings phi complete
        ≡ first_decides target (source ∷ siblings) complete more }
    ensures waits { (path : List ℕ) (source place later target : ℕ) (siblings : List ℕ) (phi : Bool)
        → place ≤ later → fate path source place target siblings phi false ≡ Fate.Undecided
        → fate path source later target siblings phi false ≡ Fate.Undecided }
{}

/// What is chosen is the last place that fits, and there is no choice exactly where no place fits.
pub fn last_place_law()
    ensures input { (path operands : List ℕ) (at : ℕ)
        → MatchOption (chosen_operand path operands at false)
        (HasNone path operands (suc at)) (IsLast path operands (suc at)) }
    ensures phi { (path operands : List ℕ) (at : ℕ)
        → MatchOption (chosen_operand path operands at true)
        (HasNone path operands at) (IsLast path operands at) }
{}

/// A bag that a place of the target chooses is sent to it, by any view that has the place.
pub fn chosen_is_sent_law()
    ensures { (path operands siblings : List ℕ) (at operand place : ℕ) (phi complete : Bool) → at < length path
        → ((sibling : ℕ) → is_among siblings sibling ≡ true → is_among operands sibling ≡ true)
        → chosen_operand path operands at phi ≡ Some (operand, place)
        → fate path (slice_index path place) place (slice_index path at) siblings phi complete ≡ Fate.Send }
{}

/// A bag is superseded where one of its sources' blocks has a next place, or the path is complete. Where one has, no place
/// after the path chooses the bag.
pub fn superseded_law()
    ensures by_next { (path : List ℕ) (source place : ℕ) (siblings : List ℕ) (complete : Bool)
        → is_superseded path source place siblings complete
        ≡ (complete || list_any (λ block. is_some (first_place_from path block (suc place))) (source ∷ siblings)) }
    ensures unchosen { (path more operands siblings : List ℕ) (source place at operand : ℕ) (phi : Bool)
        → length path ≤ at
        → ((block : ℕ) → is_among (source ∷ siblings) block ≡ true → is_among operands block ≡ true)
        → is_superseded path source place siblings false ≡ true
        → chosen_operand (path ++ more) operands at phi ≢ Some (operand, place) }
{}
