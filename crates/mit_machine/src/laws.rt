//! Laws of the machine. Each is the contract of a function that does nothing.
ghost use Rattle.std.specs.Prelude.{◌≡◌, ◌≤◌, ◌<◌, ◌+◌, ℕ, List, None, Some, true, Contains, length, slice_get, take};
ghost use Rattle.mit_ops.specs.Endings.{Ending};
ghost use Rattle.mit_plan.specs.Bound.{most_actions};
ghost use Rattle.mit_plan.specs.Chosen.{Choice, chosen, input_numbers};
ghost use Rattle.mit_plan.specs.Held.{senders};
ghost use Rattle.mit_plan.specs.Meant.{meant};
ghost use Rattle.mit_plan.specs.Plans.{edge_at};
ghost use Rattle.mit_machine.specs.Kept.{is_part_kept};
ghost use Rattle.mit_machine.specs.Moves.{Moves, is_hear, is_learn, is_take};
ghost use Rattle.mit_machine.specs.Offers.{bags_taken, bags_under_way, blocks_under_way, offered, released_in, reports_under_way};
ghost use Rattle.mit_machine.specs.Places.{Reports, front, known, own_places, released};
ghost use Rattle.mit_machine.specs.Runs.{IsValidState, Pick, Runs, actions_so_far, after_picks, ended};
ghost use Rattle.mit_machine.specs.State.{Action, Machine, State, after, first_state};

use mit_path::laws::{
    chosen_is_sent_law, last_place_law, longer_view_law, superseded_law, undecided_fate_law,
};
use mit_plan_laws::laws::{longer_path_law, parts_law, path_stops_law, sums_law};

/// The first state is valid, each action that is offered leads to a valid state, and so does each list of picks. What is
/// released never falls, and reaches no further than the window. In a valid state an operator was polled at a place only
/// after the bag that each input chooses there had come from every sender.
pub fn states_law()
    ensures first { (machine : Machine) → IsValidState machine first_state }
    ensures picked { (machine : Machine) (picks : List Pick) (state : State) → Runs machine
        → after_picks machine picks ≡ Some state → IsValidState machine state }
    ensures after { (machine : Machine) (state : State) (action : Action) → Runs machine → IsValidState machine state
        → Contains (offered machine state) action → IsValidState machine (after action state) }
    ensures released { (machine : Machine) (state : State) (action : Action)
        → released_in machine state ≤ released_in machine (after action state) }
    ensures window { (machine : Machine) (reports : Reports)
        → (released machine reports ≤ known machine reports)
        × (released machine reports ≤ front machine reports + machine.window) }
    ensures fed { (machine : Machine) (state : State) (op part count place input from : ℕ)
        (choice : Choice) → IsValidState machine state → count < state.polls op part
        → slice_get (own_places machine.job.plan machine.history.path op) count ≡ Some place
        → Contains (input_numbers machine.job.plan op) input
        → chosen machine.job.plan machine.history.path op input place ≡ Some choice
        → Contains (senders machine.job (edge_at machine.job.plan choice.edge) part) from
        → bags_taken machine state part choice.edge from choice.place ≡ true }
{
    longer_view_law();
    undecided_fate_law();
}

/// An action takes the first message of the channel that it delivers from, and messages come behind the others alone.
pub fn channels_law()
    ensures blocks { (machine : Machine) (state : State) (action : Action) (part : ℕ)
        → Moves (is_learn part action) (blocks_under_way machine state part)
        (blocks_under_way machine (after action state) part) }
    ensures reports { (machine : Machine) (state : State) (action : Action) (op part : ℕ)
        → Moves (is_hear op part action) (reports_under_way machine state op part)
        (reports_under_way machine (after action state) op part) }
    ensures bags { (machine : Machine) (state : State) (action : Action) (edge from to : ℕ) → Runs machine
        → Contains (offered machine state) action
        → Moves (is_take edge from to action) (bags_under_way machine state edge from to)
        (bags_under_way machine (after action state) edge from to) }
{
    longer_view_law();
    undecided_fate_law();
}

/// As long as a run has not ended, something is offered.
pub fn progress_law()
    ensures { (machine : Machine) (state : State) → Runs machine → IsValidState machine state
        → ended machine state ≡ None → 0 < length (offered machine state) }
{
    longer_view_law();
    last_place_law();
    chosen_is_sent_law();
    parts_law();
    path_stops_law();
    sums_law();
}

/// Each action that is offered adds one to the sum of the counters, and the sum is never greater than the bound of the plan.
/// So no run takes more actions.
pub fn bound_law()
    ensures one { (machine : Machine) (state : State) (action : Action) → Contains (offered machine state) action
        → actions_so_far machine (after action state) ≡ actions_so_far machine state + 1 }
    ensures most { (machine : Machine) (state : State) → Runs machine → IsValidState machine state
        → actions_so_far machine state ≤ most_actions machine.job.plan machine.job.decisions machine.job.partitions }
    ensures picks { (machine : Machine) (picks : List Pick) (state : State) → Runs machine
        → after_picks machine picks ≡ Some state
        → length picks ≤ most_actions machine.job.plan machine.job.decisions machine.job.partitions }
{
    states_law();
}

/// How a run ends is what the plan means.
pub fn ending_law()
    ensures { (machine : Machine) (state : State) (ending : Ending) → Runs machine
        → ended machine state ≡ Some ending
        → ending ≡ meant machine.job.plan machine.job.files machine.job.decisions machine.job.partitions }
{
    parts_law();
}

/// What is kept in a longer view, or after more polls, was kept before.
pub fn kept_law()
    ensures { (machine : Machine) (seen polls more further edge place : ℕ) → Runs machine
        → is_part_kept machine.job.plan (take (more + seen) machine.history.path) (further + polls) edge place ≡ true
        → is_part_kept machine.job.plan (take seen machine.history.path) polls edge place ≡ true }
{
    longer_view_law();
    last_place_law();
    longer_path_law();
    superseded_law();
}
