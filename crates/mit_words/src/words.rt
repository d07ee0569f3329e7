//! The words of a command line.
ghost use Rattle.std.specs.Prelude.{ℕ, List, true, false, IfSome, IfNone};
ghost use Rattle.mit_words.specs.Words.{AreDecisions, IsCommand, IsUsage, texts};
ghost use Rattle.mit_words.specs.Stepped.{IsStepped, IsSteppedWithin};
ghost use Rattle.mit_words.specs.declared.words.Task.TheVariants as task;

use mit_rows::parse_int;
use mit_shelf::legal_name;

/// How many decisions a script may take where the words give no number. Each time that an `if` or a `while` is decided,
/// a decision is taken.
pub const DECISIONS: u32 = 10_000;

/// The most decisions that the words may give.
pub const MAX_DECISIONS: u32 = 1_000_000;

/// What is to be done with a script.
#[derive(Clone, Copy, Debug, PartialEq, Eq)]
pub enum Task {
    /// Run it and publish its files.
    Run,
    /// Run it step by step, with at most so many decisions, and publish its files.
    Step { decisions: u32 },
    /// Check it, and print it where that is asked for.
    Check { print: bool },
    /// Show the text of its plan.
    Plan,
}

/// The task and the script's name, where the words are `run SCRIPT --parts 1`, `step SCRIPT`, `step SCRIPT --decisions N`,
/// `check SCRIPT`, `check SCRIPT --print` or `plan SCRIPT` with a legal name.
pub fn command_of(words: &[String]) -> Option<(Task, &str)>
    ensures command { IfSome result (λ found. IsCommand (texts words.now) found.0 found.1.now) }
    ensures other { IfNone result (IsUsage (texts words.now)) }
{
    if let Some(script) = script_to_run(words) {
        return Some((Task::Run, script));
    }
    if let Some(script) = script_to_step(words) {
        return Some((
            Task::Step {
                decisions: DECISIONS,
            },
            script,
        ));
    }
    if let Some((script, decisions)) = script_to_step_within(words) {
        return Some((Task::Step { decisions }, script));
    }
    if let Some(script) = script_to_check(words) {
        return Some((Task::Check { print: false }, script));
    }
    if let Some(script) = script_to_print(words) {
        return Some((Task::Check { print: true }, script));
    }
    if let Some(script) = script_to_plan(words) {
        return Some((Task::Plan, script));
    }
    None
}

// The script's name, where the words are `run SCRIPT --parts 1` with a legal one.
fn script_to_run(words: &[String]) -> Option<&str>
    ensures command { IfSome result (λ script. IsCommand (texts words.now) task.Run script.now) }
    ensures other { IfNone result ((script : List ℕ) → ¬ IsCommand (texts words.now) task.Run script) }
{
    match words {
        [run, script, parts, one]
            if run.as_str() == "run"
                && parts.as_str() == "--parts"
                && one.as_str() == "1"
                && legal_name(script.as_bytes()) => { Some(script.as_str()) }
        _ => None,
    }
}

// The same of `step SCRIPT`.
fn script_to_step(words: &[String]) -> Option<&str>
    ensures command { IfSome result (λ script. IsStepped (texts words.now) script.now) }
    ensures other { IfNone result ((script : List ℕ) → ¬ IsStepped (texts words.now) script) }
{
    match words {
        [step, script] if step.as_str() == "step" && legal_name(script.as_bytes()) => {
            Some(script.as_str())
        }
        _ => None,
    }
}

// The same of `step SCRIPT --decisions N`, with the number.
fn script_to_step_within(words: &[String]) -> Option<(&str, u32)>
    ensures command { IfSome result (λ found. IsSteppedWithin (texts words.now) found.1 found.0.now) }
    ensures other { IfNone result ((script : List ℕ) (decisions : ℕ) → ¬ IsSteppedWithin (texts words.now) decisions script) }
{
    match words {
        [step, script, within, number]
            if step.as_str() == "step"
                && within.as_str() == "--decisions"
                && legal_name(script.as_bytes()) => {
            Some((script.as_str(), decisions_in(number.as_bytes())?))
        }
        _ => None,
    }
}

// The number of decisions that a word gives: 1 to 20 digits, with a value from 1 to the most.
fn decisions_in(word: &[u8]) -> Option<u32>
    ensures some { IfSome result (AreDecisions word.now) }
    ensures none { IfNone result ((decisions : ℕ) → ¬ AreDecisions word.now decisions) }
{
    if word.len() > 20 {
        return None;
    }
    match parse_int(word) {
        Some(number) if number >= 1 && number <= i64::from(MAX_DECISIONS) => Some(number as u32),
        _ => None,
    }
}

// The same of `check SCRIPT`.
fn script_to_check(words: &[String]) -> Option<&str>
    ensures command { IfSome result (λ script. IsCommand (texts words.now) (task.Check false) script.now) }
    ensures other { IfNone result ((script : List ℕ) → ¬ IsCommand (texts words.now) (task.Check false) script) }
{
    match words {
        [check, script] if check.as_str() == "check" && legal_name(script.as_bytes()) => {
            Some(script.as_str())
        }
        _ => None,
    }
}

// The same of `check SCRIPT --print`.
fn script_to_print(words: &[String]) -> Option<&str>
    ensures command { IfSome result (λ script. IsCommand (texts words.now) (task.Check true) script.now) }
    ensures other { IfNone result ((script : List ℕ) → ¬ IsCommand (texts words.now) (task.Check true) script) }
{
    match words {
        [check, script, print]
            if check.as_str() == "check"
                && print.as_str() == "--print"
                && legal_name(script.as_bytes()) => { Some(script.as_str()) }
        _ => None,
    }
}

// The same of `plan SCRIPT`.
fn script_to_plan(words: &[String]) -> Option<&str>
    ensures command { IfSome result (λ script. IsCommand (texts words.now) task.Plan script.now) }
    ensures other { IfNone result ((script : List ℕ) → ¬ IsCommand (texts words.now) task.Plan script) }
{
    match words {
        [plan, script] if plan.as_str() == "plan" && legal_name(script.as_bytes()) => {
            Some(script.as_str())
        }
        _ => None,
    }
}
