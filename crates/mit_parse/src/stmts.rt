//! Statements and scripts.
ghost use Rattle.std.specs.Prelude.{◌≡◌, ◌≤◌, ◌+◌, All, length};
ghost use Rattle.mit_lex.specs.Valid.{IsToken};
ghost use Rattle.mit_lex.specs.declared.limits.TheConstants.{MAX_SCRIPT};
ghost use Rattle.mit_script.specs.Grammar.{kinds};
ghost use Rattle.mit_script.specs.Reading as spec;
ghost use Rattle.mit_parse.specs.Forms.{ending_symbol, form_at as spec_form_at};
ghost use Rattle.mit_parse.specs.Gives.{GivesAs, GivesReading};
ghost use Rattle.mit_parse.specs.Runs.{HasShortRuns};
ghost use Rattle.mit_parse.specs.Words.{closed_operation as spec_closed};

use crate::ahead::Ahead;
use crate::beside::beside;
use crate::names::{VariableNames, arguments, captured_ahead, variables};
use crate::right::{Form, form_at};
use crate::stop::Stop;
use crate::tokens::{after_next, ended_by, expect_symbol, next_name, sees_word};
use mit_lex::{Token, TokenKind, keyword, symbol};
use mit_ops::OpSpec;
use mit_script::{Args, Script, Stmt};
use sqlite_items::Items;
use std::alloc::Global;

/// An operator and its arguments.
type Operation = (OpSpec, Args);

/// An operator whose form was read up to `rest`, with the symbol that ends its run.
fn closed<'a>(
    alloc: Global,
    names: &VariableNames<'_>,
    ending: u8,
    op: OpSpec,
    run: &[Token],
    rest: Ahead<'a>,
) -> Result<(Operation, Ahead<'a>), Stop<'a>>
    ensures { GivesReading result
        (spec_closed ending names.now op (kinds run.now) rest.entry) }
{
    let (op, rest) = beside(op, expect_symbol(ending, rest))?;
    let bags = usize::from(op.bag_inputs());
    let operation = beside(op, arguments(alloc, names, bags, run))?;
    Ok((operation, rest))
}

/// An operator of this form, with the names that it captures.
#[tactic(auto, unfolding(mit_script::specs::Reading::number_ahead))]
fn form_ahead<'a>(
    alloc: Global,
    form: Form,
    most: usize,
    tokens: Ahead<'a>,
) -> Result<(OpSpec, Ahead<'a>), Stop<'a>>
    ensures { GivesReading result (spec_form_at form (spec.number_ahead tokens.entry) most tokens.entry) }
{
    let captured = captured_ahead(alloc, &tokens)?;
    form_at(alloc, &captured, form, most, tokens)
}

/// An operator of this form with its arguments, up to and with the symbol that ends its run.
#[tactic(auto, unfolding(mit_script::specs::Reading::operation))]
fn operation<'a>(
    alloc: Global,
    names: &VariableNames<'_>,
    form: Form,
    most: usize,
    tokens: Ahead<'a>,
) -> Result<(Operation, Ahead<'a>), Stop<'a>>
    ensures { GivesReading result
        (spec.operation (spec_form_at form) (ending_symbol form) names.now most tokens.entry) }
{
    let run = tokens.run();
    let (op, rest) = form_ahead(alloc, form, most, tokens)?;
    closed(alloc, names, form.ending(), op, run, rest)
}

/// An assignment.
#[tactic(auto, unfolding(mit_script::specs::Reading::assignment))]
fn assignment<'a>(
    alloc: Global,
    names: &VariableNames<'_>,
    most: usize,
    tokens: Ahead<'a>,
) -> Result<(Stmt, Ahead<'a>), Stop<'a>>
    ensures { GivesReading result (spec.assignment names.now most tokens.entry) }
{
    let (target, rest) = next_name(tokens)?;
    let rest = expect_symbol(symbol::EQUALS, rest)?;
    let ((op, args), rest) = operation(alloc, names, Form::Right, most, rest)?;
    let target = names.variable(target.as_str());
    Ok((Stmt::Assign { target, op, args }, rest))
}

/// A write.
#[tactic(auto, unfolding(mit_script::specs::Reading::write_statement))]
fn write<'a>(
    alloc: Global,
    names: &VariableNames<'_>,
    most: usize,
    tokens: Ahead<'a>,
) -> Result<(Stmt, Ahead<'a>), Stop<'a>>
    ensures { GivesReading result (spec.write_statement names.now most tokens.entry) }
{
    let ((op, args), rest) = operation(alloc, names, Form::Write, most, tokens)?;
    Ok((Stmt::Write { op, args }, rest))
}

/// The rest of a block, after its `{`.
#[cycle(statements)]
#[tactic(auto, unfolding(mit_script::specs::Reading::rest_of_block))]
fn block_at<'a>(
    alloc: Global,
    names: &VariableNames<'_>,
    most: usize,
    left: usize,
    tokens: Ahead<'a>,
) -> Result<(Items<Stmt>, Ahead<'a>), Stop<'a>>
    ensures { GivesReading result
        (spec.rest_of_block (spec.statements names.now most left) tokens.entry) }
{
    let (body, rest) = statements(alloc, names, most, left, tokens)?;
    ended_by(symbol::RIGHT_BRACE, Items::from_vec(body), rest)
}

/// What stands after the first block of an `if`.
#[cycle(statements)]
#[tactic(auto, unfolding(mit_script::specs::Reading::else_at))]
fn else_at<'a>(
    alloc: Global,
    names: &VariableNames<'_>,
    most: usize,
    left: usize,
    tokens: Ahead<'a>,
) -> Result<(Items<Stmt>, Ahead<'a>), Stop<'a>>
    ensures { GivesReading result
        (spec.else_at (spec.statements names.now most left) tokens.entry) }
{
    if !sees_word(keyword::ELSE, &tokens) {
        return Ok((Items::new(alloc), tokens));
    }
    let rest = expect_symbol(symbol::LEFT_BRACE, after_next(tokens))?;
    block_at(alloc, names, most, left, rest)
}

/// After the word `if`.
#[cycle(statements)]
#[tactic(auto, unfolding(mit_script::specs::Reading::if_statement))]
fn branch<'a>(
    alloc: Global,
    names: &VariableNames<'_>,
    most: usize,
    left: usize,
    tokens: Ahead<'a>,
) -> Result<(Stmt, Ahead<'a>), Stop<'a>>
    ensures { GivesReading result
        (spec.if_statement (spec.statements names.now most left) names.now most tokens.entry) }
{
    let (condition, rest) = operation(alloc, names, Form::Condition, most, tokens)?;
    let (condition, (yes, rest)) = beside(condition, block_at(alloc, names, most, left, rest))?;
    let (before, (no, rest)) = beside((condition, yes), else_at(alloc, names, most, left, rest))?;
    let ((op, args), yes) = before;
    Ok((Stmt::If { op, args, yes, no }, rest))
}

/// After the word `while`.
#[cycle(statements)]
fn repeated<'a>(
    alloc: Global,
    names: &VariableNames<'_>,
    most: usize,
    left: usize,
    tokens: Ahead<'a>,
) -> Result<(Stmt, Ahead<'a>), Stop<'a>>
    ensures { GivesReading result
        (spec.while_statement (spec.statements names.now most left) names.now most tokens.entry) }
{
    let (condition, rest) = operation(alloc, names, Form::Condition, most, tokens)?;
    let (condition, (body, rest)) = beside(condition, block_at(alloc, names, most, left, rest))?;
    let (op, args) = condition;
    Ok((Stmt::While { op, args, body }, rest))
}

/// A statement. Those in its blocks are nested at most so deep.
#[cycle(statements)]
#[tactic(auto, unfolding(mit_script::specs::Reading::statement))]
fn statement<'a>(
    alloc: Global,
    names: &VariableNames<'_>,
    most: usize,
    left: usize,
    tokens: Ahead<'a>,
) -> Result<(Stmt, Ahead<'a>), Stop<'a>>
    ensures { GivesReading result
        (spec.statement (spec.statements names.now most left) names.now most tokens.entry) }
{
    if sees_word(keyword::WRITE, &tokens) {
        return write(alloc, names, most, tokens);
    }
    if sees_word(keyword::IF, &tokens) {
        return branch(alloc, names, most, left, after_next(tokens));
    }
    if sees_word(keyword::WHILE, &tokens) {
        return repeated(alloc, names, most, left, after_next(tokens));
    }
    assignment(alloc, names, most, tokens)
}

/// Whether the token at the front begins a statement.
#[tactic(auto, unfolding(mit_script::specs::Reading::begins_statement))]
fn begins_statement(tokens: &Ahead<'_>) -> bool
    ensures { result ≡ spec.begins_statement tokens.now }
{
    let Some((kind, _)) = tokens.next() else {
        return false;
    };
    match kind {
        TokenKind::Name(_) => true,
        TokenKind::Keyword(place) => {
            *place == keyword::WRITE || *place == keyword::IF || *place == keyword::WHILE
        }
        _ => false,
    }
}

/// Statements one after another: fewer than `left`, nested less deep than that.
#[cycle(statements)]
fn statements<'a>(
    alloc: Global,
    names: &VariableNames<'_>,
    most: usize,
    left: usize,
    tokens: Ahead<'a>,
) -> Result<(Vec<Stmt>, Ahead<'a>), Stop<'a>>
    ensures { GivesAs (λ x. (x.0.items, x.1)) result (spec.statements names.now most left tokens.entry) }
{
    let mut found = Vec::new(alloc);
    let mut rest = tokens;
    for turn in 0..left {
        if !begins_statement(&rest) {
            return Ok((found, rest));
        }
        let (next, after) = statement(alloc, names, most, left - turn - 1, rest)?;
        found.push(next)?;
        rest = after;
    }
    Err(Stop::Refused(rest))
}

/// The statements of a script, which are all its tokens.
fn body<'a>(
    alloc: Global,
    names: &VariableNames<'_>,
    tokens: Ahead<'a>,
) -> Result<Vec<Stmt>, Stop<'a>>
    ensures { GivesAs (λ body. body.items) result
        (spec.ended_reading (spec.statements names.now (length tokens.entry + 1) (length tokens.entry + 1) tokens.entry)) }
{
    let most = tokens.len() + 1;
    let (found, rest) = statements(alloc, names, most, most, tokens)?;
    if rest.len() > 0 {
        return Err(Stop::Refused(rest));
    }
    Ok(found)
}

/// The script of these tokens, by the names of its variables.
fn script_over<'a>(
    alloc: Global,
    names: &VariableNames<'_>,
    tokens: Ahead<'a>,
) -> Result<Script, Stop<'a>>
    ensures { GivesReading result
        (spec.with_names names.now (spec.ended_reading (spec.statements names.now (length tokens.entry + 1) (length tokens.entry + 1) tokens.entry))) }
{
    let body = Items::from_vec(body(alloc, names, tokens)?);
    let (body, names) = beside(body, names.kept(alloc))?;
    Ok(Script { body, names })
}

/// The script of these tokens.
#[tactic(auto, unfolding(mit_script::specs::Reading::read_script))]
pub(crate) fn read_script(alloc: Global, tokens: &[Token]) -> Result<Script, Stop<'_>>
    requires few { length tokens.now ≤ MAX_SCRIPT }
    requires valid { All (λ token. IsToken token.kind) tokens.now }
    requires short { HasShortRuns (kinds tokens.now) }
    ensures { GivesReading result (spec.read_script (kinds tokens.now)) }
{
    let names = variables(alloc, tokens)?;
    script_over(alloc, &names, Ahead::of(tokens))
}
