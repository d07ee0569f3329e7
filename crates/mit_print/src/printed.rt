//! The printed text of a script: its statements, one a line.
ghost use Rattle.std.specs.Prelude.{◌≡◌, ◌∷◌, ◌++◌, [], codes, map, IfOk, OnOk};
ghost use Rattle.mit_lex.specs.Written.{token_text};
ghost use Rattle.mit_lex.specs.declared.symbol.TheConstants as sign;
ghost use Rattle.mit_lex.specs.declared.keyword.TheConstants as word;
ghost use Rattle.mit_lex.specs.declared.token.TokenKind.TheVariants as token;
ghost use Rattle.mit_script.specs.Grammar.{IsSpelled};
ghost use Rattle.mit_script.specs.PrintsBack.{CanBeSpelled, KeepsLimits, PrintsBack};
ghost use Rattle.mit_print.specs.Printed as spec;
ghost use Rattle.mit_print.specs.Printed.{line_of, line_text, lines_text, printed};
ghost use Rattle.mit_print.specs.PrintedTokens.{op_tokens};

use crate::printed_tokens::{add_keyword, add_name, add_op, add_symbol, variable_name};
use mit_lex::laws::writing_law;
use mit_lex::{keyword, symbol, symbol_bytes};
use mit_ops::OpSpec;
use mit_script::{Args, Name, Script, Stmt};
use std::alloc::{AllocError, Global};

/// The end of a line: its last token, a symbol.
fn add_last(text: &mut Vec<u8>, last: u8) -> Result<(), AllocError>
    ensures { OnOk result (text.new.items ≡ text.old.items ++ token_text (token.Symbol last) ++ codes "\n") }
{
    text.extend_from_slice(symbol_bytes(last))?;
    text.push(b'\n')?;
    Ok(())
}

/// The line that ends a block.
fn add_end(text: &mut Vec<u8>, indent: &[u8]) -> Result<(), AllocError>
    ensures { OnOk result (text.new.items ≡ text.old.items
        ++ line_text (line_of indent.now [] (token.Symbol sign.RIGHT_BRACE))) }
{
    text.extend_from_slice(indent)?;
    add_last(text, symbol::RIGHT_BRACE)
}

/// The line between the blocks of an `if`.
fn add_else(text: &mut Vec<u8>, indent: &[u8]) -> Result<(), AllocError>
    ensures { OnOk result (text.new.items ≡ text.old.items ++ line_text (line_of indent.now
        (token.Symbol sign.RIGHT_BRACE ∷ token.Keyword word.ELSE ∷ []) (token.Symbol sign.LEFT_BRACE))) }
{
    text.extend_from_slice(indent)?;
    add_symbol(text, symbol::RIGHT_BRACE)?;
    add_keyword(text, keyword::ELSE)?;
    add_last(text, symbol::LEFT_BRACE)
}

/// The line of an assignment.
fn add_assignment(
    text: &mut Vec<u8>,
    names: &[Name],
    indent: &[u8],
    target: &[u8],
    op: &OpSpec,
    args: &Args,
) -> Result<(), AllocError>
    ensures { OnOk result (text.new.items ≡ text.old.items ++ line_text (line_of indent.now
        (token.Name target.now ∷ token.Symbol sign.EQUALS ∷ op_tokens names.now args.now op.now)
        (token.Symbol sign.SEMICOLON))) }
{
    text.extend_from_slice(indent)?;
    add_name(text, target)?;
    add_symbol(text, symbol::EQUALS)?;
    add_op(text, names, args.as_slice(), op)?;
    add_last(text, symbol::SEMICOLON)
}

/// The line of a write.
fn add_write(
    text: &mut Vec<u8>,
    names: &[Name],
    indent: &[u8],
    op: &OpSpec,
    args: &Args,
) -> Result<(), AllocError>
    ensures { OnOk result (text.new.items ≡ text.old.items ++ line_text (line_of indent.now
        (op_tokens names.now args.now op.now) (token.Symbol sign.SEMICOLON))) }
{
    text.extend_from_slice(indent)?;
    add_op(text, names, args.as_slice(), op)?;
    add_last(text, symbol::SEMICOLON)
}

/// The line before a block: a keyword and a condition.
fn add_condition(
    text: &mut Vec<u8>,
    names: &[Name],
    indent: &[u8],
    first: u8,
    op: &OpSpec,
    args: &Args,
) -> Result<(), AllocError>
    ensures { OnOk result (text.new.items ≡ text.old.items ++ line_text (line_of indent.now
        (token.Keyword first ∷ op_tokens names.now args.now op.now) (token.Symbol sign.LEFT_BRACE))) }
{
    text.extend_from_slice(indent)?;
    add_keyword(text, first)?;
    add_op(text, names, args.as_slice(), op)?;
    add_last(text, symbol::LEFT_BRACE)
}

/// The indentation of the statements in a block, two blanks deeper.
fn deeper(alloc: Global, indent: &[u8]) -> Result<Vec<u8>, AllocError>
    ensures { IfOk result (λ inner. inner.items ≡ spec.deeper indent.now) }
{
    let mut inner = Vec::from_slice(alloc, indent)?;
    inner.extend_from_slice(b"  ")?;
    Ok(inner)
}

/// Statements one after another.
#[cycle(add_all)]
fn add_all(
    alloc: Global,
    text: &mut Vec<u8>,
    names: &[Name],
    indent: &[u8],
    stmts: &[Stmt],
) -> Result<(), AllocError>
    ensures { OnOk result (text.new.items ≡ text.old.items
        ++ lines_text (spec.block_lines names.now stmts.now indent.now)) }
{
    for stmt in stmts {
        add_stmt(alloc, text, names, indent, stmt)?;
    }
    Ok(())
}

/// The statements of a block.
#[cycle(add_all)]
fn add_block(
    alloc: Global,
    text: &mut Vec<u8>,
    names: &[Name],
    indent: &[u8],
    block: &[Stmt],
) -> Result<(), AllocError>
    ensures { OnOk result (text.new.items ≡ text.old.items
        ++ lines_text (spec.block_lines names.now block.now (spec.deeper indent.now))) }
{
    let inner = deeper(alloc, indent)?;
    add_all(alloc, text, names, &inner, block)
}

/// What stands between the blocks of an `if`, and the second one, where it is not empty.
#[cycle(add_all)]
fn add_other(
    alloc: Global,
    text: &mut Vec<u8>,
    names: &[Name],
    indent: &[u8],
    other: &[Stmt],
) -> Result<(), AllocError>
    ensures { OnOk result (text.new.items ≡ text.old.items
        ++ lines_text (spec.else_lines indent.now (map (spec.stmt_lines names.now) other.now))) }
{
    if other.is_empty() {
        return Ok(());
    }
    add_else(text, indent)?;
    add_block(alloc, text, names, indent, other)
}

/// A statement.
#[cycle(add_all)]
fn add_stmt(
    alloc: Global,
    text: &mut Vec<u8>,
    names: &[Name],
    indent: &[u8],
    stmt: &Stmt,
) -> Result<(), AllocError>
    ensures { OnOk result (text.new.items ≡ text.old.items
        ++ lines_text (spec.stmt_lines names.now stmt.now indent.now)) }
{
    match stmt {
        Stmt::Assign { target, op, args } => {
            add_assignment(text, names, indent, variable_name(names, *target), op, args)
        }
        Stmt::Write { op, args } => add_write(text, names, indent, op, args),
        Stmt::If { op, args, yes, no } => {
            add_condition(text, names, indent, keyword::IF, op, args)?;
            add_block(alloc, text, names, indent, yes.as_slice())?;
            add_other(alloc, text, names, indent, no.as_slice())?;
            add_end(text, indent)
        }
        Stmt::While { op, args, body } => {
            add_condition(text, names, indent, keyword::WHILE, op, args)?;
            add_block(alloc, text, names, indent, body.as_slice())?;
            add_end(text, indent)
        }
    }
}

/// The text of a script: one statement a line, two blanks of indentation for each block around it, one blank between two
/// tokens, and parentheses only where the tree needs them. An empty `else` is left out.
///
/// The text of a script that some tokens spell is cut into tokens that spell it again, and it is read as these where it
/// keeps the limits of a text.
pub fn print(alloc: Global, script: &Script) -> Result<Vec<u8>, AllocError>
    ensures written { IfOk result (λ text. text.items ≡ printed script.now) }
    ensures spelled { IfOk result (λ text. CanBeSpelled script.now → PrintsBack script.now text.items) }
    ensures again { IfOk result (λ text.
        CanBeSpelled script.now → KeepsLimits text.items → IsSpelled text.items script.now) }
{
    writing_law();
    let mut text = Vec::new(alloc);
    add_all(
        alloc,
        &mut text,
        script.names.as_slice(),
        b"",
        script.body.as_slice(),
    )?;
    Ok(text)
}
