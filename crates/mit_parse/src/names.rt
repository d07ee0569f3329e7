//! The names of variables, numbered in the order in which they appear first.
ghost use Rattle.std.specs.Prelude.{◌≡◌, ◌≤◌, ◌++◌, drop, map, take, All, IfOk, length};
ghost use Rattle.mit_lex.specs.Valid.{IsToken};
ghost use Rattle.mit_lex.specs.declared.limits.TheConstants.{MAX_SCRIPT};
ghost use Rattle.mit_script.specs.Grammar as spec;
ghost use Rattle.mit_script.specs.Reading as reading;
ghost use Rattle.mit_script.specs.Grammar.{kinds};
ghost use Rattle.mit_parse.specs.Words.{IsShortName, texts_of};

use crate::ahead::Ahead;
use indexmap::IndexSet;
use mit_lex::{Token, TokenKind, keyword};
use mit_rows::{Text, TextRefused};
use mit_script::{Args, Name, Names};
use std::alloc::{AllocError, Global};
use std::marker::Model;

/// Names that differ, in an order that numbers them from 0. Contracts see their list.
#[derive(Drop)]
struct Numbered<'a> {
    names: IndexSet<&'a str>,
}

impl<'a> Model for Numbered<'a> {
    ghost use Rattle.std.specs.Prelude.{List, ℕ};
    ghost use Rattle.mit_parse.specs.Words.{texts_of as texts};

    ghost Value = { List (List ℕ) };

    ghost view = { λ n. texts n.names.keys };
}

impl Numbered<'_> {
    /// The number of a name, or 0 where it is not among them.
    fn number(&self, name: &str) -> usize
        ensures { result ≡ spec.number_in self.now name.now }
    {
        self.names.get_index_of(&name).unwrap_or(0)
    }
}

/// The names of a script's variables, which contracts see as their list: no more than a script has bytes, and each of them
/// a byte or more, and no longer than a word.
#[derive(Drop)]
pub(crate) struct VariableNames<'a> {
    numbered: Numbered<'a>,
}

impl<'a> Model for VariableNames<'a> {
    ghost use Rattle.std.specs.Prelude.{List, ℕ, ◌≤◌, All, length};
    ghost use Rattle.mit_lex.specs.declared.limits.TheConstants.{MAX_SCRIPT as MOST};
    ghost use Rattle.mit_parse.specs.Words.{IsShortName as IsShort};

    ghost Value = { List (List ℕ) };

    ghost view = { λ v. v.numbered };

    ghost invariant = { λ v. (length v.numbered ≤ MOST) × All IsShort v.numbered };
}

impl VariableNames<'_> {
    /// The number of a variable of this name.
    pub(crate) fn variable(&self, name: &str) -> u32
        ensures { result ≡ spec.number_in self.now name.now }
    {
        self.numbered.number(name) as u32
    }

    /// The names as those of a script's variables.
    pub(crate) fn kept(&self, alloc: Global) -> Result<Names, AllocError>
        ensures { IfOk result (λ names. names ≡ self.now) }
    {
        Ok(Names::from_vec(kept_all(alloc, self.numbered.names.as_slice())?))
    }
}

/// The names that an operator captures, which contracts see as their list: no more than a run has tokens.
#[derive(Drop)]
pub(crate) struct CapturedNames<'a> {
    numbered: Numbered<'a>,
}

impl<'a> Model for CapturedNames<'a> {
    ghost use Rattle.std.specs.Prelude.{List, ℕ, ◌≤◌, length};
    ghost use Rattle.mit_lex.specs.declared.limits.TheConstants.{MAX_RUN};

    ghost Value = { List (List ℕ) };

    ghost view = { λ c. c.numbered };

    ghost invariant = { λ c. length c.numbered ≤ MAX_RUN };
}

impl CapturedNames<'_> {
    /// The number of a captured name.
    pub(crate) fn capture(&self, name: &str) -> u16
        ensures { result ≡ spec.number_in self.now name.now }
    {
        self.numbered.number(name) as u16
    }
}

/// A name of its own.
fn kept_one(alloc: Global, word: &str) -> Result<Name, AllocError>
    requires { IsShortName word.now }
    ensures { IfOk result (λ name. name ≡ word.now) }
{
    match Text::from_str(alloc, word) {
        Ok(text) => Ok(Name::from_text(text)),
        Err(TextRefused::TooLong) => unreachable!(),
        Err(TextRefused::NoMemory) => Err(AllocError),
    }
}

/// Names of their own.
fn kept_all(alloc: Global, words: &[&str]) -> Result<Vec<Name>, AllocError>
    requires { All IsShortName (texts_of words.now) }
    ensures { IfOk result (λ names. names.items ≡ texts_of words.now) }
{
    let mut names = Vec::new(alloc);
    for word in words {
        names.push(kept_one(alloc, word)?)?;
    }
    Ok(names)
}

/// The names among tokens, in their order.
fn names_in(alloc: Global, tokens: &[Token]) -> Result<Vec<&str>, AllocError>
    ensures { IfOk result (λ words. texts_of words.items ≡ spec.names_in (kinds tokens.now)) }
{
    let mut words = Vec::new(alloc);
    for token in tokens {
        if let TokenKind::Name(name) = &token.kind {
            words.push(name.as_str())?;
        }
    }
    Ok(words)
}

/// Each of these once, in the order in which they appear first.
fn each_once<'a>(alloc: Global, words: &[&'a str]) -> Result<Numbered<'a>, AllocError>
    ensures { IfOk result (λ names. names ≡ spec.each_once (texts_of words.now)) }
{
    let mut names = IndexSet::new(alloc);
    for word in words {
        names.insert(*word)?;
    }
    Ok(Numbered { names })
}

/// The names of a script's variables.
pub(crate) fn variables(alloc: Global, tokens: &[Token]) -> Result<VariableNames<'_>, AllocError>
    requires few { length tokens.now ≤ MAX_SCRIPT }
    requires valid { All (λ token. IsToken token.kind) tokens.now }
    ensures { IfOk result (λ names. names ≡ spec.each_once (spec.names_in (kinds tokens.now))) }
{
    let words = names_in(alloc, tokens)?;
    let numbered = each_once(alloc, &words)?;
    Ok(VariableNames { numbered })
}

/// How many bags an operator takes that begins with this keyword.
fn bags_of_word(place: u8) -> usize
    ensures { result ≡ reading.bags_of_word place }
{
    match place {
        keyword::JOIN | keyword::UNION => 2,
        keyword::MAP
        | keyword::FILTER
        | keyword::FLAT
        | keyword::REDUCE
        | keyword::DISTINCT
        | keyword::ONLY
        | keyword::COUNT
        | keyword::SUM
        | keyword::WRITE => 1,
        _ => 0,
    }
}

/// How many bags the operator at the front takes.
#[tactic(auto, unfolding(mit_script::specs::Reading::bags_ahead))]
fn bags_ahead(tokens: &Ahead<'_>) -> usize
    ensures { result ≡ reading.bags_ahead tokens.now }
{
    match tokens.next() {
        Some((TokenKind::Keyword(place), _)) => bags_of_word(*place),
        _ => 0,
    }
}

/// The words after the first so many.
fn past<'w, 'a>(count: usize, words: &'w [&'a str]) -> &'w [&'a str]
    ensures { result.now ≡ drop count words.now }
{
    &words[count.min(words.len())..]
}

/// The first so many words.
fn first<'w, 'a>(count: usize, words: &'w [&'a str]) -> &'w [&'a str]
    ensures { result.now ≡ take count words.now }
{
    &words[..count.min(words.len())]
}

/// The names that the operator at the front captures.
pub(crate) fn captured_ahead<'a>(
    alloc: Global,
    tokens: &Ahead<'a>,
) -> Result<CapturedNames<'a>, AllocError>
    ensures { IfOk result (λ names. names ≡ spec.captured_in (reading.bags_ahead tokens.now) (reading.run_of tokens.now)) }
{
    let words = names_in(alloc, tokens.run())?;
    let numbered = each_once(alloc, past(bags_ahead(tokens), &words))?;
    Ok(CapturedNames { numbered })
}

/// Adds the numbers of these names.
fn add_numbers(
    numbers: &mut Vec<u32>,
    names: &VariableNames<'_>,
    words: &[&str],
) -> Result<(), AllocError>
    ensures { IfOk result (λ _. numbers.new.items ≡ numbers.old.items ++ map (spec.number_in names.now) (texts_of words.now)) }
{
    for word in words {
        numbers.push(names.variable(word))?;
    }
    Ok(())
}

/// The numbers of these names, and then those of the others.
fn numbers_of(
    alloc: Global,
    names: &VariableNames<'_>,
    words: &[&str],
    others: &[&str],
) -> Result<Args, AllocError>
    ensures { IfOk result (λ args. args ≡ map (spec.number_in names.now) (texts_of words.now ++ texts_of others.now)) }
{
    let mut numbers = Vec::new(alloc);
    add_numbers(&mut numbers, names, words)?;
    add_numbers(&mut numbers, names, others)?;
    Ok(Args::from_vec(numbers))
}

/// The arguments of the operator of this run, which takes so many bags.
pub(crate) fn arguments(
    alloc: Global,
    names: &VariableNames<'_>,
    bags: usize,
    run: &[Token],
) -> Result<Args, AllocError>
    ensures { IfOk result (λ args. args ≡ spec.arguments_in names.now bags (kinds run.now)) }
{
    let words = names_in(alloc, run)?;
    let captured = each_once(alloc, past(bags, &words))?;
    let others = captured.names.as_slice();
    numbers_of(alloc, names, first(bags, &words), others)
}
