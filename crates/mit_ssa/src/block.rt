//! Operators and their blocks, before they are numbered through.
ghost use Rattle.std.specs.Prelude.{◌≡◌};

use mit_ops::{Leave, OpSpec, Route};
use std::marker::Model;

/// A `Vec` that contracts see as the list of its elements.
#[derive(Drop)]
pub(crate) struct Listing<T> {
    items: Vec<T>,
}

impl<T> Model for Listing<T> {
    ghost use Rattle.std.specs.Prelude.{List};
    ghost use Rattle.std.specs.Coded.{coded_list};

    ghost Value = { List T };

    ghost coded = { coded_list T.code };

    ghost view = { λ l. l.items.items };
}

impl<T> Listing<T> {
    /// The list of these.
    pub(crate) fn from_vec(items: Vec<T>) -> Listing<T>
        ensures { result ≡ items.items }
    {
        Listing { items }
    }

    /// Its elements.
    pub(crate) fn into_vec(self) -> Vec<T>
        ensures { result.items ≡ self }
    {
        let Listing { items } = self;
        items
    }
}

/// Where an input comes from.
#[derive(Drop)]
pub(crate) struct Source {
    /// The number of an operator in the plan.
    pub(crate) from: u32,
    /// The route of its rows.
    pub(crate) route: Route,
}

/// An operator.
#[derive(Drop)]
pub(crate) struct Operator {
    /// The statement that it stands for, from 1; 0 for a phi.
    pub(crate) statement: u32,
    /// What it computes.
    pub(crate) spec: OpSpec,
    /// How many operands it has, if it is a phi; else 0.
    pub(crate) phi: u16,
    /// Where its inputs come from, or its operands if it is a phi.
    pub(crate) inputs: Listing<Source>,
}

/// Operators that run one after another, and how the script goes on after them.
#[derive(Drop)]
pub(crate) struct Block {
    pub(crate) operators: Listing<Operator>,
    pub(crate) leave: Leave,
}
