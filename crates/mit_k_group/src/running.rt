//! What is kept of the rows that an operator was fed.
ghost use Rattle.std.specs.Prelude.{◌≡◌, [], ◌∷◌, ◌++◌, List, IfOk, OnErr, OnOk};
ghost use Rattle.std.specs.FinMap as fin;
ghost use Rattle.mit_rows.specs.Bags.{RowOf};
ghost use Rattle.mit_ops.specs.Kinds.{kind_of};
ghost use Rattle.mit_ops.specs.Operators.{whole};
ghost use Rattle.mit_k_group.specs.GroupKinds.{IsGroupKind};
ghost use Rattle.mit_k_group.specs.Kept.{Holds, StandsForRows, is_one, operator};

use crate::only::{Only, answer_only, count_row};
use indexmap::{IndexMap, IndexSet};
use mit_apply::{Answer, Key, Total};
use mit_keyed::laws::{distinct_law, groups_law, totals_law};
use mit_keyed::{add_to_group, answer_groups, answer_kept, answer_total, keep_once};
use mit_ops::{Agg, Columns, OpSpec};
use mit_rows::Row;
use std::alloc::{AllocError, Global};

/// An operator, with what its answer needs of the rows so far.
#[derive(Drop)]
pub(crate) enum Running {
    /// The total of each key.
    Reduce {
        keys: Columns,
        agg: Agg,
        totals: IndexMap<Key, Total>,
    },
    /// Each row once.
    Distinct {
        kept: IndexSet<Key>,
    },
    /// The first row, and how many there are.
    Only {
        only: Only,
    },
    /// How many rows there are.
    Count {
        total: Total,
    },
    /// The sum of a column.
    Sum {
        column: u8,
        total: Total,
    },
}

impl Running {
    /// The operator, with no rows.
    pub(crate) fn new(alloc: Global, spec: &OpSpec) -> Result<Running, AllocError>
        requires { IsGroupKind (kind_of spec.now) }
        ensures spec { IfOk result (λ running. operator running ≡ spec.now) }
        ensures empty { IfOk result (λ running. Holds running []) }
    {
        match spec {
            OpSpec::Reduce { keys, agg } => Ok(Running::Reduce {
                keys: keys.copy(alloc)?,
                agg: *agg,
                totals: IndexMap::new(alloc),
            }),
            OpSpec::Distinct => Ok(Running::Distinct {
                kept: IndexSet::new(alloc),
            }),
            OpSpec::Only => Ok(Running::Only {
                only: Only {
                    count: 0,
                    first: None,
                },
            }),
            OpSpec::Count => Ok(Running::Count {
                total: Total::new(Agg::Count),
            }),
            OpSpec::Sum { column } => Ok(Running::Sum {
                column: *column,
                total: Total::new(Agg::Sum(*column)),
            }),
            _ => unreachable!(),
        }
    }

    /// Adds a row. Where that fails, what is kept stands for the rows before.
    pub(crate) fn add(&mut self, alloc: Global, row: &Row) -> Result<(), AllocError>
        ensures spec { operator self.new ≡ operator self.old }
        ensures ok { (rows : List RowOf) → Holds self.old rows →
            OnOk result (Holds self.new (rows ++ row.now ∷ [])) }
        ensures err { (rows : List RowOf) → Holds self.old rows → OnErr result (Holds self.new rows) }
    {
        match self {
            Running::Reduce { keys, agg, totals } => {
                add_to_group(totals, alloc, keys.as_slice(), *agg, row)
            }
            Running::Distinct { kept } => keep_once(kept, row),
            Running::Only { only } => count_row(only, row),
            Running::Count { total } => total.add(row),
            Running::Sum { total, .. } => total.add(row),
        }
    }

    /// Whether its answer is one for all rows, which stands in partition 0 alone.
    pub(crate) fn is_one(&self) -> bool
        ensures { result ≡ is_one self.now }
    {
        match self {
            Running::Reduce { .. } | Running::Distinct { .. } => false,
            Running::Only { .. } | Running::Count { .. } | Running::Sum { .. } => true,
        }
    }

    /// The operator over the rows.
    pub(crate) fn answer(&self, alloc: Global) -> Result<Answer, AllocError>
        requires { StandsForRows self.now }
        ensures { (rows : List RowOf) → Holds self.now rows → IfOk result (λ answer. answer
            ≡ whole (operator self.now) (rows ∷ []) fin.empty) }
    {
        distinct_law();
        groups_law();
        totals_law();
        match self {
            Running::Reduce { totals, .. } => answer_groups(totals, alloc),
            Running::Distinct { kept } => answer_kept(kept, alloc),
            Running::Only { only } => answer_only(only, alloc),
            Running::Count { total } => answer_total(total, alloc),
            Running::Sum { total, .. } => answer_total(total, alloc),
        }
    }

    /// Forgets all rows.
    pub(crate) fn clear(&mut self)
        ensures spec { operator self.new ≡ operator self.old }
        ensures empty { Holds self.new [] }
    {
        match self {
            Running::Reduce { totals, .. } => totals.clear(),
            Running::Distinct { kept } => kept.clear(),
            Running::Only { only } => {
                only.count = 0;
                only.first = None;
            }
            Running::Count { total } => *total = Total::new(Agg::Count),
            Running::Sum { column, total } => *total = Total::new(Agg::Sum(*column)),
        }
    }
}
