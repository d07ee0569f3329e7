//! What an operator makes in one partition of the rows that came to it.
use crate::worth::{Worth, Worths, joined, name_in, row_of, worth_of};
use mit_ops::{Columns, FaultKind, OpSpec};
use std::process::Abort;

/// Rows in any order.
pub(crate) type Rows = Vec<Worths>;

/// A fault, and the row at which it came. The one at the least row counts.
#[derive(Debug, Drop, PartialEq, Eq, PartialOrd, Ord)]
pub(crate) struct FaultAt {
    pub(crate) at: Worths,
    pub(crate) kind: FaultKind,
}

/// Where operators run: over files as `name=1 2 3` with `;` between, in so many partitions.
#[derive(Clone, Copy)]
pub(crate) struct Site<'a> {
    pub(crate) files: &'a str,
    pub(crate) partitions: usize,
}

/// An operator's bags and captured values, and what it made of them so far.
#[derive(Drop)]
struct Maker<'a, R> {
    rt: &'a R,
    bags: &'a [Rows],
    captures: Worths,
    rows: Rows,
    fault: Option<FaultAt>,
}

fn key_in(rt: &impl Abort, columns: &Columns, row: &[Worth]) -> Worth {
    match columns.as_slice() {
        [column] => *row.get(usize::from(*column)).expect(rt, "a column"),
        _ => panic!(rt; "not one key column"),
    }
}

impl<'a, R: Abort + AllocGlobal> Maker<'a, R> {
    /// Whether a fault comes before the one so far.
    fn is_lesser(&self, next: &FaultAt) -> bool {
        match &self.fault {
            Some(fault) => next < fault,
            None => true,
        }
    }

    /// Adds what comes of the row `at`.
    fn settle(&mut self, at: &[Worth], answer: Result<Worths, FaultKind>) {
        match answer {
            Ok(row) => self.rows.push(row).expect(self.rt, "memory"),
            Err(kind) => {
                let at = joined(self.rt, at, &[]);
                let next = FaultAt { at, kind };
                if self.is_lesser(&next) {
                    self.fault = Some(next);
                }
            }
        }
    }

    /// Adds a row, where it is not there yet.
    fn settle_once(&mut self, row: Worths) {
        for other in &self.rows {
            if *other == row {
                return;
            }
        }
        self.settle(&[], Ok(row));
    }

    /// The key of a row, and how many of these rows have it.
    fn counted(&self, keys: &Columns, rows: &[Worths], row: &[Worth]) -> Worths {
        let key = key_in(self.rt, keys, row);
        let mut count = 0_i64;
        for other in rows {
            if key_in(self.rt, keys, other) == key {
                count = count.wrapping_add(1);
            }
        }
        joined(self.rt, &[key], &[Worth::Number(count)])
    }

    /// Adds a row behind each of the left ones with its key.
    fn give_matches(&mut self, left: &Columns, lefts: &[Worths], right: &Columns, row: &[Worth]) {
        for other in lefts {
            if key_in(self.rt, left, other) == key_in(self.rt, right, row) {
                self.settle(row, Ok(joined(self.rt, other, row)));
            }
        }
    }

    /// Adds what a row of a bag gives.
    fn give(&mut self, spec: &OpSpec, rows: &[Worths], row: &[Worth]) {
        let copy = joined(self.rt, row, &[]);
        let answer = match spec {
            OpSpec::Map { exprs } => row_of(self.rt, exprs.as_slice(), row, &self.captures),
            OpSpec::Filter { expr } => match worth_of(self.rt, expr, row, &self.captures) {
                Ok(Worth::Truth(false)) => return,
                Ok(_) => Ok(copy),
                Err(kind) => Err(kind),
            },
            OpSpec::Distinct => return self.settle_once(copy),
            OpSpec::Reduce { keys, .. } => return self.settle_once(self.counted(keys, rows, row)),
            OpSpec::Union | OpSpec::Copy | OpSpec::Write { .. } => Ok(copy),
            _ => panic!(self.rt; "an operator that no script has"),
        };
        self.settle(row, answer);
    }

    /// Adds what all rows give.
    fn give_all(&mut self, spec: &OpSpec) {
        match (spec, self.bags) {
            (OpSpec::Join { left, right }, [lefts, rights]) => {
                for row in rights {
                    self.give_matches(left, lefts, right, row);
                }
            }
            (_, bags) => {
                for rows in bags {
                    for row in rows {
                        self.give(spec, rows, row);
                    }
                }
            }
        }
    }

    /// The row of a scalar, a new row or a count, or the only row.
    fn one_row(&self, spec: &OpSpec) -> Result<Worths, FaultKind> {
        let value = match (spec, self.bags) {
            (OpSpec::Scalar { expr }, _) => worth_of(self.rt, expr, &[], &self.captures)?,
            (OpSpec::MakeRow { exprs }, _) => {
                return row_of(self.rt, exprs.as_slice(), &[], &self.captures);
            }
            (OpSpec::Count, [rows]) => Worth::Number(i64::try_from(rows.len()).unwrap_or(0)),
            (_, [rows]) => match rows.as_slice() {
                [row] => return Ok(joined(self.rt, row, &[])),
                _ => return Err(FaultKind::NotOne(rows.len() as u64)),
            },
            _ => panic!(self.rt; "not one bag"),
        };
        Ok(joined(self.rt, &[value], &[]))
    }

    /// Adds the integers of a file that fall to a partition.
    fn deal(&mut self, site: &Site<'_>, name: &str, to: usize) {
        for file in site.files.split(";") {
            if let Some((found, numbers)) = file.split_once("=")
                && found == name
            {
                for (number, word) in numbers.split(" ").enumerate() {
                    if number.checked_rem(site.partitions) == Some(to) {
                        let value = word.parse::<i64>().expect(self.rt, "an integer");
                        self.settle(&[], Ok(joined(self.rt, &[Worth::Number(value)], &[])));
                    }
                }
                return;
            }
        }
        self.settle(&[], Err(FaultKind::NoFile));
    }

    /// Takes the values of captured scalars: whether each is there.
    fn captures(&mut self, scalars: &[Rows]) -> bool {
        for rows in scalars {
            match rows.as_slice() {
                [row] => self
                    .captures
                    .extend_from_slice(row)
                    .expect(self.rt, "memory"),
                _ => return false,
            }
        }
        true
    }

    /// Adds all that an operator makes in a partition.
    fn make(&mut self, site: &Site<'_>, spec: &OpSpec, partition: usize) {
        match spec {
            OpSpec::Read { name, .. } => self.deal(site, name_in(self.rt, name), partition),
            OpSpec::Scalar { .. } | OpSpec::MakeRow { .. } | OpSpec::Count | OpSpec::Only => {
                if partition == 0 {
                    self.settle(&[], self.one_row(spec));
                }
            }
            _ => self.give_all(spec),
        }
    }
}

/// What an operator makes in a partition of the lists of its inputs.
pub(crate) fn applied<'a>(
    rt: &'a (impl Abort + AllocGlobal),
    site: &Site<'_>,
    spec: &OpSpec,
    partition: usize,
    lists: &'a [Rows],
) -> Result<Rows, FaultAt> {
    let count = usize::from(spec.bag_inputs());
    assert!(rt; count <= lists.len());
    let (bags, scalars) = lists.split_at(count);
    let mut maker = Maker {
        rt,
        bags,
        captures: Vec::new(rt.alloc()),
        rows: Vec::new(rt.alloc()),
        fault: None,
    };
    if maker.captures(scalars) {
        maker.make(site, spec, partition);
    }
    let Maker { rows, fault, .. } = maker;
    match fault {
        Some(fault) => Err(fault),
        None => Ok(rows),
    }
}
