//! What plans mean, by their definitions and without messages: each partition's part comes of the parts before it.
use crate::applied::{FaultAt, Rows, Site, applied};
use crate::worth::{Worth, joined, name_in};
use mit_ops::{FaultKind, Leave, OpSpec, Route, ScriptFault};
use mit_plan::{Edge, Plan, PlanBlock, PlanOp};
use std::process::Abort;
use std::slice;

/// A place of the path: its block, the number of its first part, and how many decisions were taken before.
#[derive(Clone, Copy)]
struct Place {
    block: u32,
    first: usize,
    decisions: u32,
}

/// A run so far: its path; the parts by place, index and partition, of which those behind a fault are void; the writes of
/// partition 0; and the first fault.
#[derive(Drop)]
struct Run<'a, R> {
    rt: &'a R,
    plan: &'a Plan,
    site: Site<'a>,
    limit: u32,
    path: Vec<Place>,
    parts: Vec<Option<Result<Rows, FaultAt>>>,
    writes: String,
    fault: Option<ScriptFault>,
}

/// Whether a route leads from one partition to another.
fn leads(route: &Route, from: usize, to: usize) -> bool {
    match route {
        Route::Forward => from == to,
        Route::Gather => to == 0,
        Route::Broadcast | Route::ByKey(_) => true,
    }
}

/// Whether a row goes to a partition to which its route leads: by key, to that of its first key column's integer.
fn goes(route: &Route, row: &[Worth], to: usize, partitions: usize) -> bool {
    let Route::ByKey(columns) = route else {
        return true;
    };
    let column = columns.as_slice().first().unwrap_or(&0);
    match row.get(usize::from(*column)) {
        Some(Worth::Number(number)) => {
            (number.unsigned_abs() as usize).checked_rem(partitions) == Some(to)
        }
        _ => to == 0,
    }
}

/// A write as `name=` and its rows in order, each behind a blank but the first, and `;`.
fn write_text(rt: &(impl Abort + AllocGlobal), name: &str, rows: &Rows) -> String {
    let mut rows = rows.clone().expect(rt, "memory");
    rows.sort().expect(rt, "memory");
    let mut text = String::from_str(rt.alloc(), name).expect(rt, "memory");
    let mut before = "=";
    for row in &rows {
        for value in row {
            let words = match value {
                Worth::Number(number) => format!(in rt.alloc(); "{before}{number}"),
                Worth::Truth(truth) => format!(in rt.alloc(); "{before}{truth}"),
            };
            text.push_str(&words.expect(rt, "memory"))
                .expect(rt, "memory");
            before = ",";
        }
        before = " ";
    }
    text.push_str(";").expect(rt, "memory");
    text
}

impl<'a, R: Abort + AllocGlobal> Run<'a, R> {
    fn op(&self, number: u32) -> &'a PlanOp {
        let ops = self.plan.ops();
        ops.get(number as usize).expect(self.rt, "an operator")
    }

    fn block(&self, number: u32) -> &'a PlanBlock {
        let blocks = self.plan.blocks();
        blocks.get(number as usize).expect(self.rt, "a block")
    }

    /// The rows of the operator with this index at a place, where its part is neither a fault nor void.
    fn rows(&self, at: &Place, index: u32, partition: usize) -> Option<&Rows> {
        let row = (index as usize).wrapping_mul(self.site.partitions);
        let number = at.first.wrapping_add(row).wrapping_add(partition);
        match self.parts.get(number) {
            Some(Some(Ok(rows))) => Some(rows),
            _ => None,
        }
    }

    /// What comes over an edge of the bag of a place, where each part of it is there.
    fn received(&self, edge: &Edge, at: &Place, to: usize) -> Option<Rows> {
        let index = self.op(edge.from).index;
        let mut all = Vec::new(self.rt.alloc());
        for from in 0..self.site.partitions {
            if leads(&edge.route, from, to) {
                for row in self.rows(at, index, from)? {
                    if goes(&edge.route, row, to, self.site.partitions) {
                        let row = joined(self.rt, row, &[]);
                        all.push(row).expect(self.rt, "memory");
                    }
                }
            }
        }
        Some(all)
    }

    /// What an input with these edges takes: the bag of the last of the first so many places with the block of a source.
    fn list_of(&self, edges: &[u32], places: usize, to: usize) -> Option<Rows> {
        let mut chosen = None;
        for at in self.path.iter().take(places) {
            for number in edges {
                let edges = self.plan.edges();
                let edge = edges.get(*number as usize).expect(self.rt, "an edge");
                if self.op(edge.from).block == at.block {
                    chosen = Some((edge, at));
                }
            }
        }
        let (edge, at) = chosen?;
        self.received(edge, at, to)
    }

    /// What all inputs of an operator take. A phi has one input, which takes no bag of its own place.
    fn lists_of(&self, number: u32, place: usize, to: usize) -> Option<Vec<Rows>> {
        let edges = self.plan.edges_to(number);
        let mut lists = Vec::new(self.rt.alloc());
        if self.op(number).phi > 0 {
            let list = self.list_of(edges, place, to)?;
            lists.push(list).expect(self.rt, "memory");
            return Some(lists);
        }
        for edge in edges {
            let list = self.list_of(slice::from_ref(edge), place.wrapping_add(1), to)?;
            lists.push(list).expect(self.rt, "memory");
        }
        Some(lists)
    }

    /// The part of an operator at the last place: void unless it gave rows at each place of its block before.
    fn part(&self, number: u32, place: usize, to: usize) -> Option<Result<Rows, FaultAt>> {
        let op = self.op(number);
        for at in self.path.iter().take(place) {
            if at.block == op.block && self.rows(at, op.index, to).is_none() {
                return None;
            }
        }
        let lists = self.lists_of(number, place, to)?;
        Some(applied(self.rt, &self.site, &op.spec, to, &lists))
    }

    /// Enters a block.
    fn enter(&mut self, number: u32, decisions: u32) -> Place {
        let block = self.block(number);
        let place = self.path.len();
        let at = Place {
            block: number,
            first: self.parts.len(),
            decisions,
        };
        self.path.push(at).expect(self.rt, "memory");
        for index in 0..block.count {
            let number = block.first.wrapping_add(index);
            let first = self.parts.len();
            for partition in 0..self.site.partitions {
                let part = self.part(number, place, partition);
                self.parts.push(part).expect(self.rt, "memory");
            }
            self.note(self.op(number), &at, first);
        }
        at
    }

    /// Keeps what an operator wrote whose parts begin with this number, and its least fault where there is none before it.
    fn note(&mut self, op: &PlanOp, at: &Place, first: usize) {
        if let OpSpec::Write { name } = &op.spec
            && let Some(rows) = self.rows(at, op.index, 0)
        {
            let write = write_text(self.rt, name_in(self.rt, name), rows);
            self.writes.push_str(&write).expect(self.rt, "memory");
        }
        let mut least: Option<&FaultAt> = None;
        for part in self.parts.iter().skip(first) {
            if let Some(Err(fault)) = part {
                least = match least {
                    Some(other) if other <= fault => Some(other),
                    _ => Some(fault),
                };
            }
        }
        if let Some(fault) = least
            && self.fault.is_none()
        {
            self.fault = Some(ScriptFault {
                statement: op.statement,
                decisions: at.decisions,
                kind: fault.kind,
            });
        }
    }

    /// The block that is entered after a place and how many decisions are taken before it, or none where the path stops.
    fn follows(&self, at: &Place) -> Option<(u32, u32)> {
        let block = self.block(at.block);
        match block.leave {
            Leave::Jump(next) => Some((next, at.decisions)),
            Leave::Branch { on_true, on_false } => {
                if at.decisions >= self.limit {
                    return None;
                }
                let rows = self.rows(at, block.count.wrapping_sub(1), 0)?;
                let row = rows.first().expect(self.rt, "a condition");
                let holds = row.first() == Some(&Worth::Truth(true));
                let next = if holds { on_true } else { on_false };
                Some((next, at.decisions.wrapping_add(1)))
            }
            Leave::End => None,
        }
    }

    /// Follows the path to where it stops: how many decisions were taken, or the first fault.
    fn finish(&mut self) -> Result<u32, ScriptFault> {
        let blocks = self.plan.blocks().len() as u64;
        let most = u64::from(self.limit).wrapping_add(1).wrapping_mul(blocks);
        let mut next = Some((0, 0));
        for _ in 0..most {
            let Some((block, decisions)) = next else {
                break;
            };
            let at = self.enter(block, decisions);
            next = self.follows(&at);
        }
        let at = *self.path.last().expect(self.rt, "a place");
        let block = self.block(at.block);
        match (self.fault, block.leave) {
            (Some(fault), _) => Err(fault),
            (None, Leave::End) => Ok(at.decisions),
            _ => Err(ScriptFault {
                statement: self
                    .op(block.first.wrapping_add(block.count).wrapping_sub(1))
                    .statement,
                decisions: self.limit,
                kind: FaultKind::DecisionLimit,
            }),
        }
    }
}

/// What a plan means over these files with so many decisions: its writes in order, and how it ends.
pub(crate) fn meant<'a>(
    rt: &'a (impl Abort + AllocGlobal),
    plan: &'a Plan,
    site: Site<'a>,
    limit: u32,
) -> (String, Result<u32, ScriptFault>) {
    let mut run = Run {
        rt,
        plan,
        site,
        limit,
        path: Vec::new(rt.alloc()),
        parts: Vec::new(rt.alloc()),
        writes: String::new(rt.alloc()),
        fault: None,
    };
    let end = run.finish();
    (run.writes, end)
}
