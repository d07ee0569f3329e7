//! The edges that lead to an operator: their channels, and what was received of them.
ghost use Rattle.std.specs.Prelude.{◌≡◌, ◌==◌, ◌<◌, ◌≤◌, ◌++◌, IfOk, IfSome, OnOk, drop, length, map, not, option_to_list, slice_get, slice_set, take};
ghost use Rattle.std.specs.List.{list_all, list_any};
ghost use Rattle.mit_engine.specs.Operators.{bag_received, bags_here, feeds_bag, first_edge, is_here, sends, takes_part};

use crate::channel::Channel;
use mit_bags::Bag;
use std::alloc::{AllocError, Global};
use std::marker::Model;
use std::mem;

/// What an operator has of the bag of an edge.
#[derive(Drop)]
pub(crate) enum Received {
    /// It was not received yet.
    Awaited,
    /// It was received, and waits for the operator's poll.
    Here(Bag),
    /// The poll took it.
    Fed,
}

/// An edge, with its data channel.
#[derive(Drop)]
pub(crate) struct Edge {
    /// The operator from which it leads.
    from: usize,
    parts: Channel<Bag>,
    received: Received,
}

/// The edges that lead to an operator, one for each of its inputs, which contracts see as their list.
#[derive(Drop)]
pub(crate) struct Inputs {
    edges: Vec<Edge>,
}

impl Model for Inputs {
    ghost use Rattle.std.specs.Prelude.{List};
    ghost use Rattle.mit_engine.specs.declared.edges.Edge.{Edge};

    ghost Value = { List Edge };

    ghost view = { λ inputs. inputs.edges.items };
}

impl Inputs {
    /// Edges from these operators, on which nothing was sent.
    pub(crate) fn of(alloc: Global, sources: &[usize]) -> Result<Inputs, AllocError>
        ensures { IfOk result (λ inputs. inputs ≡ map first_edge sources.now) }
    {
        let mut edges = Vec::with_capacity(alloc, sources.len())?;
        for from in sources {
            edges.push(Edge {
                from: *from,
                parts: Channel::new(alloc),
                received: Received::Awaited,
            })?;
        }
        Ok(Inputs { edges })
    }

    /// The edges in order.
    pub(crate) fn as_slice(&self) -> &[Edge]
        ensures { result.now ≡ self.now }
    {
        &self.edges
    }

    /// Receives the oldest message of an edge, where it has one.
    pub(crate) fn take(&mut self, input: usize)
        requires { input < length self.old }
        ensures { IfSome (slice_get self.old input) (λ edge. self.new ≡ slice_set self.old input (takes_part edge)) }
    {
        let edge = &mut self.edges[input];
        if let Some(bag) = edge.parts.take() {
            edge.received = Received::Here(bag);
        }
    }

    /// Whether the bag of each edge was received and not yet fed.
    pub(crate) fn are_here(&self) -> bool
        ensures { result ≡ list_all is_here self.now }
    {
        self.edges.iter().all(Edge::is_here)
    }

    /// Hands out the received bags in the order of the edges.
    pub(crate) fn feed(&mut self, alloc: Global) -> Result<Vec<Bag>, AllocError>
        ensures fed { IfOk result (λ bags. bags.items ≡ bags_here self.old) }
        ensures edges { OnOk result (self.new ≡ map feeds_bag self.old) }
    {
        let mut bags = Vec::with_capacity(alloc, self.edges.len())?;
        for edge in self.edges.iter_mut() {
            if let Some(bag) = edge.feed() {
                bags.push(bag)?;
            }
        }
        Ok(bags)
    }

    /// Whether an edge leads from this operator.
    pub(crate) fn lead_from(&self, from: usize) -> bool
        ensures { result ≡ list_any (λ edge. edge.from == from) self.now }
    {
        self.edges.iter().any(|edge| edge.from == from)
    }

    /// Puts a copy of a bag into the channel of each edge that leads from this operator.
    pub(crate) fn send_copies(
        &mut self,
        alloc: Global,
        from: usize,
        bag: &Bag,
    ) -> Result<(), AllocError>
        ensures { OnOk result (self.new ≡ map (sends from bag.now) self.old) }
    {
        let end = self.edges.len();
        copy_before(alloc, &mut self.edges, end, from, bag)
    }

    /// Puts a bag into the channel of each edge that leads from this operator: itself at the last, and copies before.
    pub(crate) fn send(&mut self, alloc: Global, from: usize, bag: Bag) -> Result<(), AllocError>
        ensures { OnOk result (self.new ≡ map (sends from bag) self.old) }
    {
        for last in (0..self.edges.len()).rev() {
            if self.edges[last].from == from {
                copy_before(alloc, &mut self.edges, last, from, &bag)?;
                return self.edges[last].parts.put(bag);
            }
        }
        Ok(())
    }
}

// Puts a copy of a bag into the channel of each edge before this place that leads from this operator.
fn copy_before(
    alloc: Global,
    edges: &mut [Edge],
    end: usize,
    from: usize,
    bag: &Bag,
) -> Result<(), AllocError>
    requires { end ≤ length edges.old }
    ensures { OnOk result (edges.new ≡ map (sends from bag.now) (take end edges.old) ++ drop end edges.old) }
{
    for at in 0..end {
        edges[at].send_copy(alloc, from, bag)?;
    }
    Ok(())
}

impl Edge {
    /// Whether there is a message in its channel.
    pub(crate) fn has_message(&self) -> bool
        ensures { result ≡ not (length self.now.parts == 0) }
    {
        !self.parts.is_empty()
    }

    // Whether its bag was received and not yet fed.
    fn is_here(&self) -> bool
        ensures { result ≡ is_here self.now }
    {
        matches!(self.received, Received::Here(_))
    }

    // Hands out the received bag.
    fn feed(&mut self) -> Option<Bag>
        ensures edge { self.new ≡ feeds_bag self.old }
        ensures bag { option_to_list result ≡ bag_received self.old.received }
    {
        match mem::replace(&mut self.received, Received::Fed) {
            Received::Awaited => {
                self.received = Received::Awaited;
                None
            }
            Received::Here(bag) => Some(bag),
            Received::Fed => None,
        }
    }

    // Puts a copy of a bag into its channel, where it leads from this operator.
    fn send_copy(&mut self, alloc: Global, from: usize, bag: &Bag) -> Result<(), AllocError>
        ensures { OnOk result (self.new ≡ sends from bag.now self.old) }
    {
        if self.from == from {
            self.parts.put(bag.copy(alloc)?)?;
        }
        Ok(())
    }
}
