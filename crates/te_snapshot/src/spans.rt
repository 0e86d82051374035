//! The links of each node, all in one list.
ghost use Rattle.std.specs.Prelude.{◌≡◌, ◌<◌, ◌++◌, ◌∷◌, [], IfOk, OnOk, length, map};
ghost use Rattle.te_snapshot.specs.Leaving.{arc_now};
ghost use Rattle.te_snapshot.specs.Spans.{list_of};

use crate::outgoing::Outgoing;
use std::alloc::{AllocError, Global};
use std::marker::Model;
use te_base::{Link, NodeNumber};

/// Where the links of a node are: from one place up to another.
#[derive(Clone, Copy, Debug, PartialEq, Eq)]
pub(crate) struct Span {
    start: usize,
    end: usize,
}

/// The links of each node, all in one list, so that copying takes few steps. A contract sees the list of each node.
#[derive(Debug, Drop)]
pub(crate) struct Arcs {
    spans: Vec<Span>,
    arcs: Vec<Outgoing>,
}

impl Model for Arcs {
    ghost use Rattle.std.specs.Prelude.{All, List, length, map};
    ghost use Rattle.te_snapshot.specs.declared.outgoing.Outgoing.{Outgoing};
    ghost use Rattle.te_snapshot.specs.Spans.{cut, IsWithin};

    ghost Value = { List (List Outgoing) };

    ghost view = { λ a. map (cut a.arcs.items) a.spans.items };

    ghost invariant = { λ a. All (IsWithin (length a.arcs.items)) a.spans.items };
}

fn add(arcs: &mut Arcs, list: &[Outgoing]) -> Result<(), AllocError>
    ensures { OnOk result (arcs.new ≡ arcs.old ++ list.now ∷ []) }
{
    let start = arcs.arcs.len();
    arcs.arcs.extend_from_slice(list)?;
    let end = arcs.arcs.len();
    arcs.spans.push(Span { start, end })?;
    Ok(())
}

fn add_all(arcs: &mut Arcs, lists: &[Vec<Outgoing>]) -> Result<(), AllocError>
    requires { arcs.old ≡ [] }
    ensures { OnOk result (arcs.new ≡ map (λ list. list.items) lists.now) }
{
    for list in lists {
        add(arcs, list)?;
    }
    Ok(())
}

/// Gives a link the values that it has among these links.
#[inline(always)]
fn set_values(arc: &mut Outgoing, links: &[Link])
    ensures { arc.new ≡ arc_now links.now arc.old }
{
    if let Some(link) = links.get(arc.number) {
        arc.igp = link.igp;
        arc.te = link.te;
        arc.colour = link.colour;
    }
}

fn all_now(alloc: Global, arcs: &[Outgoing], links: &[Link]) -> Result<Vec<Outgoing>, AllocError>
    ensures { IfOk result (λ all. all.items ≡ map (arc_now links.now) arcs.now) }
{
    let mut all = arcs.to_vec(alloc)?;
    for place in 0..all.len() {
        set_values(&mut all[place], links);
    }
    Ok(all)
}

impl Arcs {
    /// Joins the lists, one for each node.
    pub fn new(alloc: Global, lists: &[Vec<Outgoing>]) -> Result<Arcs, AllocError>
        ensures { IfOk result (λ a. a ≡ map (λ list. list.items) lists.now) }
    {
        let mut arcs = Arcs {
            spans: Vec::new(alloc),
            arcs: Vec::new(alloc),
        };
        add_all(&mut arcs, lists)?;
        Ok(arcs)
    }

    /// Lends the list of a node.
    pub fn at(&self, node: NodeNumber) -> &[Outgoing]
        requires { node < length self.now }
        ensures { result.now ≡ list_of self.now node }
    {
        let span = self.spans[node];
        &self.arcs[span.start..span.end]
    }

    /// Copies the lists, each link with the values that it has among these links.
    pub fn with_values_of(&self, alloc: Global, links: &[Link]) -> Result<Arcs, AllocError>
        ensures { IfOk result (λ a. a ≡ map (map (arc_now links.now)) self.now) }
    {
        let spans = self.spans.to_vec(alloc)?;
        let arcs = all_now(alloc, &self.arcs, links)?;
        Ok(Arcs { spans, arcs })
    }
}
