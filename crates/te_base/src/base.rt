//! The TED that a link text describes, and look-ups in it.
ghost use Rattle.std.specs.Prelude.{◌≡◌, ◌≢◌, ◌<◌, ◌≤◌, ◌↔◌, ℕ, IsTrue, IfOk, IfSome, IsSome, All, AllPairs, map, option_map, slice_get, length, if◌then◌else◌};
ghost use Rattle.te_base.specs.Ted.{IsLinkAmong, empty_ted};
ghost use Rattle.te_base.specs.Faults.{Gives};
ghost use Rattle.te_base.specs.LinkText.{base_of, base_of_tree, placed_base, with_tables};
ghost use Rattle.te_base.specs.Places.{GivesAt};
ghost use Rattle.te_base.specs.declared.fault.TeFault.TheVariants.{OutOfMemory, NotToml};
ghost use Rattle.te_base.specs.Owners.{owner_of, owns};
ghost use Rattle.te_base.specs.Walk.{walk};
ghost use Rattle.te_base.specs.Reload.{reloaded, values_for};
ghost use Rattle.te_base.specs.Values.{values_in, with_link_values};
ghost use Rattle.te_base.specs.Views.{base_in};
ghost use Rattle.toml.specs.View.{table_view};

use crate::fault::{FaultPlace, PlacedFault, TeFault};
use crate::fields::tables;
use crate::keys::TableKind;
use crate::link_values::LinkValues;
use crate::network::{Link, LinkNumber, NodeNumber, NodePlace, Parts};
use crate::nodes::NodeTable;
use crate::owners::OwnerTable;
use crate::reload::{all_values, is_same, set_listed_values};
use crate::tables::add_tables;
use crate::walk::walk_parts;
use keyed_list::KeyedList;
use lsp_words::Hop;
use pcep_word::Ipv4;
use std::alloc::{AllocError, Global};
use std::marker::Model;
use toml::Table;

/// How many nodes a link text may have.
pub const NODE_LIMIT: usize = 1024;

/// How many links a link text may have.
pub const LINK_LIMIT: usize = 4096;

/// The TED: the nodes, links and owners of a link text. The values of links may change. A contract sees it as a `Ted`
/// of lists, which is sound.
#[derive(Debug)]
pub struct TeBase {
    parts: Parts,
}

/// Drops its parts. Written by hand because a derived drop would be proved again for every owner.
impl Drop for TeBase {
    fn drop(self) {
        let TeBase { parts } = self;
        drop(parts);
    }
}

impl Model for TeBase {
    ghost use Rattle.te_base.specs.Ted.{Ted, IsSound};
    ghost use Rattle.te_base.specs.Views.{base_in};

    ghost Value = { Ted };

    ghost view = { λ b. base_in b.parts };

    ghost invariant = { λ b. IsSound (base_in b.parts) };
}

/// Reads the nodes and links of these tables.
fn parts_of(alloc: Global, nodes: &[&Table], links: &[&Table]) -> Result<Parts, PlacedFault>
    ensures { GivesAt base_in result (with_tables (map (λ t. table_view t.now) nodes.now) (map (λ t. table_view t.now) links.now) empty_ted) }
{
    let mut parts = Parts {
        nodes: NodeTable::new(alloc),
        links: KeyedList::new(alloc),
        owners: OwnerTable::new(alloc),
    };
    add_tables(alloc, &mut parts, nodes, links)?;
    Ok(parts)
}

#[tactic(auto, unfolding(crate::specs::LinkText::base_of_tree))]
fn read_tree(alloc: Global, document: &Table) -> Result<Parts, PlacedFault>
    ensures { GivesAt base_in result (base_of_tree (table_view document.now)) }
{
    let nodes = tables(alloc, document, TableKind::Nodes)?;
    let links = tables(alloc, document, TableKind::Links)?;
    if nodes.len() > NODE_LIMIT || links.len() > LINK_LIMIT {
        return Err(PlacedFault::in_part(FaultPlace::InText, TeFault::TooMany));
    }
    parts_of(alloc, &nodes, &links)
}

/// Returns the fault of a text that isn't TOML, or that memory ran out.
fn parse_fault(is_memory: bool) -> TeFault
    ensures { result ≡ (if is_memory then OutOfMemory else NotToml) }
{
    if is_memory {
        TeFault::OutOfMemory
    } else {
        TeFault::NotToml
    }
}

impl TeBase {
    /// Reads a link text, or returns its first fault in the order of `TeFault`. Nodes and links are numbered from 0 in
    /// the order of the text.
    pub fn read(alloc: Global, text: &str) -> Result<TeBase, TeFault>
        ensures { Gives (λ b. b) result (base_of text.now) }
    {
        match TeBase::read_placed(alloc, text) {
            Ok(base) => Ok(base),
            Err(found) => Err(found.fault),
        }
    }

    fn read_placed(alloc: Global, text: &str) -> Result<TeBase, PlacedFault>
        ensures { GivesAt (λ b. b) result (placed_base text.now) }
    {
        match toml::table_from_str(alloc, text) {
            Ok(document) => TeBase::read_document(alloc, &document),
            Err(e) => {
                let fault = parse_fault(e.is_memory());
                Err(PlacedFault::in_part(FaultPlace::InText, fault))
            }
        }
    }

    /// Reads the document of a link text as `read` does, and says also where its first fault is.
    pub fn read_document(alloc: Global, document: &Table) -> Result<TeBase, PlacedFault>
        ensures { GivesAt (λ b. b) result (base_of_tree (table_view document.now)) }
    {
        let parts = read_tree(alloc, document)?;
        Ok(TeBase { parts })
    }

    /// Looks up the link of a number. None past the last.
    pub fn link(&self, number: LinkNumber) -> Option<Link>
        ensures link { result ≡ slice_get self.now.links number }
        ensures sound { IfSome result (IsLinkAmong (length self.now.nodes)) }
    {
        self.parts.links.as_slice().get(number).copied()
    }

    /// Counts the links, at most 4,096.
    pub fn link_count(&self) -> usize
        ensures count { result ≡ length self.now.links }
        ensures few { result ≤ 4096 }
    {
        self.parts.links.as_slice().len()
    }

    /// Counts the nodes, at most 1,024.
    pub fn node_count(&self) -> usize
        ensures count { result ≡ length self.now.nodes }
        ensures few { result ≤ 1024 }
    {
        self.parts.nodes.len()
    }

    /// Looks up the name, the id and the place of a node. None past the last.
    pub fn node(&self, number: NodeNumber) -> Option<(&str, Ipv4, Option<NodePlace>)>
        ensures node { option_map (λ n. record { name = n.0.now; id = n.1; place = n.2 }) result ≡ slice_get self.now.nodes number }
        ensures found { IsSome result ↔ (number < length self.now.nodes) }
    {
        self.parts.nodes.get(number)
    }

    /// Lends all links, each at its number.
    pub fn links(&self) -> &[Link]
        ensures links { result.now ≡ self.now.links }
        ensures few { length result.now ≤ 4096 }
        ensures sound { All (IsLinkAmong (length self.now.nodes)) result.now }
    {
        self.parts.links.as_slice()
    }

    /// Lends the owners of addresses.
    pub fn owners(&self) -> &OwnerTable
        ensures owners { result.now ≡ self.now.owners }
        ensures nodes { All (λ o. o.node < length self.now.nodes) result.now }
    {
        &self.parts.owners
    }

    /// Finds the node that owns an address: the one that has it as its own, as the local address of a link that leaves
    /// it, or as the remote address of a link that reaches it. None if no node does.
    pub fn owner(&self, address: Ipv4) -> Option<NodeNumber>
        ensures owner { result ≡ owner_of self.now.owners address }
        ensures owns { (node : ℕ) → (result ≡ Some node) ↔ IsTrue (owns self.now.nodes self.now.links node address) }
        ensures node { IfSome result (λ n. n < length self.now.nodes) }
    {
        self.parts.owners.node(address)
    }

    /// Lists the links that a route uses from a start to an end, in order (RFC 3209 section 4.3.3 for an
    /// explicit route, 4.4 for a recorded one).
    ///
    /// From the owner of the start, each address leads to its owner. The link taken is the one from the current node
    /// with that remote address, else one whose local address the route named last, else the one with the least number.
    /// A hop to a node without such a link uses none. An address that no node owns and a hop of another kind do
    /// nothing. Loose hops are walked like strict ones. A link that comes again is kept once. A start that no node owns
    /// uses no link.
    pub fn walk(
        &self,
        alloc: Global,
        start: Ipv4,
        hops: &[Hop],
        end: Ipv4,
    ) -> Result<Vec<LinkNumber>, AllocError>
        ensures links { IfOk result (λ v. v.items ≡ walk self.now start hops.now end) }
        ensures exist { IfOk result (λ v. All (λ l. l < length self.now.links) v.items) }
        ensures once { IfOk result (λ v. AllPairs (λ l k. l ≢ k) v.items) }
    {
        walk_parts(alloc, &self.parts, start, hops, end)
    }

    /// Lists the values of all links, each at its link's number.
    pub fn values(&self, alloc: Global) -> Result<Vec<LinkValues>, AllocError>
        ensures { IfOk result (λ v. v.items ≡ values_in self.now) }
    {
        all_values(alloc, self.parts.links.as_slice())
    }

    /// Reads the text again and lists the values that it gives all links, each at its link's number. Fails with what
    /// `read` says of the text, or with `OtherLinks` if it has other nodes, or other ends or addresses of links.
    pub fn reload(&self, alloc: Global, text: &str) -> Result<Vec<LinkValues>, TeFault>
        ensures values { Gives (λ v. v.items) result (reloaded self.now text.now) }
        ensures whole { IfOk result (λ v. length v.items ≡ length self.now.links) }
    {
        let other = TeBase::read(alloc, text)?;
        self.values_for(alloc, &other)
    }

    fn values_for(&self, alloc: Global, other: &TeBase) -> Result<Vec<LinkValues>, TeFault>
        ensures values { Gives (λ v. v.items) result (values_for self.now other.now) }
        ensures whole { IfOk result (λ v. length v.items ≡ length self.now.links) }
    {
        if !is_same(&self.parts, &other.parts) {
            return Err(TeFault::OtherLinks);
        }
        Ok(other.values(alloc)?)
    }

    /// Gives a link other values. Nodes, owners, and ends and addresses of links stay. Allocates nothing.
    pub fn set_values(&mut self, link: LinkNumber, values: LinkValues)
        requires { link < length self.old.links }
        ensures { self.new ≡ with_link_values self.old link values }
    {
        set_listed_values(&mut self.parts.links, link, values);
    }
}
