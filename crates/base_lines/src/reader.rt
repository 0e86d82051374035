//! Reading a base line by line.
ghost use Rattle.std.specs.Prelude.{◌≡◌, IfOk, OnOk, OnErr};
ghost use Rattle.base_lines.specs.Items.{Reading, nothing_read, failed, taken, base_of};
ghost use Rattle.base_lines.specs.Lines.{line_read, said_at};
ghost use Rattle.base_lines.specs.declared.item.Item.TheVariants as items;

use crate::item::{Counts, Item};
use crate::items::item_in;
use crate::placed::PlacedBase;
use crate::stage::{BaseLine, Stage};
use commit_core::Ticket;
use lsp_base::{Path, Record};
use pcep_messages::Message;
use sequence::Sequence;
use std::alloc::{AllocError, Global};
use std::marker::Model;
use step_core::{AwaitedName, Base, Peer};
use te_base::LinkValues;

/// Reads a base line by line. After a bad line each further line is bad.
#[derive(Debug, Drop)]
pub struct BaseReader {
    stage: Stage,
    counts: Counts,
    values: Vec<LinkValues>,
    peers: Vec<Peer>,
    paths: Vec<Path>,
    records: Vec<Record>,
    names: Vec<AwaitedName>,
    tickets: Vec<Ticket>,
}

impl Model for BaseReader {
    ghost use Rattle.base_lines.specs.Items.{Reading};

    ghost Value = { Reading };

    ghost view = { λ r. record { stage = r.stage; counts = r.counts; values = r.values.items; peers = r.peers.items; paths = r.paths.items; records = r.records.items; names = r.names.items; tickets = r.tickets.items } };
}

impl BaseReader {
    /// Makes a reader that has read no line. Allocates nothing.
    pub fn new(alloc: Global) -> BaseReader
        ensures { result ≡ nothing_read }
    {
        BaseReader {
            stage: Stage::Start,
            counts: Counts {
                steps: 0,
                grants: 0,
                changes: 0,
                last_session: 0,
                last_ticket: 0,
            },
            values: Vec::new(alloc),
            peers: Vec::new(alloc),
            paths: Vec::new(alloc),
            records: Vec::new(alloc),
            names: Vec::new(alloc),
            tickets: Vec::new(alloc),
        }
    }

    fn fail(&mut self)
        ensures { self.new ≡ failed self.old }
    {
        self.stage = Stage::Failed;
    }

    #[tactic(auto, unfolding(crate::specs::Items::taken))]
    fn take_counts(&mut self, counts: Counts)
        ensures { self.new ≡ taken self.old (items.Counts counts) }
    {
        if self.stage == Stage::Start {
            self.stage = Stage::Values;
            self.counts = counts;
        } else {
            self.fail();
        }
    }

    #[tactic(auto, unfolding(crate::specs::Items::taken))]
    fn take_value(&mut self, values: LinkValues) -> Result<(), AllocError>
        ensures taken { OnOk result (self.new ≡ taken self.old (items.Value values)) }
        ensures unchanged { OnErr result (self.new ≡ self.old) }
    {
        if self.stage.may_come(Stage::Values) {
            self.values.push(values)?;
        } else {
            self.fail();
        }
        Ok(())
    }

    #[tactic(auto, unfolding(crate::specs::Items::taken))]
    fn take_peer(&mut self, peer: Peer) -> Result<(), AllocError>
        ensures taken { OnOk result (self.new ≡ taken self.old (items.Peer peer)) }
        ensures unchanged { OnErr result (self.new ≡ self.old) }
    {
        if self.stage.may_come(Stage::Peers) {
            self.peers.push(peer)?;
            self.stage = Stage::Peers;
        } else {
            self.fail();
        }
        Ok(())
    }

    #[tactic(auto, unfolding(crate::specs::Items::taken))]
    fn take_waiting(&mut self, message: Message) -> Result<(), AllocError>
        ensures taken { OnOk result (self.new ≡ taken self.old (items.Waits message)) }
        ensures unchanged { OnErr result (self.new ≡ self.old) }
    {
        if self.stage != Stage::Peers {
            self.fail();
            return Ok(());
        }
        let Some(last) = self.peers.len().checked_sub(1) else {
            return Ok(());
        };
        self.peers[last].outgoing.push(message)?;
        Ok(())
    }

    #[tactic(auto, unfolding(crate::specs::Items::taken))]
    fn take_path(&mut self, path: Path) -> Result<(), AllocError>
        ensures taken { OnOk result (self.new ≡ taken self.old (items.Path path)) }
        ensures unchanged { OnErr result (self.new ≡ self.old) }
    {
        if self.stage.may_come(Stage::Paths) {
            self.paths.push(path)?;
            self.stage = Stage::Paths;
        } else {
            self.fail();
        }
        Ok(())
    }

    #[tactic(auto, unfolding(crate::specs::Items::taken))]
    fn take_record(&mut self, known: Record) -> Result<(), AllocError>
        ensures taken { OnOk result (self.new ≡ taken self.old (items.Record known)) }
        ensures unchanged { OnErr result (self.new ≡ self.old) }
    {
        if self.stage.may_come(Stage::Records) {
            self.records.push(known)?;
            self.stage = Stage::Records;
        } else {
            self.fail();
        }
        Ok(())
    }

    #[tactic(auto, unfolding(crate::specs::Items::taken))]
    fn take_name(&mut self, name: AwaitedName) -> Result<(), AllocError>
        ensures taken { OnOk result (self.new ≡ taken self.old (items.Name name)) }
        ensures unchanged { OnErr result (self.new ≡ self.old) }
    {
        if self.stage.may_come(Stage::Names) {
            self.names.push(name)?;
            self.stage = Stage::Names;
        } else {
            self.fail();
        }
        Ok(())
    }

    #[tactic(auto, unfolding(crate::specs::Items::taken))]
    fn take_ticket(&mut self, ticket: Ticket) -> Result<(), AllocError>
        ensures taken { OnOk result (self.new ≡ taken self.old (items.Ticket ticket)) }
        ensures unchanged { OnErr result (self.new ≡ self.old) }
    {
        if self.stage.may_come(Stage::Tickets) {
            self.tickets.push(ticket)?;
            self.stage = Stage::Tickets;
        } else {
            self.fail();
        }
        Ok(())
    }

    #[tactic(auto, unfolding(crate::specs::Items::taken))]
    fn take_end(&mut self)
        ensures { self.new ≡ taken self.old items.End }
    {
        if self.stage.may_come(Stage::Tickets) {
            self.stage = Stage::Ended;
        } else {
            self.fail();
        }
    }

    fn take_item(&mut self, item: Item) -> Result<(), AllocError>
        ensures taken { OnOk result (self.new ≡ taken self.old item) }
        ensures unchanged { OnErr result (self.new ≡ self.old) }
    {
        match item {
            Item::Counts(counts) => Ok(self.take_counts(counts)),
            Item::Value(values) => self.take_value(values),
            Item::Peer(peer) => self.take_peer(peer),
            Item::Waits(message) => self.take_waiting(message),
            Item::Path(path) => self.take_path(path),
            Item::Record(record) => self.take_record(record),
            Item::Name(name) => self.take_name(name),
            Item::Ticket(ticket) => self.take_ticket(ticket),
            Item::End => Ok(self.take_end()),
        }
    }

    /// Reads one more line, without its line break, and says what it is. It takes time in proportion to the length of the
    /// line. If memory runs out, the line was not read.
    pub fn take(&mut self, alloc: Global, line: &str) -> Result<BaseLine, AllocError>
        ensures reading { OnOk result (self.new ≡ line_read self.old line.now) }
        ensures said { IfOk result (λ said. said ≡ said_at self.new.stage) }
        ensures unchanged { OnErr result (self.new ≡ self.old) }
    {
        match item_in(alloc, line)? {
            Some(item) => self.take_item(item)?,
            None => self.fail(),
        }
        Ok(self.stage.said())
    }

    /// Returns the base that was read. `None` unless its end was the last line. Allocates nothing.
    pub fn into_base(self) -> Option<PlacedBase>
        ensures { result ≡ base_of self }
    {
        if self.stage != Stage::Ended {
            return None;
        }
        let base = Base {
            values: Sequence::from_vec(self.values),
            paths: Sequence::from_vec(self.paths),
            records: Sequence::from_vec(self.records),
            names: Sequence::from_vec(self.names),
            peers: Sequence::from_vec(self.peers),
            tickets: Sequence::from_vec(self.tickets),
            changes: self.counts.changes,
            last_session: self.counts.last_session,
            last_ticket: self.counts.last_ticket,
        };
        Some(PlacedBase {
            base,
            steps: self.counts.steps,
            grants: self.counts.grants,
        })
    }
}
