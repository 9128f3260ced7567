ghost use Rattle.std.specs.Prelude.{◌≡◌, ◌++◌, ◌∷◌, [], replicate, false, OnOk};
ghost use Rattle.l2_node.specs.End.{attached};
ghost use Rattle.air_link.specs.Link.{fresh, says, no_flows};

use air_record::Record;
use bearer::Side;
use drx::Drx;
use l2_bits::{Bytes, Items, NoMemory};
use l2_node::{Attached, Node};
use pdu_show::{Kinds, Records};
use std::alloc::Global;
use std::marker::Model;
use std::mem;
use test_loop::Loop;

/// The logical channels that a bearer may have, in ascending order.
pub const ALL_LCIDS: [u8; 11] = [0, 1, 2, 3, 4, 5, 6, 7, 8, 9, 10];

// An SDU that the terminal handed up.
#[derive(Drop)]
pub(crate) struct Handed {
    pub lcid: u8,
    pub octets: Bytes,
}

impl Model for Handed {
    ghost use Rattle.std.specs.Prelude.{◌≤◌, length};
    ghost use Rattle.test_loop.specs.Items.{Item, item};

    ghost Value = { Item };

    ghost view = { λ h. item h.lcid h.octets };

    ghost invariant = { λ h. 1 ≤ length h.octets };
}

// The flows of a direction, by LCID.
#[derive(Drop)]
pub(crate) struct Flows {
    pub submitted: [u64; 11],
    pub delivered: [u64; 11],
    pub failed: [bool; 11],
}

pub(crate) fn no_flows() -> Flows
    ensures { result ≡ no_flows }
{
    Flows {
        submitted: [0; 11],
        delivered: [0; 11],
        failed: [false; 11],
    }
}

impl Model for Flows {
    ghost use Rattle.air_link.specs.Link.{Flows as Machine};

    ghost Value = { Machine };

    ghost view = { λ f. record { submitted = f.submitted; delivered = f.delivered; failed = f.failed } };
}

/// The base station and the terminal, and the air between them.
///
/// After want of memory nothing is said of it.
#[derive(Drop)]
pub struct Link {
    pub(crate) alloc: Global,
    pub(crate) nb: Node<Attached>,
    pub(crate) ue: Node<Attached>,
    pub(crate) ttis: u64,
    pub(crate) down: Flows,
    pub(crate) up: Flows,
    pub(crate) looping: Loop,
    // The SDUs that the terminal handed up and that the loop has still to take.
    pub(crate) ups: Items<Handed>,
    pub(crate) drx: Option<Drx>,
    // For each downlink process, whether the terminal saw its block.
    pub(crate) seen: [bool; 8],
    pub(crate) kinds: Kinds,
    // The records of this line so far.
    pub(crate) out: Records,
    // The memory of blocks that were let go, for later ones.
    pub(crate) spares: Vec<Bytes>,
}

impl Model for Link {
    ghost use Rattle.air_link.specs.Link.{Link as Machine};

    ghost Value = { Machine };

    ghost view = { λ l. record {
      nb = l.nb.end;
      ue = l.ue.end;
      ttis = l.ttis;
      down = l.down;
      up = l.up;
      looping = l.looping;
      ups = l.ups;
      drx = l.drx;
      seen = l.seen;
      kinds = l.kinds;
      out = l.out;
    } };
}

impl Link {
    /// Both ends before the first line, with 4 visits of a block and no reports. It takes no
    /// memory.
    #[tactic(auto, unfolding(crate::specs::Link::fresh))]
    pub fn new(alloc: Global) -> Link
        ensures { result ≡ fresh }
    {
        Link {
            alloc,
            nb: Node::new(alloc, Side::Nb, 4, false),
            ue: Node::new(alloc, Side::Ue, 4, false),
            ttis: 0,
            down: no_flows(),
            up: no_flows(),
            looping: Loop::new(alloc),
            ups: Items::new(alloc),
            drx: None,
            seen: [false; 8],
            kinds: Kinds::new(),
            out: Records::new(alloc),
            spares: Vec::new(alloc),
        }
    }

    /// How PDUs are shown, by the bearers that came.
    pub fn kinds(&self) -> &Kinds
        ensures { result.now ≡ self.now.kinds }
    {
        &self.kinds
    }

    /// Takes the records of this line so far.
    pub fn take_out(&mut self) -> Records
        ensures records { result ≡ self.old.out }
        ensures link { self.new ≡ record self.old { out = [] } }
    {
        mem::replace(&mut self.out, Records::new(self.alloc))
    }

    /// Goes on with the memory of records that were taken and are let go, where no more have come
    /// since.
    pub fn reuse(&mut self, records: Records)
        requires gone { records ≡ [] }
        requires none { self.old.out ≡ [] }
        ensures { self.new ≡ self.old }
    {
        self.out = records;
    }

    /// Goes on with the memory of a record that is let go.
    pub fn recycle(&mut self, one: Record)
        ensures { self.new ≡ self.old }
    {
        if let Record::Block { octets, .. } = one {
            self.keep_memory(octets);
        }
    }

    // Keeps the memory of a block that is let go.
    #[inline(always)]
    pub(crate) fn keep_memory(&mut self, octets: Bytes)
        ensures { self.new ≡ self.old }
    {
        let _ = self.spares.push(octets);
    }

    // Takes the memory of a block that was let go, where there is some.
    #[inline(always)]
    pub(crate) fn take_memory(&mut self) -> Bytes
        ensures { self.new ≡ self.old }
    {
        match self.spares.pop() {
            Some(octets) => octets,
            None => Bytes::new(self.alloc),
        }
    }

    #[inline(always)]
    pub(crate) fn say(&mut self, one: Record) -> Result<(), NoMemory>
        ensures { OnOk result (self.new ≡ says one self.old) }
    {
        self.out.push(one)
    }
}
