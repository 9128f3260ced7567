// What a side has named and sent.
ghost use Rattle.std.specs.Prelude.{◌≡◌, [], OnOk, option_copied, slice_index_or, slice_set};
ghost use Rattle.std.specs.Prelude.{None, Some};
ghost use Rattle.journal_flows.specs.Gathering.{nothing_sent, names, holds, resends};

use crate::parcels::Parcel;
use arrayvec::ArrayVec;
use l2_bits::{Items, NoMemory};
use l2_types::How;
use std::alloc::Global;
use std::marker::Model;
use std::mem;

// As many PDUs may be told of before the block that carries them.
const MOST_NAMED: usize = 16384;

// There are so many HARQ processes (TS 36.321 5.3.2.1).
const PROCESSES: usize = 8;

// A PDU that a `send` record names: its channel, and what it is to its sender.
#[derive(Clone, Copy)]
pub(crate) struct Named {
    pub(crate) lcid: u8,
    pub(crate) how: How,
}

type Held = ArrayVec<Option<Items<Parcel>>, PROCESSES>;

// A process holds these PDUs.
fn put(held: &mut Held, process: u32, parcels: Items<Parcel>)
    ensures { held.new.items ≡ slice_set held.old.items process (Some parcels) }
{
    let at = process as usize;
    if at < held.len() {
        held[at] = Some(parcels);
    }
}

#[derive(Drop)]
pub(crate) struct Sending {
    alloc: Global,
    named: Items<Named>,
    held: Held,
    process: u32,
}

impl Model for Sending {
    ghost use Rattle.journal_flows.specs.Gathering.{Sending as Sent};

    ghost Value = { Sent };

    ghost view = { λ s. record { named = s.named; held = s.held.items; process = s.process } };
}

impl Sending {
    pub(crate) fn new(alloc: Global) -> Sending
        ensures { result ≡ nothing_sent }
    {
        let mut held = ArrayVec::new();
        for _i in 0..PROCESSES {
            held.push(None);
        }
        Sending {
            alloc,
            named: Items::new(alloc),
            held,
            process: 0,
        }
    }

    // A PDU more. More than a block could carry find no memory.
    pub(crate) fn name(&mut self, one: Named) -> Result<(), NoMemory>
        ensures { OnOk result (self.new ≡ names one self.old) }
    {
        if self.named.len() >= MOST_NAMED {
            return Err(NoMemory);
        }
        self.named.push(one)
    }

    // The PDUs that the next new block carries, which are taken out.
    pub(crate) fn take_named(&mut self) -> Items<Named>
        ensures named { result ≡ self.old.named }
        ensures rest { self.new ≡ record self.old { named = [] } }
    {
        mem::replace(&mut self.named, Items::new(self.alloc))
    }

    // A new block of a process is sent, with these PDUs. The list of those that were named for it
    // keeps its memory for the next ones.
    pub(crate) fn hold(&mut self, process: u32, parcels: Items<Parcel>, named: Items<Named>)
        ensures { self.new ≡ holds process parcels self.old }
    {
        self.named = if named.is_empty() {
            named
        } else {
            Items::new(self.alloc)
        };
        put(&mut self.held, process, parcels);
        self.process = process;
    }

    // The block of a process is sent again.
    pub(crate) fn resend(&mut self, process: u32)
        ensures { self.new ≡ resends process self.old }
    {
        self.process = process;
    }

    // The PDUs of the block that was sent last; `None` where its process holds none.
    pub(crate) fn sent_last(&self) -> Option<&Items<Parcel>>
        ensures { option_copied result ≡ slice_index_or self.now.held self.now.process None }
    {
        match self.held.as_slice().get(self.process as usize) {
            Some(Some(parcels)) => Some(parcels),
            _ => None,
        }
    }
}
