//! The memory of lists of records that were shown, for the next ones.

ghost use Rattle.std.specs.Prelude.{◌≡◌, [], IfOk};

use air_text::{Lens, Record};
use l2_bits::{Bytes, Items, NoMemory};
use rlc_pdu::Nacks;
use std::alloc::Global;

/// Lists that records gave back, if one ever did.
#[derive(Drop)]
pub(crate) struct Spares {
    alloc: Global,
    lists: Option<Lists>,
}

#[derive(Drop)]
struct Lists {
    lens: Items<Lens>,
    nacks: Items<Nacks>,
    bitmaps: Items<Bytes>,
}

// The list without its items.
fn emptied<T: Drop>(list: Items<T>) -> Items<T>
    ensures { result ≡ [] }
{
    let mut list = list;
    while let Some(_) = list.pop_front() {}
    list
}

// Adds a list to those that are spare; where there is no memory for that, it is let go.
fn keep_one<T: Drop>(spares: &mut Items<T>, one: T) {
    let _kept = spares.push(one);
}

impl Spares {
    /// None as yet. It takes no memory.
    pub fn new(alloc: Global) -> Spares {
        Spares { alloc, lists: None }
    }

    /// An empty list of lengths.
    pub fn lens(&mut self) -> Lens
        ensures { result ≡ [] }
    {
        if let Some(lists) = &mut self.lists {
            if let Some(list) = lists.lens.pop_front() {
                return emptied(list);
            }
        }
        Lens::new(self.alloc)
    }

    /// An empty list of entries.
    pub fn nacks(&mut self) -> Nacks
        ensures { result ≡ [] }
    {
        if let Some(lists) = &mut self.lists {
            if let Some(list) = lists.nacks.pop_front() {
                return emptied(list);
            }
        }
        Nacks::new(self.alloc)
    }

    /// A bitmap of these octets.
    pub fn bitmap(&mut self, octets: &[u8]) -> Result<Bytes, NoMemory>
        ensures { IfOk result (λ bitmap. bitmap ≡ octets.now) }
    {
        if let Some(lists) = &mut self.lists {
            if let Some(mut bitmap) = lists.bitmaps.pop_front() {
                bitmap.clear();
                bitmap.append(octets)?;
                return Ok(bitmap);
            }
        }
        Ok(Bytes::from_slice(self.alloc, octets)?)
    }

    /// Takes back the list of a record that was shown.
    pub fn keep(&mut self, one: Record) {
        if let None = self.lists {
            self.lists = Some(Lists::new(self.alloc));
        }
        if let Some(lists) = &mut self.lists {
            lists.keep(one);
        }
    }
}

impl Lists {
    fn new(alloc: Global) -> Lists {
        Lists {
            lens: Items::new(alloc),
            nacks: Items::new(alloc),
            bitmaps: Items::new(alloc),
        }
    }

    fn keep(&mut self, one: Record) {
        match one {
            Record::RlcUm { lens, .. } => keep_one(&mut self.lens, lens),
            Record::RlcAm { lens, .. } => keep_one(&mut self.lens, lens),
            Record::RlcSeg { lens, .. } => keep_one(&mut self.lens, lens),
            Record::RlcStatus { nacks, .. } => keep_one(&mut self.nacks, nacks),
            Record::PdcpReport { bitmap, .. } => keep_one(&mut self.bitmaps, bitmap),
            _ => {}
        }
    }
}
