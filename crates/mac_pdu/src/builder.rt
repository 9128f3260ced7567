ghost use Rattle.std.specs.Prelude.{◌≡◌, ◌+◌, ◌<◌, ◌≤◌, ◌^◌, [], ◌∷◌, ◌++◌, length, OnOk, OnErr};
ghost use Rattle.std.specs.Prelude.{IfOk, IfErr};
ghost use Rattle.mac_pdu.specs.Items.{sdu, IsControl};
ghost use Rattle.mac_pdu.specs.Grammar.{MacPdu};
ghost use Rattle.mac_pdu.specs.Writing.{full_size, saved, writing, padded, canonical, items_of};
ghost use Rattle.mac_pdu.specs.Writing.{with_control};
ghost use Rattle.l2_bits.specs.declared.limits.TheConstants.{OCTETS_LIMIT};

use crate::item::{Control, Direction};
use crate::octets::{put_fronted, put_padded};
use crate::sizes::{full_len, saved_len};
use l2_bits::{Bytes, NoMemory};
use std::alloc::Global;
use std::marker::Model;

/// An SDU and its LCID.
#[derive(Debug, Drop)]
pub struct Sdu {
    pub lcid: u8,
    pub octets: Bytes,
}

/// Collects the items of a block, control elements before SDUs, and writes the block.
#[derive(Debug, Drop)]
pub struct MacBuilder {
    alloc: Global,
    direction: Direction,
    controls: Vec<Control>,
    sdus: Vec<Sdu>,
}

impl Model for MacBuilder {
    ghost use Rattle.mac_pdu.specs.Writing.{Parts, IsBuilder};

    ghost Value = { Parts };

    ghost view = { λ b. record {
      direction = b.direction;
      controls = b.controls.items;
      sdus = b.sdus.items;
    } };

    ghost invariant = { λ b.
        IsBuilder (record { direction = b.direction; controls = b.controls.items; sdus = b.sdus.items }) };
}

impl MacBuilder {
    /// A builder with no item. It takes no memory.
    pub fn new(alloc: Global, direction: Direction) -> MacBuilder
        ensures { result ≡ record { direction = direction; controls = []; sdus = [] } }
    {
        MacBuilder {
            alloc,
            direction,
            controls: Vec::new(alloc),
            sdus: Vec::new(alloc),
        }
    }

    /// Adds a control element of the direction, with its fields in range. It stands behind the
    /// control elements that were added and before all SDUs.
    /// An `Err` changes nothing.
    pub fn control(&mut self, element: &Control) -> Result<(), NoMemory>
        requires fields { IsControl self.old.direction element.now }
        requires fits { length (writing (items_of (with_control element.now self.old)))
            < OCTETS_LIMIT }
        ensures ok { OnOk result (self.new ≡ with_control element.now self.old) }
        ensures err { OnErr result (self.new ≡ self.old) }
    {
        self.controls.push(*element)?;
        Ok(())
    }

    /// Adds a copy of an SDU of 1 to 32,767 octets on a logical channel, 0 to 10.
    /// An `Err` changes nothing.
    pub fn sdu(&mut self, lcid: u8, octets: &[u8]) -> Result<(), NoMemory>
        requires channel { lcid ≤ 10 }
        requires some { 1 ≤ length octets.now }
        requires short { length octets.now < 2 ^ 15 }
        requires fits { length (writing (items_of self.old ++ sdu lcid octets.now ∷ []))
            < OCTETS_LIMIT }
        ensures ok { OnOk result
            (self.new ≡ record self.old {
              sdus =
                  self.old.sdus ++ record { lcid = lcid; octets = octets.now } ∷ [];
            }) }
        ensures err { OnErr result (self.new ≡ self.old) }
    {
        self.move_sdu(lcid, Bytes::from_slice(self.alloc, octets)?)
    }

    /// Adds an SDU as `sdu` does, without a copy. An `Err` changes nothing, and the SDU is dropped.
    pub fn move_sdu(&mut self, lcid: u8, octets: Bytes) -> Result<(), NoMemory>
        requires channel { lcid ≤ 10 }
        requires some { 1 ≤ length octets }
        requires short { length octets < 2 ^ 15 }
        requires fits { length (writing (items_of self.old ++ sdu lcid octets ∷ []))
            < OCTETS_LIMIT }
        ensures ok { OnOk result
            (self.new ≡ record self.old {
              sdus =
                  self.old.sdus ++ record { lcid = lcid; octets = octets } ∷ [];
            }) }
        ensures err { OnErr result (self.new ≡ self.old) }
    {
        self.sdus.push(Sdu { lcid, octets })?;
        Ok(())
    }

    /// The octets of the smallest block that holds the items, 0 where there is none.
    pub fn least(&self) -> u32
        ensures least { result ≡ length (writing (items_of self.now)) }
        // As a sum over the items, each with the subheader that another follows.
        ensures sum { result + saved self.now.sdus ≡ full_size (items_of self.now) }
    {
        self.full() - saved_len(&self.sdus) as u32
    }

    /// The canonical block of `size` octets, padded where the items take less.
    ///
    /// `size` is at least `least()` and 1, and below 2^28. An `Err` gives the builder back.
    pub fn build(self, size: u32) -> Result<Bytes, (MacBuilder, NoMemory)>
        requires room { length (writing (items_of self)) ≤ size }
        requires some { 1 ≤ size }
        requires short { size < OCTETS_LIMIT }
        ensures canonical { IfOk result (λ block. block ≡ canonical (items_of self) size) }
        ensures size { IfOk result (λ block. length block ≡ size) }
        // A reader of the block finds its items.
        ensures read { IfOk result
            (λ block. MacPdu self.direction (padded (items_of self) size) block) }
        ensures err { IfErr result (λ e. e.0 ≡ self) }
    {
        match self.block(size) {
            Ok(block) => Ok(block),
            Err(no_memory) => Err((self, no_memory)),
        }
    }

    /// How many octets the items take where another follows.
    fn full(&self) -> u32
        ensures size { result ≡ full_size (items_of self.now) }
        ensures saved { result ≡ length (writing (items_of self.now)) + saved self.now.sdus }
        ensures bound { result ≤ length (writing (items_of self.now)) + 2 }
    {
        full_len(&self.controls, &self.sdus) as u32
    }

    /// The block that `build` gives.
    fn block(&self, size: u32) -> Result<Bytes, NoMemory>
        requires room { length (writing (items_of self.now)) ≤ size }
        requires some { 1 ≤ size }
        requires short { size < OCTETS_LIMIT }
        ensures { IfOk result (λ block. block ≡ canonical (items_of self.now) size) }
    {
        let least = self.least();
        let mut out = Bytes::with_capacity(self.alloc, size as usize)?;
        if least == 0 {
            out.append(&[0x1f])?;
            out.append_times(0, size - 1)?;
        } else if size - least <= 2 {
            let fronts = size - least;
            put_fronted(&mut out, self.direction, fronts, &self.controls, &self.sdus)?;
        } else {
            let padding = size - 1 - self.full();
            put_padded(
                &mut out,
                self.direction,
                &self.controls,
                &self.sdus,
                padding,
            )?;
        }
        Ok(out)
    }
}
