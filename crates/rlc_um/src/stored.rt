ghost use Rattle.std.specs.Prelude.{◌≡◌, IfOk};
ghost use Rattle.rlc_pdu.specs.Views.{umd_of, elements_of};
ghost use Rattle.rlc_um.specs.Joined.{parts_of};

use l2_bits::{Bytes, NoMemory, Packets};
use rlc_pdu::{Elements, Umd};
use std::alloc::Global;
use std::marker::Model;

/// A PDU that is kept.
#[derive(Debug, Drop)]
pub struct Stored {
    begins: bool,
    ends: bool,
    elements: Packets,
}

impl Model for Stored {
    ghost use Rattle.rlc_um.specs.Joined.{Parts};

    ghost Value = { Parts };

    ghost view = { λ s. record { begins = s.begins; ends = s.ends; elements = s.elements } };
}

impl Stored {
    /// Copies what a PDU carries.
    pub fn copy_of(alloc: Global, pdu: &Umd<'_>) -> Result<Stored, NoMemory>
        ensures { IfOk result (λ s. s ≡ parts_of (umd_of pdu.now)) }
    {
        Ok(Stored {
            begins: pdu.fi < 2,
            ends: pdu.fi % 2 == 0,
            elements: copies_of(alloc, &pdu.elements)?,
        })
    }

    /// Whether the first element begins an SDU.
    pub fn begins(&self) -> bool
        ensures { result ≡ self.now.begins }
    {
        self.begins
    }

    /// Whether the last element ends an SDU.
    pub fn ends(&self) -> bool
        ensures { result ≡ self.now.ends }
    {
        self.ends
    }

    /// The elements, which aren't copied.
    pub fn into_elements(self) -> Packets
        ensures { result ≡ self.elements }
    {
        self.elements
    }
}

// A copy of each element.
fn copies_of(alloc: Global, elements: &Elements<'_>) -> Result<Packets, NoMemory>
    ensures { IfOk result (λ copies. copies ≡ elements_of elements.now) }
{
    let mut copies = Packets::new(alloc);
    let mut rest = *elements;
    'elements: while let Some(element) = rest.next() {
        copies.push(Bytes::from_slice(alloc, element)?)?;
    }
    Ok(copies)
}
