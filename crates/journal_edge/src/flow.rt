// An unacknowledged flow: what PDCP reads of it, and what goes up.
ghost use Rattle.std.specs.Prelude.{◌≡◌, ◌<◌, OnOk};
ghost use Rattle.pdcp_pdu.specs.Pdus.{IsUserBits};
ghost use Rattle.pdcp_pdu.specs.declared.PdcpKind.TheVariants.{Um};
ghost use Rattle.pdcp_sec.specs.Protection.{protection_of};
ghost use Rattle.journal_edge.specs.EdgeFlow.{flow_begun, flow_read, flow_up, flow_right};
ghost use Rattle.journal_edge.specs.EdgeFlow.{flow_ended, flow_renewed};

use crate::pairing::Pairing;
use crate::reader::UmReader;
use eps_sec::Keys;
use l2_bits::NoMemory;
use std::alloc::Global;
use std::marker::Model;

#[derive(Drop)]
pub(crate) struct EdgeFlow {
    reader: UmReader,
    pairs: Pairing,
}

impl Model for EdgeFlow {
    ghost use Rattle.journal_edge.specs.EdgeFlow.{EdgeFlow};

    ghost Value = { EdgeFlow };

    ghost view = { λ f. record { reader = f.reader; pairs = f.pairs } };
}

impl EdgeFlow {
    /// As the first life begins, with the bits of PDCP's SNs, the keys, BEARER and DIRECTION.
    pub(crate) fn new(
        alloc: Global,
        bits: u32,
        keys: &Keys,
        bearer: u32,
        direction: u32,
    ) -> EdgeFlow
        requires bits { IsUserBits bits }
        requires bearer { bearer < 32 }
        requires direction { direction < 2 }
        ensures { result ≡ flow_begun bits (protection_of (Um bits) keys.now bearer direction) }
    {
        EdgeFlow {
            reader: UmReader::new(alloc, bits, keys, bearer, direction),
            pairs: Pairing::new(alloc),
        }
    }

    /// RLC hands up an SDU, which PDCP reads. Behind an `Err` nothing is known.
    pub(crate) fn read(&mut self, sdu: &[u8]) -> Result<(), NoMemory>
        ensures { OnOk result (self.new ≡ flow_read sdu.now self.old) }
    {
        match self.reader.read(sdu)? {
            Some(text) => self.pairs.read(text),
            None => Ok(()),
        }
    }

    /// An SDU goes up. Behind an `Err` nothing is known.
    pub(crate) fn go_up(&mut self, sdu: &[u8]) -> Result<(), NoMemory>
        ensures { OnOk result (self.new ≡ flow_up sdu.now self.old) }
    {
        self.pairs.go_up(sdu)
    }

    /// Whether each SDU that was read in the group went up, and nothing else did.
    pub(crate) fn is_right(&self) -> bool
        ensures { result ≡ flow_right self.now }
    {
        self.pairs.is_even()
    }

    /// The group has ended.
    pub(crate) fn end_group(&mut self)
        ensures { self.new ≡ flow_ended self.old }
    {
        self.pairs.clear();
    }

    /// A life has ended, and the next one has other keys.
    pub(crate) fn renew(&mut self, keys: &Keys)
        ensures { self.new ≡ flow_renewed keys.now self.old }
    {
        self.reader.renew(keys);
    }
}
