// PDCP's PDUs of the SDUs of a bearer in one direction, in one life.
ghost use Rattle.std.specs.Prelude.{◌≡◌, ◌≤◌, Some, IfOk, length};
ghost use Rattle.l2_types.specs.declared.limits.TheConstants.{GREATEST_SDU};
ghost use Rattle.pdcp_pdu.specs.Kinds.{IsKind};
ghost use Rattle.pdcp_tx.specs.Pdus.{pdu};
ghost use Rattle.journal_sent.specs.SentFlows.{cover_as, cover_renewed};

use bearer_pdcp::{bearer_of, sends};
use eps_sec::Keys;
use l2_bits::{Bytes, NoMemory};
use l2_types::Side;
use pdcp_pdu::PdcpKind;
use pdcp_sec::Security;
use pdcp_tx::write_pdu;
use std::alloc::Global;
use std::marker::Model;

#[derive(Drop)]
pub(crate) struct Cover {
    kind: PdcpKind,
    security: Security,
}

impl Model for Cover {
    ghost use Rattle.pdcp_pdu.specs.Kinds.{IsKind};
    ghost use Rattle.journal_sent.specs.SentFlows.{Cover};

    ghost Value = { Cover };

    ghost view = { λ c. record { kind = c.kind; protection = c.security } };

    ghost invariant = { λ c. IsKind c.kind };
}

impl Cover {
    // Of what a side sends on a channel.
    pub(crate) fn new(kind: PdcpKind, side: Side, lcid: u8, keys: &Keys) -> Cover
        requires kind { IsKind kind }
        requires lcid { lcid ≤ 10 }
        ensures { Some result ≡ cover_as kind side lcid keys.now }
    {
        Cover {
            kind,
            security: Security::new(kind, keys, bearer_of(lcid), sends(side)),
        }
    }

    // The PDU of an SDU that PDCP takes.
    pub(crate) fn write(&self, alloc: Global, count: u32, sdu: &[u8]) -> Result<Bytes, NoMemory>
        requires some { 1 ≤ length sdu.now }
        requires few { length sdu.now ≤ GREATEST_SDU }
        ensures { IfOk result
            (λ written. written ≡ pdu self.now.kind self.now.protection count sdu.now) }
    {
        write_pdu(&self.security, alloc, self.kind, count, sdu)
    }

    // The next life begins, under other keys.
    pub(crate) fn renew(&mut self, keys: &Keys)
        ensures { Some self.new ≡ cover_renewed keys.now (Some self.old) }
    {
        self.security.renew(self.kind, keys);
    }
}
