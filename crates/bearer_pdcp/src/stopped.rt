ghost use Rattle.std.specs.Prelude.{◌≡◌, ◌≤◌, IfOk, IfErr, IfSome};
ghost use Rattle.pdcp_tx.specs.State.{IsShort};
ghost use Rattle.pdcp_pdu.specs.Kinds.{IsKind};
ghost use Rattle.bearer_pdcp.specs.Lives.{restarted, report_of};

use crate::ends::{Pdcp, owe};
use eps_sec::Keys;
use l2_bits::{Bytes, NoMemory};
use pdcp_pdu::PdcpKind;
use pdcp_rx::{Held, PdcpRx};
use pdcp_tx::{Kept, PdcpTx};
use std::alloc::Global;
use std::marker::Model;

/// Both PDCP entities of a bearer between two lives (TS 36.323 5.2): what the sender keeps, what
/// the receiver holds, and the status report that is owed first in the next life.
#[derive(Drop)]
pub struct StoppedPdcp {
    alloc: Global,
    lcid: u8,
    kind: PdcpKind,
    kept: Kept,
    held: Held,
    report: Option<Bytes>,
}

impl Model for StoppedPdcp {
    ghost use Rattle.std.specs.Prelude.{◌≡◌, ◌≤◌, IfSome};
    ghost use Rattle.pdcp_tx.specs.State.{IsShort};
    ghost use Rattle.pdcp_pdu.specs.Kinds.{IsKind};
    ghost use Rattle.bearer_pdcp.specs.Ends.{Ends};
    ghost use Rattle.bearer_pdcp.specs.Lives.{report_of};

    ghost Value = { Ends };

    ghost view = { λ p. record { lcid = p.lcid; kind = p.kind; tx = p.kept.state; rx = p.held.state } };

    ghost invariant = { λ p. (p.lcid ≤ 10) × IsKind p.kind × (p.held.state.kind ≡ p.kind)
        × (p.report ≡ report_of p.kind p.held.state) × IfSome p.report IsShort };
}

impl StoppedPdcp {
    pub(crate) fn new(
        alloc: Global,
        lcid: u8,
        kind: PdcpKind,
        kept: Kept,
        held: Held,
        report: Option<Bytes>,
    ) -> StoppedPdcp
        requires lcid { lcid ≤ 10 }
        requires kind { IsKind kind }
        requires receiver { held.state.kind ≡ kind }
        requires report { report ≡ report_of kind held.state }
        requires short { IfSome report IsShort }
        ensures { result ≡ record { lcid = lcid; kind = kind; tx = kept.state; rx = held.state } }
    {
        StoppedPdcp {
            alloc,
            lcid,
            kind,
            kept,
            held,
            report,
        }
    }

    /// Begins the next life, under other keys. An `Err` gives back what it was given as it was.
    #[tactic(auto, unfolding(crate::specs::Lives::restarted), using(crate::proofs::OwedSteps::begins))]
    pub fn restart(self, keys: &Keys) -> Result<Pdcp, (StoppedPdcp, NoMemory)>
        ensures ok { IfOk result (λ p. p ≡ restarted self keys.now) }
        ensures err { IfErr result (λ e. e.0 ≡ self) }
    {
        if self.held.is_dead() {
            return Err((self, NoMemory));
        }
        let StoppedPdcp {
            alloc,
            lcid,
            kind,
            kept,
            held,
            report,
        } = self;
        let mut tx = match PdcpTx::restart(kept, keys) {
            Ok(tx) => tx,
            Err((kept, no_memory)) => {
                return Err((
                    StoppedPdcp {
                        alloc,
                        lcid,
                        kind,
                        kept,
                        held,
                        report,
                    },
                    no_memory,
                ));
            }
        };
        owe(&mut tx, report);
        let Ok(rx) = PdcpRx::restart(held, keys) else {
            unreachable!();
        };
        Ok(Pdcp::from_parts(alloc, lcid, kind, tx, rx))
    }
}
