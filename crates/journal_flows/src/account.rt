// The account of a bearer's flow in one direction.
ghost use Rattle.std.specs.Prelude.{◌≡◌};
ghost use Rattle.bearer_types.specs.Configs.{AreRlcBits, ArePdcpBits};
ghost use Rattle.journal_flows.specs.Accounts.{begun};

use crate::flow::Flow;
use crate::um_ends::UmEnds;
use bearer_types::BearerConfig;
use l2_types::Kind;
use std::alloc::Global;

// By the kind of the bearer; a transparent one has none.
#[derive(Drop)]
pub(crate) enum Account {
    Am(Flow),
    Um(UmEnds),
}

pub(crate) fn begun(alloc: Global, config: &BearerConfig) -> Option<Account>
    requires rlc { AreRlcBits config.now.kind config.now.rlc_bits }
    requires pdcp { ArePdcpBits config.now.kind config.now.pdcp_bits }
    ensures { result ≡ begun config.now }
{
    match config.kind {
        Kind::Tm => None,
        Kind::Um => Some(Account::Um(UmEnds::new(alloc, config.rlc_bits, config.pdcp_bits))),
        Kind::Srb | Kind::Am => Some(Account::Am(Flow::new(
            alloc,
            config.tx.max_retx,
            config.first,
        ))),
    }
}
