// PDUs that `send` records name.
ghost use Rattle.std.specs.Prelude.{◌≡◌, ◌<◌, length, IfOk, IfSome};
ghost use Rattle.l2_bits.specs.declared.limits.TheConstants.{OCTETS_LIMIT};
ghost use Rattle.pdu_show.specs.Kinds.{IsLayout, IsPdcp};
ghost use Rattle.journal_form.specs.Tests.{is_tm, is_new, is_acknowledged, is_named};

use crate::rlc::{is_amd, is_status, is_umd};
use l2_bits::NoMemory;
use l2_types::How;
use pdcp_pdu::PdcpKind;
use pdu_show::Layout;
use std::alloc::Global;
use std::marker::Model;

// What a `send` record names: the channel, what the PDU is to its sender, and its number.
#[derive(Drop)]
pub(crate) struct Sent {
    pub(crate) lcid: u8,
    pub(crate) how: How,
    pub(crate) sn: u32,
}

impl Model for Sent {
    ghost use Rattle.promises.specs.Names.{SentPdu};

    ghost Value = { SentPdu };

    ghost view = { λ s. record { lcid = s.lcid; how = s.how; sn = s.sn } };
}

fn is_tm(how: How) -> bool
    ensures { result ≡ is_tm how }
{
    match how {
        How::Tm => true,
        How::New | How::Re | How::Status => false,
    }
}

fn is_new(how: How) -> bool
    ensures { result ≡ is_new how }
{
    match how {
        How::New => true,
        How::Tm | How::Re | How::Status => false,
    }
}

fn is_acknowledged(
    alloc: Global,
    kind: PdcpKind,
    how: How,
    sn: u32,
    octets: &[u8],
) -> Result<bool, NoMemory>
    requires kind { IsPdcp kind }
    requires short { length octets.now < OCTETS_LIMIT }
    ensures { IfOk result (λ yes. yes ≡ is_acknowledged kind how sn octets.now) }
{
    match how {
        How::Tm => Ok(false),
        How::New => is_amd(alloc, kind, false, sn, octets),
        How::Re => is_amd(alloc, kind, true, sn, octets),
        How::Status => Ok(is_status(sn, octets)),
    }
}

// Whether octets are the PDU that is named, on a channel whose PDUs are read so.
pub(crate) fn is_named(
    alloc: Global,
    layout: Option<Layout>,
    how: How,
    sn: u32,
    octets: &[u8],
) -> Result<bool, NoMemory>
    requires layout { IfSome layout IsLayout }
    requires short { length octets.now < OCTETS_LIMIT }
    ensures { IfOk result (λ yes. yes ≡ is_named layout how sn octets.now) }
{
    match layout {
        None => Ok(false),
        Some(Layout::Tm) => Ok(is_tm(how) && sn == 0 && !octets.is_empty()),
        Some(Layout::Um { rlc_bits, pdcp }) => {
            if !is_new(how) {
                return Ok(false);
            }
            is_umd(alloc, pdcp, rlc_bits, sn, octets)
        }
        Some(Layout::Am { pdcp }) => is_acknowledged(alloc, pdcp, how, sn, octets),
    }
}
