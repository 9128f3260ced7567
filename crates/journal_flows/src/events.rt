// What an end tells of its flows.
ghost use Rattle.std.specs.Prelude.{◌≡◌, ◌==◌, if◌then◌else◌, OnOk};
ghost use Rattle.journal_account.specs.FlowEvents.{ReorderStarted, ReorderExpired};
ghost use Rattle.journal_um.specs.UmEvents as um;
ghost use Rattle.journal_flows.specs.Gathering.{all_told, taken_as, report_as, reorder_as, told_by};
ghost use Rattle.journal_flows.specs.Accounts.{accounts};

use crate::accounts::Accounts;
use crate::flow::Happening;
use crate::um_ends::UmHappening;
use bearer_types::{Event, other};
use l2_bits::NoMemory;
use l2_types::{Clock, Side};
use pdcp_pdu::PdcpKind;
use pdu_show::{Kinds, Layout};

// The octets of PDCP's header of data, of that with numbers of 7 bits, and of that of a signalling
// bearer with its MAC-I (TS 36.323 6.2.3, 6.2.2).
const DATA_OCTETS: u32 = 2;

const SHORT_DATA_OCTETS: u32 = 1;

const SIGNALLING_OCTETS: u32 = 5;

// The octets of the header of unacknowledged data, whose numbers have so many bits.
fn um_header(bits: u32) -> u32
    ensures { result ≡ (if bits == 7 then 1 else 2) }
{
    if bits == 7 {
        SHORT_DATA_OCTETS
    } else {
        DATA_OCTETS
    }
}

// RLC takes an SDU of so many octets.
fn take(
    flows: &mut Accounts,
    layout: Option<Layout>,
    side: Side,
    lcid: u8,
    count: Option<u32>,
    len: u32,
) -> Result<(), NoMemory>
    ensures { OnOk result
        (flows.new ≡ all_told accounts (taken_as layout side lcid count len) flows.old) }
{
    match layout {
        Some(
            Layout::Am {
                pdcp: PdcpKind::Srb,
            },
        ) => {
            let size = len.checked_add(SIGNALLING_OCTETS).ok_or(NoMemory)?;
            flows.change(side, lcid, Happening::PduGiven { count: None, size })
        }
        Some(Layout::Am { .. }) => {
            let size = len.checked_add(DATA_OCTETS).ok_or(NoMemory)?;
            flows.change(side, lcid, Happening::PduGiven { count, size })
        }
        Some(
            Layout::Um {
                pdcp: PdcpKind::Um { bits },
                ..
            },
        ) => {
            let size = len.checked_add(um_header(bits)).ok_or(NoMemory)?;
            flows.um_change(side, lcid, UmHappening::SduTaken { size })
        }
        _ => Ok(()),
    }
}

// RLC takes a status report, with so many octets in its bitmap.
fn report(
    flows: &mut Accounts,
    layout: Option<Layout>,
    side: Side,
    lcid: u8,
    len: u32,
) -> Result<(), NoMemory>
    ensures { OnOk result
        (flows.new ≡ all_told accounts (report_as layout side lcid len) flows.old) }
{
    let Some(
        Layout::Am {
            pdcp: PdcpKind::Am { bits },
        },
    ) = layout
    else {
        return Ok(());
    };
    let header: u32 = if bits == 12 { 2 } else { 3 };
    let size = header.checked_add(len).ok_or(NoMemory)?;
    flows.change(side, lcid, Happening::PduGiven { count: None, size })
}

// t-Reordering of a flow that comes starts.
fn start_reorder(
    flows: &mut Accounts,
    layout: Option<Layout>,
    side: Side,
    lcid: u8,
) -> Result<(), NoMemory>
    ensures { OnOk result (flows.new ≡ all_told accounts
        (reorder_as layout side lcid ReorderStarted um.ReorderStarted) flows.old) }
{
    match layout {
        Some(Layout::Um { .. }) => flows.um_change(side, lcid, UmHappening::ReorderStarted),
        _ => flows.change(side, lcid, Happening::ReorderStarted),
    }
}

// It expires.
fn expire_reorder(
    flows: &mut Accounts,
    layout: Option<Layout>,
    side: Side,
    lcid: u8,
) -> Result<(), NoMemory>
    ensures { OnOk result (flows.new ≡ all_told accounts
        (reorder_as layout side lcid ReorderExpired um.ReorderExpired) flows.old) }
{
    match layout {
        Some(Layout::Um { .. }) => flows.um_change(side, lcid, UmHappening::ReorderExpired),
        _ => flows.change(side, lcid, Happening::ReorderExpired),
    }
}

// An event of an end; `may_take`: an SDU may be taken as t-PollRetransmit expires.
pub(crate) fn happen(
    flows: &mut Accounts,
    kinds: &Kinds,
    side: Side,
    event: &Event,
    may_take: bool,
) -> Result<(), NoMemory>
    ensures { OnOk result
        (flows.new ≡ all_told accounts (told_by kinds.now may_take side event.now) flows.old) }
{
    match event {
        Event::Take { lcid, count, len } => {
            take(flows, kinds.of(*lcid), side, *lcid, *count, *len)
        }
        Event::Report { lcid, bitmap, .. } => {
            let len = u32::try_from(bitmap.as_slice().len()).map_err(|_| NoMemory)?;
            report(flows, kinds.of(*lcid), side, *lcid, len)
        }
        Event::Start {
            lcid,
            clock: Clock::Reorder,
        } => start_reorder(flows, kinds.of(*lcid), other(side), *lcid),
        Event::Expired {
            lcid,
            clock: Clock::Reorder,
        } => expire_reorder(flows, kinds.of(*lcid), other(side), *lcid),
        Event::Expired {
            lcid,
            clock: Clock::Poll,
        } => flows.change(side, *lcid, Happening::PollExpired { more: may_take }),
        _ => Ok(()),
    }
}
