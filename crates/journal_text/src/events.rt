ghost use Rattle.std.specs.Fmt.{decimal};
ghost use Rattle.std.specs.Prelude.{◌∷◌, codes, IfOk};
ghost use Rattle.air_record.specs.Text.{side_text};
ghost use Rattle.air_text.specs.Words.{texts};
ghost use Rattle.journal_text.specs.Answers.{Gives};
ghost use Rattle.journal_text.specs.Events.{take_of, report_of, send_of, wait_of, start_of};
ghost use Rattle.journal_text.specs.Events.{stop_of};
ghost use Rattle.journal_text.specs.Events.{expired_of, up_of, fail_of, drop_of, integrity_of};
ghost use Rattle.journal_text.specs.Events.{discard_of, bad_block_of, bad_rlc_of, bad_pdcp_of};
ghost use Rattle.journal_text.specs.Events.{bad_of};
ghost use Rattle.journal_text.specs.Events.{channel_event_of, event_of};
ghost use Rattle.journal_text.specs.Records.{IsSaid};

use crate::fault::TextFault;
use crate::fields::{array, bitmap, count, number, octet, octets, says};
use crate::naming::{clock, how, lost, mac_why, pdcp_why, rlc_why, side, waits};
use air_record::Record;
use bearer_types::Event;
use l2_types::Side;
use mac_pdu::MacRefusal;
use pdcp_pdu::PdcpRefusal;
use rlc_pdu::RlcRefusal;
use std::alloc::Global;

#[tactic(auto, unfolding(crate::specs::Events::take_of))]
#[inline(never)]
fn take(side: Side, lcid: u8, fields: &[&[u8]]) -> Result<Record, TextFault>
    ensures record { Gives result (take_of side lcid (texts fields.now)) }
    ensures text { IfOk result
        (IsSaid (codes "take" ∷ side_text side ∷ decimal lcid ∷ texts fields.now)) }
{
    let [given, len] = fields else {
        return Err(TextFault::NotARecord);
    };
    let count = count(given)?;
    let len = number(len)?;
    Ok(Record::Of {
        side,
        event: Event::Take { lcid, count, len },
    })
}

#[tactic(auto, unfolding(crate::specs::Events::report_of))]
#[inline(never)]
fn report(alloc: Global, side: Side, lcid: u8, fields: &[&[u8]]) -> Result<Record, TextFault>
    ensures record { Gives result (report_of side lcid (texts fields.now)) }
    ensures text { IfOk result
        (IsSaid (codes "report" ∷ side_text side ∷ decimal lcid ∷ texts fields.now)) }
{
    let [fms, bits] = fields else {
        return Err(TextFault::NotARecord);
    };
    let fms = number(fms)?;
    let bitmap = bitmap(alloc, bits)?;
    Ok(Record::Of {
        side,
        event: Event::Report { lcid, fms, bitmap },
    })
}

#[tactic(auto, unfolding(crate::specs::Events::send_of))]
#[inline(never)]
fn send(side: Side, lcid: u8, fields: &[&[u8]]) -> Result<Record, TextFault>
    ensures record { Gives result (send_of side lcid (texts fields.now)) }
    ensures text { IfOk result
        (IsSaid (codes "send" ∷ side_text side ∷ decimal lcid ∷ texts fields.now)) }
{
    let [what, sn] = fields else {
        return Err(TextFault::NotARecord);
    };
    let how = how(what)?;
    let sn = number(sn)?;
    Ok(Record::Of {
        side,
        event: Event::Send { lcid, how, sn },
    })
}

#[tactic(auto, unfolding(crate::specs::Events::wait_of))]
#[inline(never)]
fn wait(side: Side, lcid: u8, fields: &[&[u8]]) -> Result<Record, TextFault>
    ensures record { Gives result (wait_of side lcid (texts fields.now)) }
    ensures text { IfOk result
        (IsSaid (codes "wait" ∷ side_text side ∷ decimal lcid ∷ texts fields.now)) }
{
    let [word] = fields else {
        return Err(TextFault::NotARecord);
    };
    let why = waits(word)?;
    Ok(Record::Of {
        side,
        event: Event::Wait { lcid, why },
    })
}

#[tactic(auto, unfolding(crate::specs::Events::start_of))]
#[inline(never)]
fn start(side: Side, lcid: u8, fields: &[&[u8]]) -> Result<Record, TextFault>
    ensures record { Gives result (start_of side lcid (texts fields.now)) }
    ensures text { IfOk result
        (IsSaid (codes "start" ∷ side_text side ∷ decimal lcid ∷ texts fields.now)) }
{
    let [timer] = fields else {
        return Err(TextFault::NotARecord);
    };
    let clock = clock(timer)?;
    Ok(Record::Of {
        side,
        event: Event::Start { lcid, clock },
    })
}

#[tactic(auto, unfolding(crate::specs::Events::stop_of))]
#[inline(never)]
fn stop(side: Side, lcid: u8, fields: &[&[u8]]) -> Result<Record, TextFault>
    ensures record { Gives result (stop_of side lcid (texts fields.now)) }
    ensures text { IfOk result
        (IsSaid (codes "stop" ∷ side_text side ∷ decimal lcid ∷ texts fields.now)) }
{
    let [timer] = fields else {
        return Err(TextFault::NotARecord);
    };
    let clock = clock(timer)?;
    Ok(Record::Of {
        side,
        event: Event::Stop { lcid, clock },
    })
}

#[tactic(auto, unfolding(crate::specs::Events::expired_of))]
#[inline(never)]
fn expired(side: Side, lcid: u8, fields: &[&[u8]]) -> Result<Record, TextFault>
    ensures record { Gives result (expired_of side lcid (texts fields.now)) }
    ensures text { IfOk result
        (IsSaid (codes "expired" ∷ side_text side ∷ decimal lcid ∷ texts fields.now)) }
{
    let [timer] = fields else {
        return Err(TextFault::NotARecord);
    };
    let clock = clock(timer)?;
    Ok(Record::Of {
        side,
        event: Event::Expired { lcid, clock },
    })
}

#[tactic(auto, unfolding(crate::specs::Events::up_of))]
#[inline(never)]
fn up(alloc: Global, side: Side, lcid: u8, fields: &[&[u8]]) -> Result<Record, TextFault>
    ensures record { Gives result (up_of side lcid (texts fields.now)) }
    ensures text { IfOk result
        (IsSaid (codes "up" ∷ side_text side ∷ decimal lcid ∷ texts fields.now)) }
{
    let [text] = fields else {
        return Err(TextFault::NotARecord);
    };
    let octets = octets(alloc, text)?;
    Ok(Record::Of {
        side,
        event: Event::Up { lcid, octets },
    })
}

#[tactic(auto, unfolding(crate::specs::Events::fail_of))]
#[inline(never)]
fn fail(side: Side, lcid: u8, fields: &[&[u8]]) -> Result<Record, TextFault>
    ensures record { Gives result (fail_of side lcid (texts fields.now)) }
    ensures text { IfOk result
        (IsSaid (codes "fail" ∷ side_text side ∷ decimal lcid ∷ texts fields.now)) }
{
    let [sn] = fields else {
        return Err(TextFault::NotARecord);
    };
    let sn = number(sn)?;
    Ok(Record::Of {
        side,
        event: Event::Fail { lcid, sn },
    })
}

#[tactic(auto, unfolding(crate::specs::Events::drop_of))]
#[inline(never)]
fn drop(side: Side, lcid: u8, fields: &[&[u8]]) -> Result<Record, TextFault>
    ensures record { Gives result (drop_of side lcid (texts fields.now)) }
    ensures text { IfOk result
        (IsSaid (codes "drop" ∷ side_text side ∷ decimal lcid ∷ texts fields.now)) }
{
    let [word] = fields else {
        return Err(TextFault::NotARecord);
    };
    let why = lost(word)?;
    Ok(Record::Of {
        side,
        event: Event::Drop { lcid, why },
    })
}

#[tactic(auto, unfolding(crate::specs::Events::integrity_of))]
#[inline(never)]
fn integrity(side: Side, lcid: u8, fields: &[&[u8]]) -> Result<Record, TextFault>
    ensures record { Gives result (integrity_of side lcid (texts fields.now)) }
    ensures text { IfOk result
        (IsSaid (codes "integrity" ∷ side_text side ∷ decimal lcid ∷ texts fields.now)) }
{
    let [found, wanted] = fields else {
        return Err(TextFault::NotARecord);
    };
    let found = array::<4>(found)?;
    let wanted = array::<4>(wanted)?;
    Ok(Record::Of {
        side,
        event: Event::Integrity {
            lcid,
            found,
            wanted,
        },
    })
}

#[tactic(auto, unfolding(crate::specs::Events::discard_of))]
#[inline(never)]
fn discard(side: Side, lcid: u8, fields: &[&[u8]]) -> Result<Record, TextFault>
    ensures record { Gives result (discard_of side lcid (texts fields.now)) }
    ensures text { IfOk result
        (IsSaid (codes "discard" ∷ side_text side ∷ decimal lcid ∷ texts fields.now)) }
{
    let [len] = fields else {
        return Err(TextFault::NotARecord);
    };
    let len = number(len)?;
    Ok(Record::Of {
        side,
        event: Event::Discard { lcid, len },
    })
}

#[tactic(auto, unfolding(crate::specs::Events::bad_block_of))]
#[inline(never)]
fn bad_block(side: Side, fields: &[&[u8]]) -> Result<Record, TextFault>
    ensures record { Gives result (bad_block_of side (texts fields.now)) }
    ensures text { IfOk result
        (IsSaid (codes "bad" ∷ side_text side ∷ codes "mac" ∷ texts fields.now)) }
{
    let [at, word] = fields else {
        return Err(TextFault::NotARecord);
    };
    let at = number(at)?;
    let why = mac_why(word)?;
    Ok(Record::Of {
        side,
        event: Event::BadMac(MacRefusal { at, why }),
    })
}

#[tactic(auto, unfolding(crate::specs::Events::bad_rlc_of))]
#[inline(never)]
fn bad_rlc(side: Side, fields: &[&[u8]]) -> Result<Record, TextFault>
    ensures record { Gives result (bad_rlc_of side (texts fields.now)) }
    ensures text { IfOk result
        (IsSaid (codes "bad" ∷ side_text side ∷ codes "rlc" ∷ texts fields.now)) }
{
    let [lcid, at, word] = fields else {
        return Err(TextFault::NotARecord);
    };
    let lcid = octet(lcid)?;
    let at = number(at)?;
    let why = rlc_why(word)?;
    Ok(Record::Of {
        side,
        event: Event::BadRlc {
            lcid,
            fault: RlcRefusal { at, why },
        },
    })
}

#[tactic(auto, unfolding(crate::specs::Events::bad_pdcp_of))]
#[inline(never)]
fn bad_pdcp(side: Side, fields: &[&[u8]]) -> Result<Record, TextFault>
    ensures record { Gives result (bad_pdcp_of side (texts fields.now)) }
    ensures text { IfOk result
        (IsSaid (codes "bad" ∷ side_text side ∷ codes "pdcp" ∷ texts fields.now)) }
{
    let [lcid, at, word] = fields else {
        return Err(TextFault::NotARecord);
    };
    let lcid = octet(lcid)?;
    let at = number(at)?;
    let why = pdcp_why(word)?;
    Ok(Record::Of {
        side,
        event: Event::BadPdcp {
            lcid,
            fault: PdcpRefusal { at, why },
        },
    })
}

#[tactic(auto, unfolding(crate::specs::Events::bad_of))]
fn bad(side: Side, layer: &[u8], fields: &[&[u8]]) -> Result<Record, TextFault>
    ensures record { Gives result (bad_of side layer.now (texts fields.now)) }
    ensures text { IfOk result
        (IsSaid (codes "bad" ∷ side_text side ∷ layer.now ∷ texts fields.now)) }
{
    if says(layer, b"mac") {
        return bad_block(side, fields);
    }
    if says(layer, b"rlc") {
        return bad_rlc(side, fields);
    }
    if says(layer, b"pdcp") {
        return bad_pdcp(side, fields);
    }
    Err(TextFault::NotARecord)
}

// What happens on a channel.
fn channel_event(
    alloc: Global,
    first: &[u8],
    side: Side,
    lcid: u8,
    fields: &[&[u8]],
) -> Result<Record, TextFault>
    ensures record { Gives result (channel_event_of first.now side lcid (texts fields.now)) }
    ensures text { IfOk result
        (IsSaid (first.now ∷ side_text side ∷ decimal lcid ∷ texts fields.now)) }
{
    if says(first, b"take") {
        return take(side, lcid, fields);
    }
    if says(first, b"send") {
        return send(side, lcid, fields);
    }
    if says(first, b"up") {
        return up(alloc, side, lcid, fields);
    }
    if says(first, b"start") {
        return start(side, lcid, fields);
    }
    if says(first, b"stop") {
        return stop(side, lcid, fields);
    }
    if says(first, b"report") {
        return report(alloc, side, lcid, fields);
    }
    if says(first, b"wait") {
        return wait(side, lcid, fields);
    }
    if says(first, b"drop") {
        return drop(side, lcid, fields);
    }
    if says(first, b"expired") {
        return expired(side, lcid, fields);
    }
    if says(first, b"fail") {
        return fail(side, lcid, fields);
    }
    if says(first, b"discard") {
        return discard(side, lcid, fields);
    }
    if says(first, b"integrity") {
        return integrity(side, lcid, fields);
    }
    Err(TextFault::NotARecord)
}

/// What happens at one end.
#[tactic(auto, unfolding(crate::specs::Events::event_of))]
#[inline(never)]
pub fn event(alloc: Global, first: &[u8], fields: &[&[u8]]) -> Result<Record, TextFault>
    ensures record { Gives result (event_of first.now (texts fields.now)) }
    ensures text { IfOk result (IsSaid (first.now ∷ texts fields.now)) }
{
    let [node, second, fields @ ..] = fields else {
        return Err(TextFault::NotARecord);
    };
    let side = side(node)?;
    if says(first, b"bad") {
        return bad(side, second, fields);
    }
    let lcid = octet(second)?;
    channel_event(alloc, first, side, lcid, fields)
}
