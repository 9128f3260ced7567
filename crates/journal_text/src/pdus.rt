ghost use Rattle.std.specs.Prelude.{◌∷◌, codes, IfOk};
ghost use Rattle.air_text.specs.Words.{texts};
ghost use Rattle.journal_text.specs.Answers.{Gives};
ghost use Rattle.journal_text.specs.Pdus.{front_of, sdu_of, pad_of, truncated_of, short_of};
ghost use Rattle.journal_text.specs.Pdus.{long_of};
ghost use Rattle.journal_text.specs.Pdus.{phr_of, crnti_of, advance_of, drx_of, contention_of};
ghost use Rattle.journal_text.specs.Pdus.{transparent_of, umd_of, amd_of, segment_of, status_of};
ghost use Rattle.journal_text.specs.Pdus.{user_of, signalling_of, status_report_of, bsr_of};
ghost use Rattle.journal_text.specs.Pdus.{mac_of};
ghost use Rattle.journal_text.specs.Pdus.{rlc_of, pdcp_of};
ghost use Rattle.journal_text.specs.Records.{IsSaid};

use crate::fault::TextFault;
use crate::fields::{array, bitmap, number, octet, says};
use crate::lists::{lens, nacks};
use crate::naming::{bit, framing};
use air_record::Record;
use mac_pdu::{Bsr, Control};
use std::alloc::Global;

#[tactic(auto, unfolding(crate::specs::Pdus::front_of))]
fn front(fields: &[&[u8]]) -> Result<Record, TextFault>
    ensures record { Gives result (front_of (texts fields.now)) }
    ensures text { IfOk result (IsSaid (codes "mac" ∷ codes "front" ∷ texts fields.now)) }
{
    let [] = fields else {
        return Err(TextFault::NotARecord);
    };
    Ok(Record::MacFront)
}

#[tactic(auto, unfolding(crate::specs::Pdus::sdu_of))]
#[inline(never)]
fn sdu(fields: &[&[u8]]) -> Result<Record, TextFault>
    ensures record { Gives result (sdu_of (texts fields.now)) }
    ensures text { IfOk result (IsSaid (codes "mac" ∷ codes "sdu" ∷ texts fields.now)) }
{
    let [lcid, len] = fields else {
        return Err(TextFault::NotARecord);
    };
    let lcid = octet(lcid)?;
    let len = number(len)?;
    Ok(Record::MacSdu { lcid, len })
}

#[tactic(auto, unfolding(crate::specs::Pdus::pad_of))]
#[inline(never)]
fn pad(fields: &[&[u8]]) -> Result<Record, TextFault>
    ensures record { Gives result (pad_of (texts fields.now)) }
    ensures text { IfOk result (IsSaid (codes "mac" ∷ codes "pad" ∷ texts fields.now)) }
{
    let [len] = fields else {
        return Err(TextFault::NotARecord);
    };
    let octets = number(len)?;
    Ok(Record::MacPad { octets })
}

#[tactic(auto, unfolding(crate::specs::Pdus::truncated_of))]
#[inline(never)]
fn truncated(fields: &[&[u8]]) -> Result<Record, TextFault>
    ensures record { Gives result (truncated_of (texts fields.now)) }
    ensures text { IfOk result
        (IsSaid (codes "mac" ∷ codes "bsr" ∷ codes "truncated" ∷ texts fields.now)) }
{
    let [group, level] = fields else {
        return Err(TextFault::NotARecord);
    };
    let group = octet(group)?;
    let level = octet(level)?;
    Ok(Record::MacControl {
        element: Control::Report(Bsr::Truncated { group, level }),
    })
}

#[tactic(auto, unfolding(crate::specs::Pdus::short_of))]
#[inline(never)]
fn short(fields: &[&[u8]]) -> Result<Record, TextFault>
    ensures record { Gives result (short_of (texts fields.now)) }
    ensures text { IfOk result
        (IsSaid (codes "mac" ∷ codes "bsr" ∷ codes "short" ∷ texts fields.now)) }
{
    let [group, level] = fields else {
        return Err(TextFault::NotARecord);
    };
    let group = octet(group)?;
    let level = octet(level)?;
    Ok(Record::MacControl {
        element: Control::Report(Bsr::Short { group, level }),
    })
}

#[tactic(auto, unfolding(crate::specs::Pdus::long_of))]
#[inline(never)]
fn long(fields: &[&[u8]]) -> Result<Record, TextFault>
    ensures record { Gives result (long_of (texts fields.now)) }
    ensures text { IfOk result
        (IsSaid (codes "mac" ∷ codes "bsr" ∷ codes "long" ∷ texts fields.now)) }
{
    let [first, second, third, fourth] = fields else {
        return Err(TextFault::NotARecord);
    };
    let first = octet(first)?;
    let second = octet(second)?;
    let third = octet(third)?;
    let fourth = octet(fourth)?;
    Ok(Record::MacControl {
        element: Control::Report(Bsr::Long {
            levels: [first, second, third, fourth],
        }),
    })
}

#[tactic(auto, unfolding(crate::specs::Pdus::phr_of))]
#[inline(never)]
fn phr(fields: &[&[u8]]) -> Result<Record, TextFault>
    ensures record { Gives result (phr_of (texts fields.now)) }
    ensures text { IfOk result (IsSaid (codes "mac" ∷ codes "phr" ∷ texts fields.now)) }
{
    let [word] = fields else {
        return Err(TextFault::NotARecord);
    };
    let level = octet(word)?;
    Ok(Record::MacControl {
        element: Control::Phr(level),
    })
}

#[tactic(auto, unfolding(crate::specs::Pdus::crnti_of))]
#[inline(never)]
fn crnti(fields: &[&[u8]]) -> Result<Record, TextFault>
    ensures record { Gives result (crnti_of (texts fields.now)) }
    ensures text { IfOk result (IsSaid (codes "mac" ∷ codes "crnti" ∷ texts fields.now)) }
{
    let [text] = fields else {
        return Err(TextFault::NotARecord);
    };
    let octets = array::<2>(text)?;
    Ok(Record::MacControl {
        element: Control::Crnti(u16::from_be_bytes(octets)),
    })
}

#[tactic(auto, unfolding(crate::specs::Pdus::advance_of))]
#[inline(never)]
fn advance(fields: &[&[u8]]) -> Result<Record, TextFault>
    ensures record { Gives result (advance_of (texts fields.now)) }
    ensures text { IfOk result (IsSaid (codes "mac" ∷ codes "ta" ∷ texts fields.now)) }
{
    let [word] = fields else {
        return Err(TextFault::NotARecord);
    };
    let value = octet(word)?;
    Ok(Record::MacControl {
        element: Control::Advance(value),
    })
}

#[tactic(auto, unfolding(crate::specs::Pdus::drx_of))]
fn drx(fields: &[&[u8]]) -> Result<Record, TextFault>
    ensures record { Gives result (drx_of (texts fields.now)) }
    ensures text { IfOk result (IsSaid (codes "mac" ∷ codes "drx" ∷ texts fields.now)) }
{
    let [] = fields else {
        return Err(TextFault::NotARecord);
    };
    Ok(Record::MacControl {
        element: Control::Drx,
    })
}

#[tactic(auto, unfolding(crate::specs::Pdus::contention_of))]
#[inline(never)]
fn contention(fields: &[&[u8]]) -> Result<Record, TextFault>
    ensures record { Gives result (contention_of (texts fields.now)) }
    ensures text { IfOk result (IsSaid (codes "mac" ∷ codes "contention" ∷ texts fields.now)) }
{
    let [text] = fields else {
        return Err(TextFault::NotARecord);
    };
    let identity = array::<6>(text)?;
    Ok(Record::MacControl {
        element: Control::Contention(identity),
    })
}

#[tactic(auto, unfolding(crate::specs::Pdus::transparent_of))]
#[inline(never)]
fn transparent(fields: &[&[u8]]) -> Result<Record, TextFault>
    ensures record { Gives result (transparent_of (texts fields.now)) }
    ensures text { IfOk result (IsSaid (codes "rlc" ∷ codes "tm" ∷ texts fields.now)) }
{
    let [word] = fields else {
        return Err(TextFault::NotARecord);
    };
    let len = number(word)?;
    Ok(Record::RlcTm { len })
}

#[tactic(auto, unfolding(crate::specs::Pdus::umd_of))]
#[inline(never)]
fn umd(alloc: Global, fields: &[&[u8]]) -> Result<Record, TextFault>
    ensures record { Gives result (umd_of (texts fields.now)) }
    ensures text { IfOk result (IsSaid (codes "rlc" ∷ codes "um" ∷ texts fields.now)) }
{
    let [sn, info, elements] = fields else {
        return Err(TextFault::NotARecord);
    };
    let sn = number(sn)?;
    let fi = framing(info)?;
    let lens = lens(alloc, elements)?;
    Ok(Record::RlcUm { sn, fi, lens })
}

#[tactic(auto, unfolding(crate::specs::Pdus::amd_of))]
#[inline(never)]
fn amd(alloc: Global, fields: &[&[u8]]) -> Result<Record, TextFault>
    ensures record { Gives result (amd_of (texts fields.now)) }
    ensures text { IfOk result (IsSaid (codes "rlc" ∷ codes "am" ∷ texts fields.now)) }
{
    let [sn, asked, info, elements] = fields else {
        return Err(TextFault::NotARecord);
    };
    let sn = number(sn)?;
    let poll = bit(asked)?;
    let fi = framing(info)?;
    let lens = lens(alloc, elements)?;
    Ok(Record::RlcAm { sn, poll, fi, lens })
}

#[tactic(auto, unfolding(crate::specs::Pdus::segment_of))]
#[inline(never)]
fn segment(alloc: Global, fields: &[&[u8]]) -> Result<Record, TextFault>
    ensures record { Gives result (segment_of (texts fields.now)) }
    ensures text { IfOk result (IsSaid (codes "rlc" ∷ codes "seg" ∷ texts fields.now)) }
{
    let [sn, asked, info, ending, so, elements] = fields else {
        return Err(TextFault::NotARecord);
    };
    let sn = number(sn)?;
    let poll = bit(asked)?;
    let fi = framing(info)?;
    let last = bit(ending)?;
    let so = number(so)?;
    let lens = lens(alloc, elements)?;
    Ok(Record::RlcSeg {
        sn,
        poll,
        fi,
        last,
        so,
        lens,
    })
}

#[tactic(auto, unfolding(crate::specs::Pdus::status_of))]
#[inline(never)]
fn status(alloc: Global, fields: &[&[u8]]) -> Result<Record, TextFault>
    ensures record { Gives result (status_of (texts fields.now)) }
    ensures text { IfOk result (IsSaid (codes "rlc" ∷ codes "status" ∷ texts fields.now)) }
{
    let [ack, entries] = fields else {
        return Err(TextFault::NotARecord);
    };
    let ack = number(ack)?;
    let nacks = nacks(alloc, entries)?;
    Ok(Record::RlcStatus { ack, nacks })
}

#[tactic(auto, unfolding(crate::specs::Pdus::user_of))]
#[inline(never)]
fn user(fields: &[&[u8]]) -> Result<Record, TextFault>
    ensures record { Gives result (user_of (texts fields.now)) }
    ensures text { IfOk result (IsSaid (codes "pdcp" ∷ codes "data" ∷ texts fields.now)) }
{
    let [sn, len] = fields else {
        return Err(TextFault::NotARecord);
    };
    let sn = number(sn)?;
    let len = number(len)?;
    Ok(Record::PdcpData { sn, len })
}

#[tactic(auto, unfolding(crate::specs::Pdus::signalling_of))]
#[inline(never)]
fn signalling(fields: &[&[u8]]) -> Result<Record, TextFault>
    ensures record { Gives result (signalling_of (texts fields.now)) }
    ensures text { IfOk result (IsSaid (codes "pdcp" ∷ codes "srb" ∷ texts fields.now)) }
{
    let [sn, len, text] = fields else {
        return Err(TextFault::NotARecord);
    };
    let sn = number(sn)?;
    let len = number(len)?;
    let tag = array::<4>(text)?;
    Ok(Record::PdcpSrb { sn, len, tag })
}

#[tactic(auto, unfolding(crate::specs::Pdus::status_report_of))]
#[inline(never)]
fn status_report(alloc: Global, fields: &[&[u8]]) -> Result<Record, TextFault>
    ensures record { Gives result (status_report_of (texts fields.now)) }
    ensures text { IfOk result (IsSaid (codes "pdcp" ∷ codes "report" ∷ texts fields.now)) }
{
    let [fms, bits] = fields else {
        return Err(TextFault::NotARecord);
    };
    let fms = number(fms)?;
    let bitmap = bitmap(alloc, bits)?;
    Ok(Record::PdcpReport { fms, bitmap })
}

#[tactic(auto, unfolding(crate::specs::Pdus::bsr_of))]
fn bsr(fields: &[&[u8]]) -> Result<Record, TextFault>
    ensures record { Gives result (bsr_of (texts fields.now)) }
    ensures text { IfOk result (IsSaid (codes "mac" ∷ codes "bsr" ∷ texts fields.now)) }
{
    let [name, fields @ ..] = fields else {
        return Err(TextFault::NotARecord);
    };
    if says(name, b"truncated") {
        return truncated(fields);
    }
    if says(name, b"short") {
        return short(fields);
    }
    if says(name, b"long") {
        return long(fields);
    }
    Err(TextFault::NotARecord)
}

#[tactic(auto, unfolding(crate::specs::Pdus::mac_of))]
#[inline(never)]
pub fn mac(fields: &[&[u8]]) -> Result<Record, TextFault>
    ensures record { Gives result (mac_of (texts fields.now)) }
    ensures text { IfOk result (IsSaid (codes "mac" ∷ texts fields.now)) }
{
    let [name, fields @ ..] = fields else {
        return Err(TextFault::NotARecord);
    };
    if says(name, b"sdu") {
        return sdu(fields);
    }
    if says(name, b"pad") {
        return pad(fields);
    }
    if says(name, b"front") {
        return front(fields);
    }
    if says(name, b"bsr") {
        return bsr(fields);
    }
    if says(name, b"phr") {
        return phr(fields);
    }
    if says(name, b"crnti") {
        return crnti(fields);
    }
    if says(name, b"ta") {
        return advance(fields);
    }
    if says(name, b"drx") {
        return drx(fields);
    }
    if says(name, b"contention") {
        return contention(fields);
    }
    Err(TextFault::NotARecord)
}

#[tactic(auto, unfolding(crate::specs::Pdus::rlc_of))]
#[inline(never)]
pub fn rlc(alloc: Global, fields: &[&[u8]]) -> Result<Record, TextFault>
    ensures record { Gives result (rlc_of (texts fields.now)) }
    ensures text { IfOk result (IsSaid (codes "rlc" ∷ texts fields.now)) }
{
    let [name, fields @ ..] = fields else {
        return Err(TextFault::NotARecord);
    };
    if says(name, b"am") {
        return amd(alloc, fields);
    }
    if says(name, b"um") {
        return umd(alloc, fields);
    }
    if says(name, b"status") {
        return status(alloc, fields);
    }
    if says(name, b"seg") {
        return segment(alloc, fields);
    }
    if says(name, b"tm") {
        return transparent(fields);
    }
    Err(TextFault::NotARecord)
}

#[tactic(auto, unfolding(crate::specs::Pdus::pdcp_of))]
#[inline(never)]
pub fn pdcp(alloc: Global, fields: &[&[u8]]) -> Result<Record, TextFault>
    ensures record { Gives result (pdcp_of (texts fields.now)) }
    ensures text { IfOk result (IsSaid (codes "pdcp" ∷ texts fields.now)) }
{
    let [name, fields @ ..] = fields else {
        return Err(TextFault::NotARecord);
    };
    if says(name, b"data") {
        return user(fields);
    }
    if says(name, b"srb") {
        return signalling(fields);
    }
    if says(name, b"report") {
        return status_report(alloc, fields);
    }
    Err(TextFault::NotARecord)
}
