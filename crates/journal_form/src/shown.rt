// Whether a record shows what another shows.
ghost use Rattle.std.specs.Prelude.{◌≡◌, ◌<◌, length, slice_get, Some};
ghost use Rattle.std.specs.Str.{bytes_eq};
ghost use Rattle.air_record.specs.Text.{mac_number, rlc_number, pdcp_number};
ghost use Rattle.journal_form.specs.SameRecords.{is_front, is_sdu, is_pad, is_control, is_tm};
ghost use Rattle.journal_form.specs.SameRecords.{is_umd};
ghost use Rattle.journal_form.specs.SameRecords.{is_amd, is_segment, is_status, is_data};
ghost use Rattle.journal_form.specs.SameRecords.{is_signalling, is_report, is_bad_mac, is_bad_rlc};
ghost use Rattle.journal_form.specs.SameRecords.{is_bad_pdcp};
ghost use Rattle.journal_form.specs.SameRecords.{same_report, same_control, same_part, same_nack};
ghost use Rattle.journal_form.specs.SameRecords.{same_nacks, same_mac, same_rlc, same_pdcp};
ghost use Rattle.journal_form.specs.SameRecords.{same_shown};

use air_record::{Lens, Record};
use mac_pdu::{Bsr, Control, MacRefusal, MacWhy};
use pdcp_pdu::{PdcpRefusal, PdcpWhy};
use rlc_pdu::{Nack, Nacks, Part, RlcRefusal, RlcWhy};

pub(crate) fn same_octets(octets: &[u8], own_octets: &[u8]) -> bool
    ensures { result ≡ bytes_eq octets.now own_octets.now }
{
    octets == own_octets
}

fn same_report(report: Bsr, own_report: Bsr) -> bool
    ensures { result ≡ same_report report own_report }
{
    match (report, own_report) {
        (
            Bsr::Truncated { group, level },
            Bsr::Truncated {
                group: own_group,
                level: own_level,
            },
        ) => group == own_group && level == own_level,
        (
            Bsr::Short { group, level },
            Bsr::Short {
                group: own_group,
                level: own_level,
            },
        ) => group == own_group && level == own_level,
        (Bsr::Long { levels }, Bsr::Long { levels: own_levels }) => {
            same_octets(&levels, &own_levels)
        }
        _ => false,
    }
}

fn same_control(control: &Control, own_control: &Control) -> bool
    ensures { result ≡ same_control control.now own_control.now }
{
    match (control, own_control) {
        (Control::Contention(identity), Control::Contention(own_identity)) => {
            same_octets(identity, own_identity)
        }
        (Control::Advance(value), Control::Advance(own_value)) => *value == *own_value,
        (Control::Drx, Control::Drx) => true,
        (Control::Phr(level), Control::Phr(own_level)) => *level == *own_level,
        (Control::Crnti(identity), Control::Crnti(own_identity)) => *identity == *own_identity,
        (Control::Report(report), Control::Report(own_report)) => {
            same_report(*report, *own_report)
        }
        _ => false,
    }
}

fn same_part(part: Option<Part>, own_part: Option<Part>) -> bool
    ensures { result ≡ same_part part own_part }
{
    match (part, own_part) {
        (None, None) => true,
        (Some(part), Some(own_part)) => part.start == own_part.start && part.end == own_part.end,
        _ => false,
    }
}

fn same_nack(nack: &Nack, own_nack: &Nack) -> bool
    ensures { result ≡ same_nack nack.now own_nack.now }
{
    nack.sn == own_nack.sn && same_part(nack.part, own_nack.part)
}

#[tactic(auto, using(crate::proofs::Lists::is_there))]
fn nack_at(nacks: &Nacks, at: usize) -> Nack
    requires { at < length nacks.now }
    ensures { Some result ≡ slice_get nacks.now at }
{
    match nacks.get(at) {
        Some(nack) => *nack,
        None => unreachable!(),
    }
}

fn same_nacks(nacks: &Nacks, own_nacks: &Nacks) -> bool
    ensures { result ≡ same_nacks nacks.now own_nacks.now }
{
    if own_nacks.len() != nacks.len() {
        return false;
    }
    for at in 0..nacks.len() {
        if !same_nack(&nack_at(nacks, at), &nack_at(own_nacks, at)) {
            return false;
        }
    }
    true
}

#[tactic(auto, using(crate::proofs::Lists::is_there))]
fn len_at(lens: &Lens, at: usize) -> u32
    requires { at < length lens.now }
    ensures { Some result ≡ slice_get lens.now at }
{
    match lens.get(at) {
        Some(len) => *len,
        None => unreachable!(),
    }
}

fn same_lens(lens: &Lens, own_lens: &Lens) -> bool
    ensures { result ≡ bytes_eq lens.now own_lens.now }
{
    if own_lens.len() != lens.len() {
        return false;
    }
    for at in 0..lens.len() {
        if len_at(lens, at) != len_at(own_lens, at) {
            return false;
        }
    }
    true
}

fn mac_number(why: MacWhy) -> u8
    ensures { result ≡ mac_number why }
{
    why as u8
}

fn rlc_number(why: RlcWhy) -> u8
    ensures { result ≡ rlc_number why }
{
    why as u8
}

fn pdcp_number(why: PdcpWhy) -> u8
    ensures { result ≡ pdcp_number why }
{
    why as u8
}

fn same_mac(fault: MacRefusal, own_fault: MacRefusal) -> bool
    ensures { result ≡ same_mac fault own_fault }
{
    fault.at == own_fault.at && mac_number(fault.why) == mac_number(own_fault.why)
}

fn same_rlc(fault: RlcRefusal, own_fault: RlcRefusal) -> bool
    ensures { result ≡ same_rlc fault own_fault }
{
    fault.at == own_fault.at && rlc_number(fault.why) == rlc_number(own_fault.why)
}

fn same_pdcp(fault: PdcpRefusal, own_fault: PdcpRefusal) -> bool
    ensures { result ≡ same_pdcp fault own_fault }
{
    fault.at == own_fault.at && pdcp_number(fault.why) == pdcp_number(own_fault.why)
}

fn is_front(one: &Record) -> bool
    ensures { result ≡ is_front one.now }
{
    match one {
        Record::MacFront => true,
        _ => false,
    }
}

fn is_sdu(lcid: u8, len: u32, one: &Record) -> bool
    ensures { result ≡ is_sdu lcid len one.now }
{
    match one {
        Record::MacSdu {
            lcid: own_lcid,
            len: own_len,
        } => lcid == *own_lcid && len == *own_len,
        _ => false,
    }
}

fn is_pad(octets: u32, one: &Record) -> bool
    ensures { result ≡ is_pad octets one.now }
{
    match one {
        Record::MacPad { octets: own_octets } => octets == *own_octets,
        _ => false,
    }
}

fn is_control(element: &Control, one: &Record) -> bool
    ensures { result ≡ is_control element.now one.now }
{
    match one {
        Record::MacControl {
            element: own_element,
        } => same_control(element, own_element),
        _ => false,
    }
}

fn is_tm(len: u32, one: &Record) -> bool
    ensures { result ≡ is_tm len one.now }
{
    match one {
        Record::RlcTm { len: own_len } => len == *own_len,
        _ => false,
    }
}

fn is_umd(sn: u32, fi: u8, lens: &Lens, one: &Record) -> bool
    ensures { result ≡ is_umd sn fi lens.now one.now }
{
    match one {
        Record::RlcUm {
            sn: own_sn,
            fi: own_fi,
            lens: own_lens,
        } => sn == *own_sn && fi == *own_fi && same_lens(lens, own_lens),
        _ => false,
    }
}

fn is_amd(sn: u32, poll: bool, fi: u8, lens: &Lens, one: &Record) -> bool
    ensures { result ≡ is_amd sn poll fi lens.now one.now }
{
    match one {
        Record::RlcAm {
            sn: own_sn,
            poll: own_poll,
            fi: own_fi,
            lens: own_lens,
        } => sn == *own_sn && poll == *own_poll && fi == *own_fi && same_lens(lens, own_lens),
        _ => false,
    }
}

fn is_segment(sn: u32, poll: bool, fi: u8, last: bool, so: u32, lens: &Lens, one: &Record) -> bool
    ensures { result ≡ is_segment sn poll fi last so lens.now one.now }
{
    match one {
        Record::RlcSeg {
            sn: own_sn,
            poll: own_poll,
            fi: own_fi,
            last: own_last,
            so: own_so,
            lens: own_lens,
        } => sn == *own_sn
            && poll == *own_poll
            && fi == *own_fi
            && last == *own_last
            && so == *own_so
            && same_lens(lens, own_lens),
        _ => false,
    }
}

fn is_status(ack: u32, nacks: &Nacks, one: &Record) -> bool
    ensures { result ≡ is_status ack nacks.now one.now }
{
    match one {
        Record::RlcStatus {
            ack: own_ack,
            nacks: own_nacks,
        } => ack == *own_ack && same_nacks(nacks, own_nacks),
        _ => false,
    }
}

fn is_data(sn: u32, len: u32, one: &Record) -> bool
    ensures { result ≡ is_data sn len one.now }
{
    match one {
        Record::PdcpData {
            sn: own_sn,
            len: own_len,
        } => sn == *own_sn && len == *own_len,
        _ => false,
    }
}

fn is_signalling(sn: u32, len: u32, tag: &[u8; 4], one: &Record) -> bool
    ensures { result ≡ is_signalling sn len tag.now one.now }
{
    match one {
        Record::PdcpSrb {
            sn: own_sn,
            len: own_len,
            tag: own_tag,
        } => sn == *own_sn && len == *own_len && same_octets(tag, own_tag),
        _ => false,
    }
}

fn is_report(fms: u32, bitmap: &[u8], one: &Record) -> bool
    ensures { result ≡ is_report fms bitmap.now one.now }
{
    match one {
        Record::PdcpReport {
            fms: own_fms,
            bitmap: own_bitmap,
        } => fms == *own_fms && same_octets(bitmap, own_bitmap.as_slice()),
        _ => false,
    }
}

fn is_bad_mac(fault: MacRefusal, one: &Record) -> bool
    ensures { result ≡ is_bad_mac fault one.now }
{
    match one {
        Record::BadMac { fault: own_fault } => same_mac(fault, *own_fault),
        _ => false,
    }
}

fn is_bad_rlc(fault: RlcRefusal, one: &Record) -> bool
    ensures { result ≡ is_bad_rlc fault one.now }
{
    match one {
        Record::BadRlc { fault: own_fault } => same_rlc(fault, *own_fault),
        _ => false,
    }
}

fn is_bad_pdcp(fault: PdcpRefusal, one: &Record) -> bool
    ensures { result ≡ is_bad_pdcp fault one.now }
{
    match one {
        Record::BadPdcp { fault: own_fault } => same_pdcp(fault, *own_fault),
        _ => false,
    }
}

// Whether a record shows what another one that was awaited shows.
pub(crate) fn same_shown(other: &Record, one: &Record) -> bool
    ensures { result ≡ same_shown other.now one.now }
{
    match other {
        Record::MacFront => is_front(one),
        Record::MacSdu { lcid, len } => is_sdu(*lcid, *len, one),
        Record::MacPad { octets } => is_pad(*octets, one),
        Record::MacControl { element } => is_control(element, one),
        Record::RlcTm { len } => is_tm(*len, one),
        Record::RlcUm { sn, fi, lens } => is_umd(*sn, *fi, lens, one),
        Record::RlcAm { sn, poll, fi, lens } => is_amd(*sn, *poll, *fi, lens, one),
        Record::RlcSeg {
            sn,
            poll,
            fi,
            last,
            so,
            lens,
        } => is_segment(*sn, *poll, *fi, *last, *so, lens, one),
        Record::RlcStatus { ack, nacks } => is_status(*ack, nacks, one),
        Record::PdcpData { sn, len } => is_data(*sn, *len, one),
        Record::PdcpSrb { sn, len, tag } => is_signalling(*sn, *len, tag, one),
        Record::PdcpReport { fms, bitmap } => is_report(*fms, bitmap.as_slice(), one),
        Record::BadMac { fault } => is_bad_mac(*fault, one),
        Record::BadRlc { fault } => is_bad_rlc(*fault, one),
        Record::BadPdcp { fault } => is_bad_pdcp(*fault, one),
        _ => false,
    }
}
