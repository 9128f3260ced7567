// SDUs of RLC: each is the canonical writing of what is read of it (TS 36.323 6.2).
ghost use Rattle.std.specs.Prelude.{◌≡◌, ◌≢◌, ◌<◌, ◌^◌, ◌↔◌, IsTrue, IfOk};
ghost use Rattle.pdcp_pdu.specs.Grammar.{IsBitmap, user_spelling};
ghost use Rattle.pdcp_pdu.specs.Pdus.{IsUserBits, Report};
ghost use Rattle.pdu_show.specs.Kinds.{IsPdcp};
ghost use Rattle.journal_form.specs.Tests.{is_bitmap, is_user, is_signalling, is_pdcp};

use l2_bits::{Bytes, NoMemory};
use pdcp_pdu::{
    PdcpKind, User, read_srb, read_user, write_long_report, write_report, write_srb, write_user,
};
use std::alloc::Global;

// Whether a bitmap is empty or ends with an octet that isn't 0.
fn is_bitmap(bitmap: &[u8]) -> bool
    ensures test { result ≡ is_bitmap bitmap.now }
    ensures means { IsTrue result ↔ IsBitmap bitmap.now }
{
    bitmap.is_empty() || bitmap[bitmap.len() - 1] != 0
}

// A status report with numbers of 12 or 15 bits.
fn report(alloc: Global, bits: u32, fms: u32, bitmap: &[u8]) -> Result<Bytes, NoMemory>
    requires bits { IsUserBits bits }
    requires long { bits ≢ 7 }
    requires number { fms < 2 ^ bits }
    requires bitmap { IsBitmap bitmap.now }
    ensures { IfOk result (λ pdu. pdu ≡ user_spelling bits (Report fms bitmap.now)) }
{
    if bits == 12 {
        write_report(alloc, fms, bitmap)
    } else {
        write_long_report(alloc, fms, bitmap)
    }
}

// Whether octets are a PDU of a data bearer; where `reports` it may be a status report.
fn is_user(alloc: Global, reports: bool, bits: u32, octets: &[u8]) -> Result<bool, NoMemory>
    requires { IsUserBits bits }
    ensures { IfOk result (λ yes. yes ≡ is_user reports bits octets.now) }
{
    match read_user(bits, octets) {
        Ok(User::Sdu { sn, octets: text }) => {
            let again = write_user(alloc, bits, sn, text)?;
            Ok(again.as_slice() == octets)
        }
        Ok(User::Report { fms, bitmap }) => {
            if !reports || !is_bitmap(bitmap) {
                return Ok(false);
            }
            let again = report(alloc, bits, fms, bitmap)?;
            Ok(again.as_slice() == octets)
        }
        Err(_) => Ok(false),
    }
}

// Whether octets are a PDU of a signalling bearer.
fn is_signalling(alloc: Global, octets: &[u8]) -> Result<bool, NoMemory>
    ensures { IfOk result (λ yes. yes ≡ is_signalling octets.now) }
{
    match read_srb(octets) {
        Ok(srb) => {
            let again = write_srb(alloc, srb.sn, srb.octets, &srb.tag)?;
            Ok(again.as_slice() == octets)
        }
        Err(_) => Ok(false),
    }
}

// Whether an SDU of RLC is a PDU of PDCP of its bearer's kind.
pub(crate) fn is_pdcp(alloc: Global, kind: PdcpKind, octets: &[u8]) -> Result<bool, NoMemory>
    requires { IsPdcp kind }
    ensures { IfOk result (λ yes. yes ≡ is_pdcp kind octets.now) }
{
    match kind {
        PdcpKind::Srb => is_signalling(alloc, octets),
        PdcpKind::Um { bits } => is_user(alloc, false, bits, octets),
        PdcpKind::Am { bits } => is_user(alloc, true, bits, octets),
    }
}
