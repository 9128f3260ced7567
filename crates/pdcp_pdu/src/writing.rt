ghost use Rattle.std.specs.Prelude.{◌≡◌, ◌≢◌, ◌<◌, ◌^◌, ◌++◌, [], IfOk};
ghost use Rattle.pdcp_pdu.specs.Pdus.{IsUserBits};
ghost use Rattle.pdcp_pdu.specs.Pdus.{Sdu, Report};
ghost use Rattle.pdcp_pdu.specs.Grammar.{IsBitmap, user_spelling};

use l2_bits::{Bytes, NoMemory};
use std::alloc::Global;

// A PDU of a header and what follows it, in memory of just that size.
fn behind(alloc: Global, header: &[u8], octets: &[u8]) -> Result<Bytes, NoMemory>
    ensures { IfOk result (λ pdu. pdu ≡ header.now ++ octets.now) }
{
    let mut pdu = Bytes::with_capacity(alloc, header.len() + octets.len())?;
    pdu.append(header)?;
    pdu.append(octets)?;
    Ok(pdu)
}

/// Writes a data PDU with a number of 7, 12 or 15 bits and a data part of 1 octet or more (TS
/// 36.323 6.2.3, 6.2.4). The data part may then be ciphered where it stands.
pub fn write_user(alloc: Global, bits: u32, sn: u32, octets: &[u8]) -> Result<Bytes, NoMemory>
    requires bits { IsUserBits bits }
    requires number { sn < 2 ^ bits }
    requires some { octets.now ≢ [] }
    ensures { IfOk result (λ pdu. pdu ≡ user_spelling bits (Sdu sn octets.now)) }
{
    if bits == 7 {
        return behind(alloc, &[0x80 | (sn & 0xff) as u8], octets);
    }
    behind(alloc, &[0x80 | (sn >> 8) as u8, (sn & 0xff) as u8], octets)
}

/// Writes a status report with an FMS of 12 bits (TS 36.323 6.2.6). The last octet of its bitmap
/// isn't 0.
pub fn write_report(alloc: Global, fms: u32, bitmap: &[u8]) -> Result<Bytes, NoMemory>
    requires number { fms < 2 ^ 12 }
    requires bitmap { IsBitmap bitmap.now }
    ensures { IfOk result (λ pdu. pdu ≡ user_spelling 12 (Report fms bitmap.now)) }
{
    behind(alloc, &[(fms >> 8) as u8, (fms & 0xff) as u8], bitmap)
}

/// Writes a status report with an FMS of 15 bits. The last octet of its bitmap isn't 0.
pub fn write_long_report(alloc: Global, fms: u32, bitmap: &[u8]) -> Result<Bytes, NoMemory>
    requires number { fms < 2 ^ 15 }
    requires bitmap { IsBitmap bitmap.now }
    ensures { IfOk result (λ pdu. pdu ≡ user_spelling 15 (Report fms bitmap.now)) }
{
    behind(alloc, &[0, (fms >> 8) as u8, (fms & 0xff) as u8], bitmap)
}
