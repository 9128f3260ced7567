ghost use Rattle.std.specs.Prelude.{◌≡◌, ◌<◌, ◌^◌, IfOk, length};
ghost use Rattle.pdcp_pdu.specs.Pdus.{IsUserBits};
ghost use Rattle.pdcp_pdu.specs.Reading.{user_at, srb_at};
ghost use Rattle.pdu_show.specs.Kinds.{IsPdcp};
ghost use Rattle.pdu_show.specs.Show.{user_shown, srb_shown, pdcp_shown};
ghost use Rattle.l2_bits.specs.declared.limits.TheConstants.{OCTETS_LIMIT};

use crate::spares::Spares;
use air_text::Record;
use l2_bits::NoMemory;
use pdcp_pdu::{PdcpKind, User, read_srb, read_user};

fn user(spares: &mut Spares, bits: u32, octets: &[u8]) -> Result<Record, NoMemory>
    requires bits { IsUserBits bits }
    requires short { length octets.now < OCTETS_LIMIT }
    ensures { IfOk result (λ one. one ≡ user_shown (user_at bits octets.now)) }
{
    match read_user(bits, octets) {
        Ok(User::Sdu { sn, octets }) => Ok(Record::PdcpData {
            sn,
            len: octets.len() as u32,
        }),
        Ok(User::Report { fms, bitmap }) => Ok(Record::PdcpReport {
            fms,
            bitmap: spares.bitmap(bitmap)?,
        }),
        Err(fault) => Ok(Record::BadPdcp { fault }),
    }
}

fn signalling(octets: &[u8]) -> Record
    requires { length octets.now < OCTETS_LIMIT }
    ensures { result ≡ srb_shown (srb_at octets.now) }
{
    match read_srb(octets) {
        Ok(srb) => Record::PdcpSrb {
            sn: srb.sn,
            len: srb.octets.len() as u32,
            tag: srb.tag,
        },
        Err(fault) => Record::BadPdcp { fault },
    }
}

/// Shows a PDCP PDU of fewer than 2^28 octets.
pub fn show_pdcp(spares: &mut Spares, kind: PdcpKind, octets: &[u8]) -> Result<Record, NoMemory>
    requires kind { IsPdcp kind }
    requires short { length octets.now < OCTETS_LIMIT }
    ensures { IfOk result (λ one. one ≡ pdcp_shown kind octets.now) }
{
    match kind {
        PdcpKind::Srb => Ok(signalling(octets)),
        PdcpKind::Um { bits } => user(spares, bits, octets),
        PdcpKind::Am { bits } => user(spares, bits, octets),
    }
}
