ghost use Rattle.std.specs.Prelude.{◌≡◌, ◌≤◌, ◌⊎◌, Some, length, take};
ghost use Rattle.rlc_pdu.specs.Grammar.{IsUmdPdu, IsAmPdu};
ghost use Rattle.rlc_pdu.specs.Refusals.{umd_refusal, am_refusal};
ghost use Rattle.l2_c.specs.Rlc.{umd_seen, am_seen, refusal_seen, umd_read_answer, am_read_answer};
ghost use Rattle.c_answers.specs.declared.TheConstants.{DONE, REFUSED};

use crate::mac::PlainRefusal;
use crate::rlc::{
    PlainElement, PlainNack, PlainRlc, STATUS, UMD, amd_shown, fill_elements, fill_nacks,
    refusal_shown,
};
use c_answers::{DONE, RANGE, REFUSED, ROOM};
use l2_bits::OCTETS_LIMIT;
use rlc_pdu::{AmPdu, read_am, read_umd};

/// Reads a UMD PDU of fewer than 2^28 octets (TS 36.322 6.2.1.3), whose number has 5 or 10 bits:
/// its header, and into `elements` what its field carries, of which `count` tells how many there
/// are. They lie in the PDU. It takes no memory.
///
/// `REFUSED` sets `refusal`, whose reasons are those of [`zubhanit_am_read`].
#[unsafe(no_mangle)]
pub extern "C" fn zubhanit_umd_read<'a>(
    bits: u32,
    pdu: &'a [u8],
    header: &mut PlainRlc,
    elements: &mut [PlainElement<'a>],
    count: &mut usize,
    refusal: &mut PlainRefusal,
) -> u32
    ensures answer { result ≡ umd_read_answer bits pdu.now (length elements.old) }
    ensures pdu { result ≡ DONE
        → IsUmdPdu bits (umd_seen header.new (take count.new elements.new)) pdu.now }
    ensures within { count.new ≤ length elements.new }
    ensures refused { result ≡ REFUSED → umd_refusal bits pdu.now
        ≡ Some (refusal_seen refusal.new) }
{
    *count = 0;
    if (bits != 5 && bits != 10) || pdu.len() >= OCTETS_LIMIT {
        return RANGE;
    }
    let umd = match read_umd(bits, pdu) {
        Ok(umd) => umd,
        Err(refused) => {
            *refusal = refusal_shown(&refused);
            return REFUSED;
        }
    };
    *header = PlainRlc {
        kind: UMD,
        sn: umd.sn,
        fi: umd.fi,
        poll: 0,
        last: 0,
        so: 0,
    };
    let Some(found) = fill_elements(umd.elements, elements) else {
        return ROOM;
    };
    *count = found;
    DONE
}

/// Reads a PDU of an acknowledged bearer, of fewer than 2^28 octets (TS 36.322 6.2.1.4 to 6.2.1.6):
/// its header, and by its kind the elements of a data PDU, which lie in it, or the entries of a
/// STATUS PDU. `count` tells how many there are. It takes no memory.
///
/// `REFUSED` sets `refusal`: `why` is 1 where the PDU ends within its header, 2 for a length
/// indicator of 0, 3 for one that leaves no octet to the element behind it, 4 for a data PDU
/// without data, 5 for a reserved type of control PDU, 6 for an end below its start, 7 for octets
/// behind a STATUS.
#[unsafe(no_mangle)]
pub extern "C" fn zubhanit_am_read<'a>(
    pdu: &'a [u8],
    header: &mut PlainRlc,
    elements: &mut [PlainElement<'a>],
    nacks: &mut [PlainNack],
    count: &mut usize,
    refusal: &mut PlainRefusal,
) -> u32
    ensures answer { result ≡ am_read_answer pdu.now (length elements.old) (length nacks.old) }
    ensures pdu { result ≡ DONE → IsAmPdu
        (am_seen header.new (take count.new elements.new) (take count.new nacks.new)) pdu.now }
    ensures within { (count.new ≤ length elements.new) ⊎ (count.new ≤ length nacks.new) }
    ensures refused { result ≡ REFUSED → am_refusal pdu.now ≡ Some (refusal_seen refusal.new) }
{
    *count = 0;
    if pdu.len() >= OCTETS_LIMIT {
        return RANGE;
    }
    let found = match read_am(pdu) {
        Ok(AmPdu::Payload(amd)) => {
            *header = amd_shown(amd.sn, amd.poll, amd.fi, amd.segment);
            fill_elements(amd.elements, elements)
        }
        Ok(AmPdu::Status(status)) => {
            *header = PlainRlc {
                kind: STATUS,
                sn: status.ack,
                fi: 0,
                poll: 0,
                last: 0,
                so: 0,
            };
            fill_nacks(status.nacks, nacks)
        }
        Err(refused) => {
            *refusal = refusal_shown(&refused);
            return REFUSED;
        }
    };
    let Some(found) = found else {
        return ROOM;
    };
    *count = found;
    DONE
}
