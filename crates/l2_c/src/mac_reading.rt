ghost use Rattle.std.specs.Prelude.{◌≡◌, ◌≤◌, length, map, take};
ghost use Rattle.mac_pdu.specs.Grammar.{MacPdu};
ghost use Rattle.mac_pdu.specs.Refusals.{MacRefused};
ghost use Rattle.l2_c.specs.Mac.{way, item_seen, refusal_seen, mac_read_answer};
ghost use Rattle.c_answers.specs.declared.TheConstants.{DONE, REFUSED};

use crate::mac::{PlainItem, PlainRefusal, direction_of, item_shown, why_number};
use c_answers::{DONE, RANGE, REFUSED, ROOM};
use l2_bits::OCTETS_LIMIT;
use mac_pdu::MacReader;

/// Reads a block of fewer than 2^28 octets (TS 36.321 6.1.2) into `items`, of which `count` tells
/// how many there are. The octets of SDUs lie in the block. It takes no memory.
///
/// `direction` is 0 on the uplink and 1 on the downlink. `REFUSED` sets `refusal`: `why` is 1 for a
/// block that ends before a subheader does, 2 for a reserved LCID, 3 for a payload past the block,
/// 4 for a control element behind an SDU, 5 for padding out of place.
#[unsafe(no_mangle)]
pub extern "C" fn zubhanit_mac_read<'a>(
    direction: u32,
    block: &'a [u8],
    items: &mut [PlainItem<'a>],
    count: &mut usize,
    refusal: &mut PlainRefusal,
) -> u32
    ensures answer { result ≡ mac_read_answer direction block.now (length items.old) }
    ensures items { result ≡ DONE
        → MacPdu (way direction) (map item_seen (take count.new items.new)) block.now }
    ensures within { count.new ≤ length items.new }
    ensures refused { result ≡ REFUSED
        → MacRefused (way direction) block.now (refusal_seen refusal.new) }
{
    *count = 0;
    let Some(direction) = direction_of(direction) else {
        return RANGE;
    };
    if block.len() >= OCTETS_LIMIT {
        return RANGE;
    }
    let mut reader = match MacReader::parse(direction, block) {
        Ok(reader) => reader,
        Err(refused) => {
            *refusal = PlainRefusal {
                at: refused.at,
                why: why_number(refused.why),
            };
            return REFUSED;
        }
    };
    let mut at = 0;
    while let Some(item) = reader.next() {
        if at == items.len() {
            return ROOM;
        }
        items[at] = item_shown(&item);
        at += 1;
    }
    *count = at;
    DONE
}
