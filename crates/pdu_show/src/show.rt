ghost use Rattle.std.specs.Prelude.{◌≡◌, ◌<◌, ◌^◌, ◌++◌, IfOk, OnOk, length};
ghost use Rattle.mac_pdu.specs.Views.{item_in, IsShort};
ghost use Rattle.pdu_show.specs.Show.{item_shown, items_shown, block_shown};
ghost use Rattle.l2_bits.specs.declared.limits.TheConstants.{OCTETS_LIMIT};

use crate::kinds::Kinds;
use crate::rlc::show_rlc;
use crate::spares::Spares;
use air_text::Record;
use l2_bits::{Items, NoMemory};
use mac_pdu::{Direction, Item, MacReader};
use std::alloc::Global;

/// Records in their order.
pub type Records = Items<Record>;

#[tactic(auto, unfolding(crate::specs::Show::item_shown))]
fn show_item(
    spares: &mut Spares,
    records: &mut Records,
    kinds: &Kinds,
    item: Item<'_>,
) -> Result<(), NoMemory>
    requires { IsShort (item_in item) }
    ensures { OnOk result (records.new ≡ records.old ++ item_shown kinds.now (item_in item.entry)) }
{
    match item {
        Item::Front => records.push(Record::MacFront),
        Item::Element(element) => records.push(Record::MacControl { element }),
        Item::Sdu { lcid, octets } => {
            records.push(Record::MacSdu {
                lcid,
                len: octets.len() as u32,
            })?;
            show_rlc(spares, records, kinds.of(lcid), octets)
        }
        Item::Padding(octets) => records.push(Record::MacPad { octets }),
    }
}

/// Shows a block of fewer than 2^28 octets behind other records.
///
/// Of each SDU of a known bearer the RLC PDU is shown, and the PDCP PDUs that are whole in it. What
/// can't be read is shown as such, in place of the records that it would have had.
pub fn show_onto(
    alloc: Global,
    records: &mut Records,
    direction: Direction,
    kinds: &Kinds,
    block: &[u8],
) -> Result<(), NoMemory>
    requires { length block.now < OCTETS_LIMIT }
    ensures { OnOk result (records.new ≡ records.old ++ block_shown direction kinds.now block.now) }
{
    show_with(&mut Spares::new(alloc), records, direction, kinds, block)
}

/// Shows a block as `show_onto` does, with the memory that is spare.
pub(crate) fn show_with(
    spares: &mut Spares,
    records: &mut Records,
    direction: Direction,
    kinds: &Kinds,
    block: &[u8],
) -> Result<(), NoMemory>
    requires { length block.now < OCTETS_LIMIT }
    ensures { OnOk result (records.new ≡ records.old ++ block_shown direction kinds.now block.now) }
{
    match MacReader::parse(direction, block) {
        Ok(mut reader) => {
            while let Some(item) = reader.next() {
                show_item(spares, records, kinds, item)?;
            }
            Ok(())
        }
        Err(fault) => records.push(Record::BadMac { fault }),
    }
}

/// The records that show a block of fewer than 2^28 octets.
pub fn show_block(
    alloc: Global,
    direction: Direction,
    kinds: &Kinds,
    block: &[u8],
) -> Result<Records, NoMemory>
    requires { length block.now < OCTETS_LIMIT }
    ensures { IfOk result (λ records. records ≡ block_shown direction kinds.now block.now) }
{
    let mut records = Records::new(alloc);
    show_onto(alloc, &mut records, direction, kinds, block)?;
    Ok(records)
}
