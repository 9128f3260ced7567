ghost use Rattle.std.specs.Prelude.{◌≡◌, ◌≢◌, ◌⊎◌, ◌≤◌, ◌<◌, ◌+◌, ◌==◌, ◌||◌, [], length, map};
ghost use Rattle.std.specs.Prelude.{false, IfSome};
ghost use Rattle.mac_pdu.specs.Items.{IsControl};
ghost use Rattle.mac_pdu.specs.Writing.{writing, items_of, canonical};
ghost use Rattle.l2_c.specs.Answers.{in_range};
ghost use Rattle.l2_c.specs.Mac.{item_seen, element_fits, control_found, sdu_fits, item_fits};
ghost use Rattle.l2_c.specs.Mac.{Adds, Collects, mac_write_answer};
ghost use Rattle.c_answers.specs.declared.TheConstants.{DONE, ROOM, NO_MEMORY};
ghost use Rattle.l2_c.specs.declared.mac.TheConstants.{SDU, MOST_ITEMS};
ghost use Rattle.l2_bits.specs.declared.limits.TheConstants.{OCTETS_LIMIT};

use crate::mac::{
    ADVANCE, CONTENTION, CRNTI, DRX, HEADROOM, LONG_REPORT, MOST_ITEMS, PlainItem, SDU,
    SHORT_REPORT, TRUNCATED_REPORT, direction_of,
};
use c_answers::{DONE, NO_MEMORY, RANGE, ROOM};
use l2_bits::OCTETS_LIMIT;
use mac_pdu::{Bsr, Control, Direction, MacBuilder, writing_grows};
use std::alloc::Global;

// The control element of a kind and its fields, where it may stand in a block of the direction.
fn control_found(direction: Direction, kind: u32, fields: &[u8; 8]) -> Option<Control>
    ensures found { result ≡ control_found direction kind fields.now }
    ensures fits { IfSome result (IsControl direction) }
{
    let first = fields[0];
    let second = fields[1];
    match (direction, kind) {
        (Direction::Down, CONTENTION) => Some(Control::Contention([
            first, second, fields[2], fields[3], fields[4], fields[5],
        ])),
        (Direction::Down, ADVANCE) if first < 64 => Some(Control::Advance(first)),
        (Direction::Down, DRX) => Some(Control::Drx),
        (Direction::Up, HEADROOM) if first < 64 => Some(Control::Phr(first)),
        (Direction::Up, CRNTI) => Some(Control::Crnti(u16::from_be_bytes([first, second]))),
        (Direction::Up, TRUNCATED_REPORT) if first < 4 && second < 64 => {
            Some(Control::Report(Bsr::Truncated {
                group: first,
                level: second,
            }))
        }
        (Direction::Up, SHORT_REPORT) if first < 4 && second < 64 => {
            Some(Control::Report(Bsr::Short {
                group: first,
                level: second,
            }))
        }
        (Direction::Up, LONG_REPORT)
            if first < 64 && second < 64 && fields[2] < 64 && fields[3] < 64 => {
            Some(Control::Report(Bsr::Long {
                levels: [first, second, fields[2], fields[3]],
            }))
        }
        _ => None,
    }
}

// Adds an SDU.
#[tactic(auto, using(crate::proofs::Blocks::collected))]
fn add_sdu(builder: &mut MacBuilder, item: &PlainItem<'_>) -> u32
    requires sdu { item.now.kind ≡ SDU }
    requires room { length (writing (items_of builder.old)) + 32770 < OCTETS_LIMIT }
    ensures answer { (result ≡ NO_MEMORY) ⊎ (result ≡ in_range (sdu_fits item.now) DONE) }
    ensures added { result ≡ DONE → Adds item.now builder.old builder.new }
{
    writing_grows();
    if item.lcid > 10 || item.octets.is_empty() || item.octets.len() >= 1 << 15 {
        return RANGE;
    }
    match builder.sdu(item.lcid as u8, item.octets) {
        Ok(()) => DONE,
        Err(_) => NO_MEMORY,
    }
}

// Adds a control element.
#[tactic(auto, using(crate::proofs::Blocks::collected))]
fn add_control(builder: &mut MacBuilder, direction: Direction, item: &PlainItem<'_>) -> u32
    requires direction { builder.old.direction ≡ direction }
    requires order { builder.old.sdus ≡ [] }
    requires room { length (writing (items_of builder.old)) + 32770 < OCTETS_LIMIT }
    ensures answer { (result ≡ NO_MEMORY)
        ⊎ (result ≡ in_range (element_fits direction item.now.kind item.now.fields) DONE) }
    ensures added { result ≡ DONE → Adds item.now builder.old builder.new }
    ensures order { result ≡ DONE → builder.new.sdus ≡ [] }
{
    writing_grows();
    let Some(control) = control_found(direction, item.kind, &item.fields) else {
        return RANGE;
    };
    match builder.control(&control) {
        Ok(()) => DONE,
        Err(_) => NO_MEMORY,
    }
}

// Adds an item, which is no control element where an SDU stands before it.
fn add(builder: &mut MacBuilder, direction: Direction, behind: bool, item: &PlainItem<'_>) -> u32
    requires direction { builder.old.direction ≡ direction }
    requires order { behind ≡ false → builder.old.sdus ≡ [] }
    requires room { length (writing (items_of builder.old)) + 32770 < OCTETS_LIMIT }
    ensures answer { (result ≡ NO_MEMORY)
        ⊎ (result ≡ in_range (item_fits direction behind item.now) DONE) }
    ensures added { result ≡ DONE → Adds item.now builder.old builder.new }
    ensures order { result ≡ DONE → (behind || (item.now.kind == SDU)) ≡ false
        → builder.new.sdus ≡ [] }
{
    if item.kind == SDU {
        add_sdu(builder, item)
    } else if behind {
        RANGE
    } else {
        add_control(builder, direction, item)
    }
}

// A builder of the items, or what is answered where one doesn't fit or memory runs out.
fn collect(alloc: Global, direction: Direction, items: &[PlainItem<'_>]) -> Result<MacBuilder, u32>
    requires few { length items.now ≤ MOST_ITEMS }
    ensures { Collects direction items.now result }
{
    let mut builder = MacBuilder::new(alloc, direction);
    let mut rest = items;
    let mut behind = false;
    while let [first, others @ ..] = rest {
        let answer = add(&mut builder, direction, behind, first);
        if answer != DONE {
            return Err(answer);
        }
        behind = behind || first.kind == SDU;
        rest = others;
    }
    Ok(builder)
}

/// Writes the canonical block of these items over all of `block` (TS 36.321 6.1.2): control
/// elements before SDUs, and padding as it is needed. `least` tells the octets of the smallest
/// block that holds them.
///
/// `direction` is 0 on the uplink and 1 on the downlink. There are at most 4096 items, whose kinds
/// are SDUs, of 1 to 32,767 octets on a channel up to 10, and control elements of the direction. A
/// block has 1 to 2^28 - 1 octets. `ROOM` says that the block has fewer than `least` octets.
#[unsafe(no_mangle)]
pub extern "C" fn zubhanit_mac_write(
    alloc: Global,
    direction: u32,
    items: &[PlainItem<'_>],
    block: &mut [u8],
    least: &mut usize,
) -> u32
    ensures answer { (result ≡ NO_MEMORY)
        ⊎ (result ≡ mac_write_answer direction items.now (length block.old)) }
    ensures written { result ≡ DONE
        → block.new ≡ canonical (map item_seen items.now) (length block.old) }
    ensures least { (result ≡ DONE) ⊎ (result ≡ ROOM)
        → least.new ≡ length (writing (map item_seen items.now)) }
    ensures kept { result ≢ DONE → block.new ≡ block.old }
{
    *least = 0;
    let Some(direction) = direction_of(direction) else {
        return RANGE;
    };
    if items.len() > MOST_ITEMS || block.is_empty() || block.len() >= OCTETS_LIMIT {
        return RANGE;
    }
    let builder = match collect(alloc, direction, items) {
        Ok(builder) => builder,
        Err(answer) => return answer,
    };
    let size = block.len() as u32;
    *least = builder.least() as usize;
    if builder.least() > size {
        return ROOM;
    }
    match builder.build(size) {
        Ok(octets) => {
            block.copy_from_slice(octets.as_slice());
            DONE
        }
        Err(_) => NO_MEMORY,
    }
}
