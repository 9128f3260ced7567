ghost use Rattle.std.specs.Prelude.{◌≡◌, ◌≤◌};
ghost use Rattle.mac_pdu.specs.Views.{item_in};
ghost use Rattle.l2_c.specs.declared.mac.TheConstants.{CONTENTION};
ghost use Rattle.l2_c.specs.Mac.{way_of, control_seen, item_seen, why_seen};

use mac_pdu::{Bsr, Control, Direction, Item, MacWhy};

/// Where what was to be read is refused, and why: its octet, counted from 0, and the number of the
/// reason.
#[repr(C)]
#[derive(Clone, Copy, Debug, PartialEq, Eq)]
pub struct PlainRefusal {
    pub at: u32,
    pub why: u32,
}

/// The most items of a block that is written.
pub const MOST_ITEMS: usize = 4096;

/// Padding in front.
pub const FRONT: u32 = 0;

/// An SDU.
pub const SDU: u32 = 1;

/// Padding at the end.
pub const PADDING: u32 = 2;

/// Control elements, by the order of their kinds.
pub const CONTENTION: u32 = 16;

pub const ADVANCE: u32 = 17;

pub const DRX: u32 = 18;

pub const HEADROOM: u32 = 19;

pub const CRNTI: u32 = 20;

pub const TRUNCATED_REPORT: u32 = 21;

pub const SHORT_REPORT: u32 = 22;

pub const LONG_REPORT: u32 = 23;

/// An item of a block, in the order of subheaders.
#[repr(C)]
#[derive(Clone, Copy)]
pub struct PlainItem<'a> {
    /// 0 padding in front, 1 an SDU, 2 padding at the end, 16 to 23 control elements.
    pub kind: u32,
    /// The logical channel of an SDU, 0 to 10.
    pub lcid: u32,
    /// The octets of an SDU, which lie in the block.
    pub octets: &'a [u8],
    /// How many octets of padding there are behind its subheader, at the end.
    pub padding: u32,
    /// The fields of a control element.
    pub fields: [u8; 8],
}

/// The direction of a number: 0 is the uplink, 1 the downlink.
pub fn direction_of(number: u32) -> Option<Direction>
    ensures { result ≡ way_of number }
{
    match number {
        0 => Some(Direction::Up),
        1 => Some(Direction::Down),
        _ => None,
    }
}

/// The number of a reason.
pub fn why_number(why: MacWhy) -> u32
    ensures { why_seen result ≡ why }
{
    match why {
        MacWhy::Short => 1,
        MacWhy::ReservedLcid => 2,
        MacWhy::LengthPast => 3,
        MacWhy::ControlAfterSdu => 4,
        MacWhy::PaddingPlace => 5,
    }
}

// The kind and the fields of a control element.
fn fields_of(control: &Control) -> (u32, [u8; 8])
    ensures kind { CONTENTION ≤ result.0 }
    ensures control { control_seen result.0 result.1 ≡ control.now }
{
    match control {
        Control::Contention(id) => (CONTENTION, [id[0], id[1], id[2], id[3], id[4], id[5], 0, 0]),
        Control::Advance(value) => (ADVANCE, [*value, 0, 0, 0, 0, 0, 0, 0]),
        Control::Drx => (DRX, [0; 8]),
        Control::Phr(level) => (HEADROOM, [*level, 0, 0, 0, 0, 0, 0, 0]),
        Control::Crnti(value) => {
            let octets = value.to_be_bytes();
            (CRNTI, [octets[0], octets[1], 0, 0, 0, 0, 0, 0])
        }
        Control::Report(Bsr::Truncated { group, level }) => {
            (TRUNCATED_REPORT, [*group, *level, 0, 0, 0, 0, 0, 0])
        }
        Control::Report(Bsr::Short { group, level }) => {
            (SHORT_REPORT, [*group, *level, 0, 0, 0, 0, 0, 0])
        }
        Control::Report(Bsr::Long { levels }) => (
            LONG_REPORT,
            [levels[0], levels[1], levels[2], levels[3], 0, 0, 0, 0],
        ),
    }
}

/// An item as C sees it.
pub fn item_shown<'a>(item: &Item<'a>) -> PlainItem<'a>
    ensures { item_seen result ≡ item_in item.now }
{
    let none = PlainItem {
        kind: FRONT,
        lcid: 0,
        octets: &[],
        padding: 0,
        fields: [0; 8],
    };
    match item {
        Item::Front => none,
        Item::Element(control) => {
            let (kind, fields) = fields_of(control);
            PlainItem {
                kind,
                fields,
                ..none
            }
        }
        Item::Sdu { lcid, octets } => PlainItem {
            kind: SDU,
            lcid: u32::from(*lcid),
            octets,
            ..none
        },
        Item::Padding(n) => PlainItem {
            kind: PADDING,
            padding: *n,
            ..none
        },
    }
}
