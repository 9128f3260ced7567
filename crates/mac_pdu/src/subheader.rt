ghost use Rattle.std.specs.Prelude.{◌≡◌, ℕ, ◌+◌, ◌<◌, ◌≤◌, ◌^◌, drop, length, IfSome};
ghost use Rattle.mac_pdu.specs.Subheaders.{kind_of, subheader_at, element_size, control_of};
ghost use Rattle.mac_pdu.specs.Subheaders.{payload_len, fault_of, after};

use crate::fault::MacWhy;
use crate::item::{Bsr, Control, Direction};

/// Which control element (TS 36.321 6.1.3).
#[derive(Clone, Copy)]
pub enum Element {
    Contention,
    Advance,
    Drx,
    Phr,
    Crnti,
    Truncated,
    Short,
    Long,
}

/// What an LCID stands for in a direction.
#[derive(Clone, Copy)]
pub enum Kind {
    Sdu,
    Control(Element),
    Padding,
    Reserved,
}

/// What the octets of a subheader say.
#[derive(Clone, Copy)]
pub struct Subheader {
    pub lcid: u8,
    pub kind: Kind,
    /// Another subheader follows.
    pub more: bool,
    /// The length of the payload, where the subheader says it.
    pub length: Option<usize>,
    /// How many octets the subheader has.
    pub size: usize,
}

/// Which subheaders came before.
#[derive(Clone, Copy)]
pub enum Stage {
    /// None.
    Start,
    /// One, that of padding.
    Padded,
    /// Others, but none of an SDU.
    Controls,
    /// That of an SDU, among others.
    Sdus,
}

/// What an LCID stands for.
#[tactic(auto, unfolding(crate::specs::Subheaders::kind_of))]
fn kind_at(direction: Direction, lcid: u8) -> Kind
    ensures { result ≡ kind_of direction lcid }
{
    match (direction, lcid) {
        (_, 0..=10) => Kind::Sdu,
        (_, 31) => Kind::Padding,
        (Direction::Down, 28) => Kind::Control(Element::Contention),
        (Direction::Down, 29) => Kind::Control(Element::Advance),
        (Direction::Down, 30) => Kind::Control(Element::Drx),
        (Direction::Up, 26) => Kind::Control(Element::Phr),
        (Direction::Up, 27) => Kind::Control(Element::Crnti),
        (Direction::Up, 28) => Kind::Control(Element::Truncated),
        (Direction::Up, 29) => Kind::Control(Element::Short),
        (Direction::Up, 30) => Kind::Control(Element::Long),
        _ => Kind::Reserved,
    }
}

/// The subheader at the front, where it is whole.
#[tactic(auto, unfolding(crate::specs::Subheaders::subheader_at))]
pub fn front(direction: Direction, octets: &[u8]) -> Option<Subheader>
    ensures read { result ≡ subheader_at direction octets.now }
    ensures whole { IfSome result (λ s. (0 < s.size) × (s.size ≤ length octets.now)) }
{
    let [first, rest @ ..] = octets else {
        return None;
    };
    let lcid = first & 0x1f;
    let more = (first >> 5) & 1 == 1;
    let kind = kind_at(direction, lcid);
    let short = Subheader {
        lcid,
        kind,
        more,
        length: None,
        size: 1,
    };
    if !matches!(kind, Kind::Sdu) || !more {
        return Some(short);
    }
    match rest {
        [] => None,
        [length, ..] if *length < 128 => Some(Subheader {
            length: Some(*length as usize),
            size: 2,
            ..short
        }),
        [_] => None,
        [high, low, ..] => Some(Subheader {
            length: Some((*high as usize - 128) * 256 + *low as usize),
            size: 3,
            ..short
        }),
    }
}

/// How many octets a control element has.
fn size(element: Element) -> usize
    ensures { result ≡ element_size element }
{
    match element {
        Element::Drx => 0,
        Element::Advance | Element::Phr | Element::Truncated | Element::Short => 1,
        Element::Crnti => 2,
        Element::Long => 3,
        Element::Contention => 6,
    }
}

/// The control element that its octets write.
#[tactic(auto, unfolding(crate::specs::Subheaders::control_of))]
pub fn control(element: Element, octets: &[u8]) -> Control
    requires { length octets.now ≡ element_size element }
    ensures { result ≡ control_of element octets.now }
{
    match element {
        Element::Contention => Control::Contention([
            octets[0], octets[1], octets[2], octets[3], octets[4], octets[5],
        ]),
        Element::Advance => Control::Advance(octets[0] & 0x3f),
        Element::Drx => Control::Drx,
        Element::Phr => Control::Phr(octets[0] & 0x3f),
        Element::Crnti => Control::Crnti(u16::from_be_bytes([octets[0], octets[1]])),
        Element::Truncated => Control::Report(Bsr::Truncated {
            group: octets[0] >> 6,
            level: octets[0] & 0x3f,
        }),
        Element::Short => Control::Report(Bsr::Short {
            group: octets[0] >> 6,
            level: octets[0] & 0x3f,
        }),
        Element::Long => Control::Report(Bsr::Long {
            levels: [
                octets[0] >> 2,
                (octets[0] & 3) * 16 + (octets[1] >> 4),
                (octets[1] & 15) * 4 + (octets[2] >> 6),
                octets[2] & 0x3f,
            ],
        }),
    }
}

/// How many of the octets left are the payload of a subheader.
#[tactic(auto, unfolding(crate::specs::Subheaders::payload_len))]
pub fn payload_size(subheader: &Subheader, left: usize) -> usize
    ensures { result ≡ payload_len subheader.now left }
{
    match subheader.kind {
        Kind::Sdu => subheader.length.unwrap_or(left),
        Kind::Control(element) => size(element),
        Kind::Padding if subheader.more => 0,
        Kind::Padding => left,
        Kind::Reserved => 0,
    }
}

/// Why a subheader can't stand there.
#[tactic(auto, unfolding(crate::specs::Subheaders::fault_of))]
pub fn fault(stage: Stage, kind: Kind, more: bool) -> Option<MacWhy>
    ensures { result ≡ fault_of stage kind more }
{
    match (kind, stage) {
        (Kind::Reserved, _) => Some(MacWhy::ReservedLcid),
        (Kind::Padding, Stage::Controls | Stage::Sdus) if more => Some(MacWhy::PaddingPlace),
        (Kind::Control(_), Stage::Sdus) => Some(MacWhy::ControlAfterSdu),
        _ => None,
    }
}

/// What came before the subheader that follows one.
pub fn next_stage(stage: Stage, kind: Kind) -> Stage
    ensures { result ≡ after stage kind }
{
    match (kind, stage) {
        (Kind::Sdu, _) | (_, Stage::Sdus) => Stage::Sdus,
        (Kind::Padding, Stage::Start) => Stage::Padded,
        _ => Stage::Controls,
    }
}
