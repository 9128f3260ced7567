// Words of enums. Those that come in most TTIs are added with the space before them, as literals.
ghost use Rattle.std.specs.Prelude.{◌≡◌, ◌≤◌, ◌<◌, ◌+◌, ◌++◌, ◌∷◌, length};
ghost use Rattle.air_record.specs.Text.{side_text, kind_text, clock_text, cipher_text, how_text};
ghost use Rattle.air_record.specs.Text.{waits_text, direction_text, arrived_text, place_text};
ghost use Rattle.air_record.specs.Text.{state_text, fate_text, outcome_text, heard_text};
ghost use Rattle.air_record.specs.Text.{fresh_text, lost_text, bit_text, framing_text, mac_number};
ghost use Rattle.air_record.specs.Text.{rlc_number, pdcp_number};

use crate::line::{Fate, Outcome};
use crate::record::{Arrived, NoPlace, State};
use crate::short_text::{PIECE, ROOM, ShortText};
use eps_sec::Cipher;
use l2_types::{Clock, How, Kind, Lost, Side, Waits};
use mac_pdu::{Direction, MacWhy};
use pdcp_pdu::PdcpWhy;
use rlc_pdu::RlcWhy;

#[inline(always)]
pub fn add_side(short: &mut ShortText, one: Side)
    requires { length short.old + PIECE ≤ ROOM }
    ensures text { short.new ≡ short.old ++ 32 ∷ side_text one }
    ensures room { length short.new ≤ length short.old + PIECE }
{
    match one {
        Side::Ue => short.add(b" ue"),
        Side::Nb => short.add(b" nb"),
    }
}

pub fn kind_word(one: Kind) -> &'static str
    ensures word { result.now ≡ kind_text one }
    ensures short { length result.now < PIECE }
{
    match one {
        Kind::Tm => "tm",
        Kind::Srb => "srb",
        Kind::Um => "um",
        Kind::Am => "am",
    }
}

#[inline(always)]
pub fn add_clock(short: &mut ShortText, one: Clock)
    requires { length short.old + PIECE ≤ ROOM }
    ensures text { short.new ≡ short.old ++ 32 ∷ clock_text one }
    ensures room { length short.new ≤ length short.old + PIECE }
{
    match one {
        Clock::Poll => short.add(b" poll"),
        Clock::Reorder => short.add(b" reorder"),
        Clock::Prohibit => short.add(b" prohibit"),
    }
}

pub fn cipher_word(one: Cipher) -> &'static str
    ensures word { result.now ≡ cipher_text one }
    ensures short { length result.now < PIECE }
{
    match one {
        Cipher::Eea0 => "0",
        Cipher::Eea2 => "2",
    }
}

#[inline(always)]
pub fn add_how(short: &mut ShortText, one: How)
    requires { length short.old + PIECE ≤ ROOM }
    ensures text { short.new ≡ short.old ++ 32 ∷ how_text one }
    ensures room { length short.new ≤ length short.old + PIECE }
{
    match one {
        How::Tm => short.add(b" tm"),
        How::New => short.add(b" new"),
        How::Re => short.add(b" re"),
        How::Status => short.add(b" status"),
    }
}

pub fn waits_word(one: Waits) -> &'static str
    ensures word { result.now ≡ waits_text one }
    ensures short { length result.now < PIECE }
{
    match one {
        Waits::Stopped => "stopped",
        Waits::Shut => "shut",
        Waits::Held => "held",
        Waits::Small => "small",
    }
}

#[inline(always)]
pub fn add_direction(short: &mut ShortText, one: Direction)
    requires { length short.old + PIECE ≤ ROOM }
    ensures text { short.new ≡ short.old ++ 32 ∷ direction_text one }
    ensures room { length short.new ≤ length short.old + PIECE }
{
    match one {
        Direction::Down => short.add(b" dl"),
        Direction::Up => short.add(b" ul"),
    }
}

#[inline(always)]
pub fn add_arrived(short: &mut ShortText, one: Arrived)
    requires { length short.old + PIECE ≤ ROOM }
    ensures text { short.new ≡ short.old ++ 32 ∷ arrived_text one }
    ensures room { length short.new ≤ length short.old + PIECE }
{
    match one {
        Arrived::Got => short.add(b" got"),
        Arrived::Dup => short.add(b" dup"),
        Arrived::Bad => short.add(b" bad"),
        Arrived::Nothing => short.add(b" none"),
    }
}

pub fn place_word(one: NoPlace) -> &'static str
    ensures word { result.now ≡ place_text one }
    ensures short { length result.now < PIECE }
{
    match one {
        NoPlace::Full => "full",
        NoPlace::Count => "count",
    }
}

pub fn state_word(one: State) -> &'static str
    ensures word { result.now ≡ state_text one }
    ensures short { length result.now < PIECE }
{
    match one {
        State::Ok => "ok",
        State::Failed => "failed",
        State::Short => "short",
        State::Long => "long",
    }
}

#[inline(always)]
pub fn add_fresh(short: &mut ShortText, one: bool)
    requires { length short.old + PIECE ≤ ROOM }
    ensures text { short.new ≡ short.old ++ 32 ∷ fresh_text one }
    ensures room { length short.new ≤ length short.old + PIECE }
{
    match one {
        true => short.add(b" new"),
        false => short.add(b" re"),
    }
}

#[inline(always)]
pub fn add_heard(short: &mut ShortText, one: Option<bool>)
    requires { length short.old + PIECE ≤ ROOM }
    ensures text { short.new ≡ short.old ++ 32 ∷ heard_text one }
    ensures room { length short.new ≤ length short.old + PIECE }
{
    match one {
        None => short.add(b" -"),
        Some(true) => short.add(b" ack"),
        Some(false) => short.add(b" nack"),
    }
}

#[inline(always)]
fn add_fate(short: &mut ShortText, fate: Fate, flipped: bool)
    requires { length short.old + PIECE ≤ ROOM }
    ensures text { short.new ≡ short.old ++ 32 ∷ fate_text fate flipped }
    ensures room { length short.new ≤ length short.old + PIECE }
{
    match (fate, flipped) {
        (Fate::Ok, false) => short.add(b" ok"),
        (Fate::Ok, true) => short.add(b" ok~"),
        (Fate::Bad, false) => short.add(b" bad"),
        (Fate::Bad, true) => short.add(b" bad~"),
        (Fate::Miss, false) => short.add(b" miss"),
        (Fate::Miss, true) => short.add(b" miss~"),
    }
}

#[inline(always)]
pub fn add_outcome(short: &mut ShortText, outcome: Outcome)
    requires { length short.old + PIECE ≤ ROOM }
    ensures text { short.new ≡ short.old ++ 32 ∷ outcome_text outcome }
    ensures room { length short.new ≤ length short.old + PIECE }
{
    add_fate(short, outcome.fate, outcome.flipped)
}

pub fn lost_word(one: Lost) -> &'static str
    ensures word { result.now ≡ lost_text one }
    ensures short { length result.now < PIECE }
{
    match one {
        Lost::NoBearer => "nobearer",
        Lost::Repeat => "repeat",
        Lost::Outside => "outside",
        Lost::Clash => "clash",
        Lost::Old => "old",
        Lost::Range => "range",
        Lost::Ignored => "ignored",
        Lost::Handover => "handover",
        Lost::Loop => "loop",
        Lost::Report => "report",
    }
}

#[inline(always)]
pub fn add_bit(short: &mut ShortText, one: bool)
    requires { length short.old + PIECE ≤ ROOM }
    ensures text { short.new ≡ short.old ++ 32 ∷ bit_text one }
    ensures room { length short.new ≤ length short.old + 2 }
{
    match one {
        true => short.add(b" 1"),
        false => short.add(b" 0"),
    }
}

#[inline(always)]
pub fn add_framing(short: &mut ShortText, fi: u8)
    requires { length short.old + PIECE ≤ ROOM }
    ensures text { short.new ≡ short.old ++ 32 ∷ framing_text fi }
    ensures room { length short.new ≤ length short.old + 3 }
{
    match fi {
        0 => short.add(b" 00"),
        1 => short.add(b" 01"),
        2 => short.add(b" 10"),
        _ => short.add(b" 11"),
    }
}

pub fn mac_why(why: MacWhy) -> u64
    ensures { result ≡ mac_number why }
{
    match why {
        MacWhy::Short => 1,
        MacWhy::ReservedLcid => 2,
        MacWhy::LengthPast => 3,
        MacWhy::ControlAfterSdu => 4,
        MacWhy::PaddingPlace => 5,
    }
}

pub fn rlc_why(why: RlcWhy) -> u64
    ensures { result ≡ rlc_number why }
{
    match why {
        RlcWhy::Short => 1,
        RlcWhy::ZeroLi => 2,
        RlcWhy::LiPast => 3,
        RlcWhy::EmptyData => 4,
        RlcWhy::ReservedCpt => 5,
        RlcWhy::SoBackwards => 6,
        RlcWhy::Trailing => 7,
    }
}

pub fn pdcp_why(why: PdcpWhy) -> u64
    ensures { result ≡ pdcp_number why }
{
    match why {
        PdcpWhy::Short => 1,
        PdcpWhy::ReservedType => 2,
        PdcpWhy::EmptyData => 3,
    }
}
