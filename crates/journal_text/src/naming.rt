// Words of enums.
ghost use Rattle.std.specs.Prelude.{◌≡◌, ◌<◌, IfOk};
ghost use Rattle.std.specs.Fmt.{decimal};
ghost use Rattle.air_record.specs.Text.{side_text, clock_text, how_text, waits_text, lost_text};
ghost use Rattle.air_record.specs.Text.{direction_text, arrived_text, place_text, state_text};
ghost use Rattle.air_record.specs.Text.{fresh_text, heard_text, bit_text, framing_text};
ghost use Rattle.air_record.specs.Text.{mac_number, rlc_number, pdcp_number};
ghost use Rattle.journal_text.specs.Names.{side_of, clock_of, how_of, waits_of, lost_of};
ghost use Rattle.journal_text.specs.Names.{direction_of, arrived_of, place_of, state_of};
ghost use Rattle.journal_text.specs.Names.{fresh_of, heard_of, bit_of, framing_of, mac_why_of};
ghost use Rattle.journal_text.specs.Names.{rlc_why_of, pdcp_why_of};

use crate::fault::TextFault;
use crate::fields::{number, says};
use air_record::{Arrived, NoPlace, State};
use l2_types::{Clock, How, Lost, Side, Waits};
use mac_pdu::{Direction, MacWhy};
use pdcp_pdu::PdcpWhy;
use rlc_pdu::RlcWhy;

#[tactic(auto, unfolding(crate::specs::Names::side_of))]
pub fn side(text: &[u8]) -> Result<Side, TextFault>
    ensures value { result ≡ side_of text.now }
    ensures text { IfOk result (λ one. side_text one ≡ text.now) }
{
    if says(text, b"ue") {
        return Ok(Side::Ue);
    }
    if says(text, b"nb") {
        return Ok(Side::Nb);
    }
    Err(TextFault::NotARecord)
}

#[tactic(auto, unfolding(crate::specs::Names::clock_of))]
pub fn clock(text: &[u8]) -> Result<Clock, TextFault>
    ensures value { result ≡ clock_of text.now }
    ensures text { IfOk result (λ one. clock_text one ≡ text.now) }
{
    if says(text, b"poll") {
        return Ok(Clock::Poll);
    }
    if says(text, b"reorder") {
        return Ok(Clock::Reorder);
    }
    if says(text, b"prohibit") {
        return Ok(Clock::Prohibit);
    }
    Err(TextFault::NotARecord)
}

#[tactic(auto, unfolding(crate::specs::Names::how_of))]
pub fn how(text: &[u8]) -> Result<How, TextFault>
    ensures value { result ≡ how_of text.now }
    ensures text { IfOk result (λ one. how_text one ≡ text.now) }
{
    if says(text, b"tm") {
        return Ok(How::Tm);
    }
    if says(text, b"new") {
        return Ok(How::New);
    }
    if says(text, b"re") {
        return Ok(How::Re);
    }
    if says(text, b"status") {
        return Ok(How::Status);
    }
    Err(TextFault::NotARecord)
}

#[tactic(auto, unfolding(crate::specs::Names::waits_of))]
pub fn waits(text: &[u8]) -> Result<Waits, TextFault>
    ensures value { result ≡ waits_of text.now }
    ensures text { IfOk result (λ one. waits_text one ≡ text.now) }
{
    if says(text, b"stopped") {
        return Ok(Waits::Stopped);
    }
    if says(text, b"shut") {
        return Ok(Waits::Shut);
    }
    if says(text, b"held") {
        return Ok(Waits::Held);
    }
    if says(text, b"small") {
        return Ok(Waits::Small);
    }
    Err(TextFault::NotARecord)
}

#[tactic(auto, unfolding(crate::specs::Names::lost_of))]
pub fn lost(text: &[u8]) -> Result<Lost, TextFault>
    ensures value { result ≡ lost_of text.now }
    ensures text { IfOk result (λ one. lost_text one ≡ text.now) }
{
    if says(text, b"nobearer") {
        return Ok(Lost::NoBearer);
    }
    if says(text, b"repeat") {
        return Ok(Lost::Repeat);
    }
    if says(text, b"outside") {
        return Ok(Lost::Outside);
    }
    if says(text, b"clash") {
        return Ok(Lost::Clash);
    }
    if says(text, b"old") {
        return Ok(Lost::Old);
    }
    if says(text, b"range") {
        return Ok(Lost::Range);
    }
    if says(text, b"ignored") {
        return Ok(Lost::Ignored);
    }
    if says(text, b"handover") {
        return Ok(Lost::Handover);
    }
    if says(text, b"loop") {
        return Ok(Lost::Loop);
    }
    if says(text, b"report") {
        return Ok(Lost::Report);
    }
    Err(TextFault::NotARecord)
}

#[tactic(auto, unfolding(crate::specs::Names::direction_of))]
pub fn direction(text: &[u8]) -> Result<Direction, TextFault>
    ensures value { result ≡ direction_of text.now }
    ensures text { IfOk result (λ one. direction_text one ≡ text.now) }
{
    if says(text, b"dl") {
        return Ok(Direction::Down);
    }
    if says(text, b"ul") {
        return Ok(Direction::Up);
    }
    Err(TextFault::NotARecord)
}

#[tactic(auto, unfolding(crate::specs::Names::arrived_of))]
pub fn arrived(text: &[u8]) -> Result<Arrived, TextFault>
    ensures value { result ≡ arrived_of text.now }
    ensures text { IfOk result (λ one. arrived_text one ≡ text.now) }
{
    if says(text, b"got") {
        return Ok(Arrived::Got);
    }
    if says(text, b"dup") {
        return Ok(Arrived::Dup);
    }
    if says(text, b"bad") {
        return Ok(Arrived::Bad);
    }
    if says(text, b"none") {
        return Ok(Arrived::Nothing);
    }
    Err(TextFault::NotARecord)
}

#[tactic(auto, unfolding(crate::specs::Names::place_of))]
pub fn place(text: &[u8]) -> Result<NoPlace, TextFault>
    ensures value { result ≡ place_of text.now }
    ensures text { IfOk result (λ one. place_text one ≡ text.now) }
{
    if says(text, b"full") {
        return Ok(NoPlace::Full);
    }
    if says(text, b"count") {
        return Ok(NoPlace::Count);
    }
    Err(TextFault::NotARecord)
}

#[tactic(auto, unfolding(crate::specs::Names::state_of))]
pub fn state(text: &[u8]) -> Result<State, TextFault>
    ensures value { result ≡ state_of text.now }
    ensures text { IfOk result (λ one. state_text one ≡ text.now) }
{
    if says(text, b"ok") {
        return Ok(State::Ok);
    }
    if says(text, b"failed") {
        return Ok(State::Failed);
    }
    if says(text, b"short") {
        return Ok(State::Short);
    }
    if says(text, b"long") {
        return Ok(State::Long);
    }
    Err(TextFault::NotARecord)
}

#[tactic(auto, unfolding(crate::specs::Names::fresh_of))]
pub fn fresh(text: &[u8]) -> Result<bool, TextFault>
    ensures value { result ≡ fresh_of text.now }
    ensures text { IfOk result (λ one. fresh_text one ≡ text.now) }
{
    if says(text, b"new") {
        return Ok(true);
    }
    if says(text, b"re") {
        return Ok(false);
    }
    Err(TextFault::NotARecord)
}

#[tactic(auto, unfolding(crate::specs::Names::heard_of))]
pub fn heard(text: &[u8]) -> Result<Option<bool>, TextFault>
    ensures value { result ≡ heard_of text.now }
    ensures text { IfOk result (λ one. heard_text one ≡ text.now) }
{
    if says(text, b"-") {
        return Ok(None);
    }
    if says(text, b"ack") {
        return Ok(Some(true));
    }
    if says(text, b"nack") {
        return Ok(Some(false));
    }
    Err(TextFault::NotARecord)
}

#[tactic(auto, unfolding(crate::specs::Names::bit_of))]
pub fn bit(text: &[u8]) -> Result<bool, TextFault>
    ensures value { result ≡ bit_of text.now }
    ensures text { IfOk result (λ one. bit_text one ≡ text.now) }
{
    if says(text, b"1") {
        return Ok(true);
    }
    if says(text, b"0") {
        return Ok(false);
    }
    Err(TextFault::NotARecord)
}

#[tactic(auto, unfolding(crate::specs::Names::framing_of))]
pub fn framing(text: &[u8]) -> Result<u8, TextFault>
    ensures value { result ≡ framing_of text.now }
    ensures text { IfOk result (λ one. (framing_text one ≡ text.now) × (one < 4)) }
{
    if says(text, b"00") {
        return Ok(0);
    }
    if says(text, b"01") {
        return Ok(1);
    }
    if says(text, b"10") {
        return Ok(2);
    }
    if says(text, b"11") {
        return Ok(3);
    }
    Err(TextFault::NotARecord)
}

#[tactic(auto, unfolding(crate::specs::Names::mac_why_of))]
pub fn mac_why(text: &[u8]) -> Result<MacWhy, TextFault>
    ensures value { result ≡ mac_why_of text.now }
    ensures text { IfOk result (λ why. decimal (mac_number why) ≡ text.now) }
{
    match number(text)? {
        1 => Ok(MacWhy::Short),
        2 => Ok(MacWhy::ReservedLcid),
        3 => Ok(MacWhy::LengthPast),
        4 => Ok(MacWhy::ControlAfterSdu),
        5 => Ok(MacWhy::PaddingPlace),
        _ => Err(TextFault::NotARecord),
    }
}

#[tactic(auto, unfolding(crate::specs::Names::rlc_why_of))]
pub fn rlc_why(text: &[u8]) -> Result<RlcWhy, TextFault>
    ensures value { result ≡ rlc_why_of text.now }
    ensures text { IfOk result (λ why. decimal (rlc_number why) ≡ text.now) }
{
    match number(text)? {
        1 => Ok(RlcWhy::Short),
        2 => Ok(RlcWhy::ZeroLi),
        3 => Ok(RlcWhy::LiPast),
        4 => Ok(RlcWhy::EmptyData),
        5 => Ok(RlcWhy::ReservedCpt),
        6 => Ok(RlcWhy::SoBackwards),
        7 => Ok(RlcWhy::Trailing),
        _ => Err(TextFault::NotARecord),
    }
}

#[tactic(auto, unfolding(crate::specs::Names::pdcp_why_of))]
pub fn pdcp_why(text: &[u8]) -> Result<PdcpWhy, TextFault>
    ensures value { result ≡ pdcp_why_of text.now }
    ensures text { IfOk result (λ why. decimal (pdcp_number why) ≡ text.now) }
{
    match number(text)? {
        1 => Ok(PdcpWhy::Short),
        2 => Ok(PdcpWhy::ReservedType),
        3 => Ok(PdcpWhy::EmptyData),
        _ => Err(TextFault::NotARecord),
    }
}
