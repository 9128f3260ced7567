ghost use Rattle.std.specs.Prelude.{◌≡◌, None, Some, Ok, Err, Result, IfOk, IsOkAnd, MatchResult};
ghost use Rattle.pdcp_pdu.specs.Pdus.{UserPdu, user_of, IsUserBits};
ghost use Rattle.pdcp_pdu.specs.Grammar.{IsUserPdu};
ghost use Rattle.pdcp_pdu.specs.Refusals.{is_data, has_report_type, user_refusal};
ghost use Rattle.pdcp_pdu.specs.Reading.{user_at, sdu_at, short_user, middle_user, long_user};

use crate::pdu::{PdcpRefusal, PdcpWhy, User};

// Whether the D/C bit of the first octet says data.
fn is_data(first: u8) -> bool
    ensures { result ≡ is_data first }
{
    (first >> 7) & 1 == 1
}

// Whether the PDU type in the first octet of a control PDU is that of a status report.
fn has_report_type(first: u8) -> bool
    ensures { result ≡ has_report_type first }
{
    (first >> 4) & 7 == 0
}

#[tactic(auto, unfolding(crate::specs::Reading::sdu_at))]
// A data PDU, of what stands behind its header of so many octets.
fn sdu(header: u32, sn: u32, octets: &[u8]) -> Result<User<'_>, PdcpRefusal>
    ensures { MatchResult result (λ user. sdu_at header sn octets.now ≡ Ok (user_of user))
        (λ e. sdu_at header sn octets.now ≡ Err e) }
{
    if octets.is_empty() {
        return Err(PdcpRefusal::new(header, PdcpWhy::EmptyData));
    }
    Ok(User::Sdu { sn, octets })
}

#[tactic(auto, unfolding(crate::specs::Reading::short_user))]
// With numbers of 7 bits.
fn read_short(from: &[u8]) -> Result<User<'_>, PdcpRefusal>
    ensures { MatchResult result (λ user. short_user from.now ≡ Ok (user_of user))
        (λ e. short_user from.now ≡ Err e) }
{
    let [first, rest @ ..] = from else {
        return Err(PdcpRefusal::new(0, PdcpWhy::Short));
    };
    if is_data(*first) {
        return sdu(1, u32::from(*first & 0x7f), rest);
    }
    Err(PdcpRefusal::new(0, PdcpWhy::ReservedType))
}

#[tactic(auto, unfolding(crate::specs::Reading::middle_user))]
// With numbers of 12 bits.
fn read_middle(from: &[u8]) -> Result<User<'_>, PdcpRefusal>
    ensures { MatchResult result (λ user. middle_user from.now ≡ Ok (user_of user))
        (λ e. middle_user from.now ≡ Err e) }
{
    let [first, second, rest @ ..] = from else {
        return Err(PdcpRefusal::new(from.len() as u32, PdcpWhy::Short));
    };
    let number = u32::from(*first & 0x0f) << 8 | u32::from(*second);
    if is_data(*first) {
        return sdu(2, number, rest);
    }
    if has_report_type(*first) {
        return Ok(User::Report {
            fms: number,
            bitmap: rest,
        });
    }
    Err(PdcpRefusal::new(0, PdcpWhy::ReservedType))
}

#[tactic(auto, unfolding(crate::specs::Reading::long_user, crate::specs::Reading::long_report))]
// With numbers of 15 bits.
fn read_long(from: &[u8]) -> Result<User<'_>, PdcpRefusal>
    ensures { MatchResult result (λ user. long_user from.now ≡ Ok (user_of user))
        (λ e. long_user from.now ≡ Err e) }
{
    let [first, second, rest @ ..] = from else {
        return Err(PdcpRefusal::new(from.len() as u32, PdcpWhy::Short));
    };
    if is_data(*first) {
        let sn = u32::from(*first & 0x7f) << 8 | u32::from(*second);
        return sdu(2, sn, rest);
    }
    if !has_report_type(*first) {
        return Err(PdcpRefusal::new(0, PdcpWhy::ReservedType));
    }
    let [third, bitmap @ ..] = rest else {
        return Err(PdcpRefusal::new(2, PdcpWhy::Short));
    };
    let fms = u32::from(*second & 0x7f) << 8 | u32::from(*third);
    Ok(User::Report { fms, bitmap })
}

// With numbers of so many bits.
fn read(bits: u32, from: &[u8]) -> Result<User<'_>, PdcpRefusal>
    requires { IsUserBits bits }
    ensures { MatchResult result (λ user. user_at bits from.now ≡ Ok (user_of user))
        (λ e. user_at bits from.now ≡ Err e) }
{
    match bits {
        7 => read_short(from),
        12 => read_middle(from),
        _ => read_long(from),
    }
}

/// Reads a PDU of a data bearer, whose numbers have 7, 12 or 15 bits (TS 36.323 6.2.3, 6.2.4,
/// 6.2.6). Reserved bits are passed over, and a status report may have any bitmap. It takes no
/// memory.
#[inline(always)]
pub fn read_user(bits: u32, from: &[u8]) -> Result<User<'_>, PdcpRefusal>
    requires { IsUserBits bits }
    ensures found { IfOk result (λ user. IsUserPdu bits (user_of user) from.now) }
    ensures only { (pdu : UserPdu) → IsUserPdu bits pdu from.now
        → IsOkAnd result (λ user. user_of user ≡ pdu) }
    ensures refused { MatchResult result (λ _. user_refusal bits from.now ≡ None)
        (λ e. user_refusal bits from.now ≡ Some e) }
    ensures exact { MatchResult result (λ user. user_at bits from.now ≡ Ok (user_of user))
        (λ e. user_at bits from.now ≡ Err e) }
{
    read(bits, from)
}
