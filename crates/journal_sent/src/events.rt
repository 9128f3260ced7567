// What records say of what they are about.
ghost use Rattle.std.specs.Prelude.{◌≡◌, option_copied};
ghost use Rattle.journal_given.specs.Supplies.{accounts as supplies};
ghost use Rattle.journal_sent.specs.Sending.{lcid_in, sdu_of, passed_to};

use crate::checker::PassedSdu;
use air_record::Record;
use bearer_types::Event;
use journal_given::JournalGiven;
use l2_bits::Bytes;
use l2_types::Side;

// The SDU that was passed on just before on a side's channel.
pub(crate) fn passed_to(side: Side, lcid: u8, passed: Option<PassedSdu>) -> Option<Bytes>
    ensures { result ≡ passed_to side lcid passed }
{
    let Some(passed) = passed else {
        return None;
    };
    if side == passed.side && passed.lcid == lcid {
        Some(passed.octets)
    } else {
        None
    }
}

// The channel of what happened.
pub(crate) fn lcid_in(event: &Event) -> Option<u8>
    ensures { result ≡ lcid_in event.now }
{
    match event {
        Event::BadMac(_) => None,
        Event::Take { lcid, .. }
        | Event::Report { lcid, .. }
        | Event::Send { lcid, .. }
        | Event::Wait { lcid, .. }
        | Event::Start { lcid, .. }
        | Event::Stop { lcid, .. }
        | Event::Expired { lcid, .. }
        | Event::Up { lcid, .. }
        | Event::Fail { lcid, .. }
        | Event::Drop { lcid, .. }
        | Event::Integrity { lcid, .. }
        | Event::BadRlc { lcid, .. }
        | Event::BadPdcp { lcid, .. }
        | Event::Discard { lcid, .. } => Some(*lcid),
    }
}

// The SDU of a COUNT, of acknowledged data.
#[tactic(auto, using(crate::proofs::Sdus::finds))]
pub(crate) fn sdu_of(
    given: &JournalGiven,
    side: Side,
    lcid: u8,
    count: Option<u32>,
) -> Option<&Bytes>
    ensures { option_copied result ≡ sdu_of supplies side lcid count given.now }
{
    let count = count?;
    match given.takes(side, lcid) {
        Some(takes) => takes.sdu(u64::from(count)),
        None => None,
    }
}
