// A side's sender on a logical channel.
ghost use Rattle.std.specs.Prelude.{◌≡◌};
ghost use Rattle.journal_failure.specs.Checking.{nothing_told, with_fail, with_data, with_bearer};
ghost use Rattle.journal_failure.specs.Checking.{with_end, sn_due, same_sn, is_sender_right};
ghost use Rattle.journal_failure.specs.Checking.{is_at_rest};

use rlc_pdu::AM_MODULUS;

#[derive(Clone, Copy, Default)]
pub(crate) struct Sender {
    // Its flow had failed in the life that runs as the group began.
    pub(crate) failed: bool,
    // The SN of the group's last `fail` record, and whether there are others.
    pub(crate) told: Option<u32>,
    pub(crate) twice: bool,
    // A `fail` record stands behind the last handover, and behind it a data PDU or another.
    pub(crate) gave_up: bool,
    pub(crate) spoke: bool,
    // A bearer's line stands before the group, or begins it.
    pub(crate) known: bool,
    pub(crate) begins: bool,
}

// The SN that is to be told, of a flow that stands at this limit.
fn sn_due(failed: bool, limit: Option<u64>) -> Option<u32>
    ensures { result ≡ sn_due failed limit }
{
    if failed {
        return None;
    }
    match limit {
        Some(number) => Some((number % AM_MODULUS) as u32),
        None => None,
    }
}

fn same_sn(told: Option<u32>, due: Option<u32>) -> bool
    ensures { result ≡ same_sn told due }
{
    match (told, due) {
        (None, None) => true,
        (Some(told), Some(due)) => told == due,
        _ => false,
    }
}

impl Sender {
    pub(crate) fn new() -> Sender
        ensures { result ≡ nothing_told }
    {
        Sender {
            failed: false,
            told: None,
            twice: false,
            gave_up: false,
            spoke: false,
            known: false,
            begins: false,
        }
    }

    // A `fail` record.
    pub(crate) fn with_fail(self, sn: u32) -> Sender
        ensures { result ≡ with_fail sn self }
    {
        Sender {
            told: Some(sn),
            twice: self.twice || self.told.is_some(),
            gave_up: true,
            spoke: self.spoke || self.gave_up,
            ..self
        }
    }

    // A data PDU is told of as sent.
    pub(crate) fn with_data(self) -> Sender
        ensures { result ≡ with_data self }
    {
        Sender {
            spoke: self.spoke || self.gave_up,
            ..self
        }
    }

    // A bearer begins on its channel.
    pub(crate) fn with_bearer(self) -> Sender
        ensures { result ≡ with_bearer self }
    {
        Sender {
            failed: false,
            begins: true,
            ..self
        }
    }

    // The group ends; its flow stands at this limit.
    pub(crate) fn with_end(self, hands_over: bool, limit: Option<u64>) -> Sender
        ensures { result ≡ with_end hands_over limit self }
    {
        Sender {
            failed: !hands_over && limit.is_some(),
            told: None,
            twice: false,
            gave_up: !hands_over && self.gave_up,
            spoke: !hands_over && self.spoke,
            known: self.known || self.begins,
            begins: false,
        }
    }

    // Whether it has told nothing that a group's end looks at.
    pub(crate) fn is_at_rest(&self) -> bool
        ensures { result ≡ is_at_rest self.now }
    {
        !self.failed
            && self.told.is_none()
            && !self.twice
            && !self.gave_up
            && !self.spoke
            && !self.begins
    }

    // Whether the group told the SN that it had to, and nothing behind a failure.
    pub(crate) fn is_right(self, limit: Option<u64>) -> bool
        ensures { result ≡ is_sender_right limit self }
    {
        !self.twice && same_sn(self.told, sn_due(self.failed, limit)) && !(self.known && self.spoke)
    }
}
