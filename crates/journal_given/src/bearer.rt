// Both directions of a bearer of acknowledged data.
ghost use Rattle.std.specs.Prelude.{◌≡◌, OnOk, IfOk, Some, option_copied};
ghost use Rattle.journal_takes.specs.TakeEvents.{SduSubmitted, SduDiscarded};
ghost use Rattle.journal_given.specs.Supplies.{accounts, told, is_take, takes_pdu};
ghost use Rattle.journal_given.specs.Supplies.{is_right_report, takes_report, has_waiting};
ghost use Rattle.journal_given.specs.Giving.{side_of, on_side, bearer_begun, landed, lives_ended};
ghost use Rattle.bearer_types.specs.Configs.{ArePdcpBits};

use crate::supply::Supply;
use journal_lives::FlowLives;
use l2_bits::{Bytes, NoMemory};
use l2_types::{Kind, Side};
use std::alloc::Global;
use std::marker::Model;

#[derive(Drop)]
pub(crate) struct Bearer {
    nb: Supply,
    ue: Supply,
}

impl Model for Bearer {
    ghost use Rattle.journal_takes.specs.FlowTakes.{FlowTakes as Takes};
    ghost use Rattle.journal_given.specs.Supplies.{Bearer};

    ghost Value = { Bearer Takes };

    ghost view = { λ b. record { nb = b.nb; ue = b.ue } };
}

// A bearer, where it is of acknowledged data.
pub(crate) fn begun(alloc: Global, kind: Kind, first: u32, bits: u32) -> Option<Bearer>
    requires { ArePdcpBits kind bits }
    ensures { result ≡ bearer_begun accounts kind first bits }
{
    match kind {
        Kind::Am => Some(Bearer {
            nb: Supply::new(alloc, first, bits),
            ue: Supply::new(alloc, first, bits),
        }),
        Kind::Tm | Kind::Srb | Kind::Um => None,
    }
}

// Behind an `Err` nothing is known.
impl Bearer {
    pub(crate) fn side(&self, side: Side) -> &Supply
        ensures { result.now ≡ side_of side self.now }
    {
        match side {
            Side::Nb => &self.nb,
            Side::Ue => &self.ue,
        }
    }

    pub(crate) fn submit(&mut self, side: Side, sdu: Bytes) -> Result<(), NoMemory>
        ensures { OnOk result
            (self.new ≡ on_side side (told accounts (SduSubmitted sdu)) self.old) }
    {
        match side {
            Side::Nb => self.nb.submit(sdu),
            Side::Ue => self.ue.submit(sdu),
        }
    }

    // Whether an SDU waited, which is discarded.
    pub(crate) fn discard(&mut self, side: Side) -> bool
        ensures value { result ≡ has_waiting (side_of side self.old).takes }
        ensures new { self.new ≡ on_side side (told accounts SduDiscarded) self.old }
    {
        match side {
            Side::Nb => self.nb.discard(),
            Side::Ue => self.ue.discard(),
        }
    }

    // A `take` record; whether it is right.
    pub(crate) fn take(
        &mut self,
        side: Side,
        count: Option<u32>,
        len: u32,
    ) -> Result<bool, NoMemory>
        ensures value { IfOk result
            (λ right. right ≡ is_take accounts count len (side_of side self.old)) }
        ensures new { OnOk result
            (self.new ≡ on_side side (takes_pdu accounts count len) self.old) }
    {
        match side {
            Side::Nb => self.nb.take(count, len),
            Side::Ue => self.ue.take(count, len),
        }
    }

    // A `report` record; whether it is right.
    pub(crate) fn report(&mut self, side: Side, fms: u32, bitmap: &[u8]) -> Result<bool, NoMemory>
        ensures value { IfOk result
            (λ right. right ≡ is_right_report accounts fms bitmap.now (side_of side self.old)) }
        ensures new { OnOk result
            (self.new ≡ on_side side (takes_report accounts fms bitmap.now) self.old) }
    {
        match side {
            Side::Nb => self.nb.report(fms, bitmap),
            Side::Ue => self.ue.report(fms, bitmap),
        }
    }

    // A block of a side is got, by the flow of that side and the one that goes the other way.
    pub(crate) fn land(
        &mut self,
        from: Side,
        status: bool,
        own: Option<&FlowLives>,
        back: Option<&FlowLives>,
    ) -> Result<(), NoMemory>
        ensures { OnOk result (self.new ≡ landed accounts from status (option_copied own.entry)
            (option_copied back.entry) self.old) }
    {
        match from {
            Side::Nb => {
                self.ue.land(status, own, back, &self.nb)?;
                self.nb.drop_report(own);
            }
            Side::Ue => {
                self.nb.land(status, own, back, &self.ue)?;
                self.ue.drop_report(own);
            }
        }
        Ok(())
    }

    // A handover, with the flows behind it.
    pub(crate) fn end_lives(
        &mut self,
        of_nb: Option<&FlowLives>,
        of_ue: Option<&FlowLives>,
    ) -> Result<(), NoMemory>
        ensures { OnOk result (self.new ≡ lives_ended accounts (option_copied of_nb.entry)
            (option_copied of_ue.entry) self.old) }
    {
        self.nb.end_life(of_ue)?;
        self.ue.end_life(of_nb)
    }
}
