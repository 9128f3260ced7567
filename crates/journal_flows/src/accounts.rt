// The flows of both sides.
ghost use Rattle.std.specs.Prelude.{◌≡◌, ◌+◌, ◌<◌, OnOk, drop, length, option_copied};
ghost use Rattle.bearer_types.specs.Configs.{AreRlcBits, ArePdcpBits};
ghost use Rattle.bearer_types.specs.Sides.{other};
ghost use Rattle.journal_account.specs.FlowEvents.{StatusHeard};
ghost use Rattle.journal_lives.specs.LifeEvents.{InLife};
ghost use Rattle.journal_um.specs.UmEvents.{PduArrived};
ghost use Rattle.journal_flows.specs.UmPdus.{AtReceiver};
ghost use Rattle.journal_flows.specs.NumberedPdus.{Acked, Unacked, written_as, come_as};
ghost use Rattle.journal_flows.specs.Gathering.{all_told, all_come};
ghost use Rattle.journal_flows.specs.FlowKept.{event_of};
ghost use Rattle.journal_flows.specs.UmKept.{um_event_of};
ghost use Rattle.journal_flows.specs.Accounts.{accounts, no_accounts};
ghost use Rattle.journal_flows.specs.Accounts.{account_with, slot_at, account_at, um_flow_at};
ghost use Rattle.journal_flows.specs.Accounts.{account_begun, accounts_ended, account_taken};
ghost use Rattle.journal_flows.specs.Accounts.{next_kept, front_kept, um_next_kept, um_place_kept};
ghost use Rattle.journal_flows.specs.Accounts.{first_joined};

use crate::account::{Account, begun};
use crate::channels::{self, Channels};
use crate::copies;
use crate::flow::Happening;
use crate::parcels::Parcel;
use crate::um_ends::UmHappening;
use bearer_types::{BearerConfig, other};
use journal_account::StatusEntry;
use journal_lives::FlowLives;
use journal_um::{JoinedSdu, Pieces, UmFlow};
use l2_bits::{Items, NoMemory};
use l2_types::{How, Side};
use std::alloc::Global;
use std::marker::Model;

#[derive(Drop)]
pub(crate) struct Accounts {
    nb: Channels,
    ue: Channels,
}

impl Model for Accounts {
    ghost use Rattle.journal_flows.specs.Accounts.{Accounts as Kept};

    ghost Value = { Kept };

    ghost view = { λ a. record { nb = a.nb.items; ue = a.ue.items } };
}

impl Accounts {
    pub(crate) fn new() -> Accounts
        ensures { result ≡ no_accounts }
    {
        Accounts {
            nb: channels::no_channels(),
            ue: channels::no_channels(),
        }
    }

    fn account(&self, side: Side, lcid: u8) -> Option<&Account>
        ensures { option_copied result ≡ slot_at side lcid self.now }
    {
        match side {
            Side::Nb => channels::account(&self.nb, lcid),
            Side::Ue => channels::account(&self.ue, lcid),
        }
    }

    // The acknowledged flow of a side that sends, on a channel.
    pub(crate) fn flow(&self, side: Side, lcid: u8) -> Option<&FlowLives>
        ensures { option_copied result ≡ account_at side lcid self.now }
    {
        match self.account(side, lcid) {
            Some(Account::Am(flow)) => Some(flow.lives()),
            _ => None,
        }
    }

    // The unacknowledged flow.
    pub(crate) fn um_flow(&self, side: Side, lcid: u8) -> Option<&UmFlow>
        ensures { option_copied result ≡ um_flow_at side lcid self.now }
    {
        match self.account(side, lcid) {
            Some(Account::Um(ends)) => Some(ends.flow()),
            _ => None,
        }
    }

    // Takes the next SDU that goes up of an unacknowledged flow.
    pub(crate) fn next_joined(&mut self, side: Side, lcid: u8) -> Option<JoinedSdu>
        ensures value { result ≡ first_joined (um_flow_at side lcid self.old) }
        ensures rest { self.new ≡ account_taken side lcid self.old }
    {
        match side {
            Side::Nb => channels::next_joined(&mut self.nb, lcid),
            Side::Ue => channels::next_joined(&mut self.ue, lcid),
        }
    }

    // VT(S) of an acknowledged flow, or 0 where there is none.
    pub(crate) fn next(&self, side: Side, lcid: u8) -> u64
        ensures { result ≡ next_kept (slot_at side lcid self.now) }
    {
        match side {
            Side::Nb => channels::next(&self.nb, lcid),
            Side::Ue => channels::next(&self.ue, lcid),
        }
    }

    // VR(R) of an acknowledged flow, or 0 where there is none.
    pub(crate) fn front(&self, side: Side, lcid: u8) -> u64
        ensures { result ≡ front_kept (slot_at side lcid self.now) }
    {
        match side {
            Side::Nb => channels::front(&self.nb, lcid),
            Side::Ue => channels::front(&self.ue, lcid),
        }
    }

    // The number that an unacknowledged flow writes next, or 0 where there is none.
    pub(crate) fn um_next(&self, side: Side, lcid: u8) -> u64
        ensures { result ≡ um_next_kept (slot_at side lcid self.now) }
    {
        match side {
            Side::Nb => channels::um_next(&self.nb, lcid),
            Side::Ue => channels::um_next(&self.ue, lcid),
        }
    }

    // The place of the SDU of the octets that it writes next, or 0 where there is none.
    pub(crate) fn um_place(&self, side: Side, lcid: u8) -> u64
        ensures { result ≡ um_place_kept (slot_at side lcid self.now) }
    {
        match side {
            Side::Nb => channels::um_place(&self.nb, lcid),
            Side::Ue => channels::um_place(&self.ue, lcid),
        }
    }

    // A bearer begins, in both directions.
    pub(crate) fn begin(&mut self, alloc: Global, config: &BearerConfig)
        requires rlc { AreRlcBits config.now.kind config.now.rlc_bits }
        requires pdcp { ArePdcpBits config.now.kind config.now.pdcp_bits }
        ensures { self.new ≡ account_begun config.now self.old }
    {
        let lcid = config.channel.lcid;
        channels::set(&mut self.nb, lcid, begun(alloc, config));
        channels::set(&mut self.ue, lcid, begun(alloc, config));
    }

    pub(crate) fn change(&mut self, side: Side, lcid: u8, what: Happening) -> Result<(), NoMemory>
        ensures { OnOk result
            (self.new ≡ account_with side lcid (Acked (event_of what)) self.old) }
    {
        match side {
            Side::Nb => channels::change(&mut self.nb, lcid, what),
            Side::Ue => channels::change(&mut self.ue, lcid, what),
        }
    }

    pub(crate) fn um_change(
        &mut self,
        side: Side,
        lcid: u8,
        what: UmHappening,
    ) -> Result<(), NoMemory>
        ensures { OnOk result
            (self.new ≡ account_with side lcid (Unacked (um_event_of what)) self.old) }
    {
        match side {
            Side::Nb => channels::um_change(&mut self.nb, lcid, what),
            Side::Ue => channels::um_change(&mut self.ue, lcid, what),
        }
    }

    // A PDU of an unacknowledged flow comes.
    fn arrive(&mut self, side: Side, lcid: u8, number: u64, pieces: Pieces) -> Result<(), NoMemory>
        ensures { OnOk result (self.new
            ≡ account_with side lcid (Unacked (AtReceiver (PduArrived number pieces))) self.old) }
    {
        match side {
            Side::Nb => channels::arrive(&mut self.nb, lcid, number, pieces),
            Side::Ue => channels::arrive(&mut self.ue, lcid, number, pieces),
        }
    }

    // A STATUS comes to the side that sends.
    fn hear(
        &mut self,
        side: Side,
        lcid: u8,
        ack: u64,
        entries: &[StatusEntry],
    ) -> Result<(), NoMemory>
        ensures { OnOk result
            (self.new
            ≡ account_with side lcid (Acked (InLife (StatusHeard ack entries.now))) self.old) }
    {
        match side {
            Side::Nb => channels::hear(&mut self.nb, lcid, ack, entries),
            Side::Ue => channels::hear(&mut self.ue, lcid, ack, entries),
        }
    }

    // A side writes a PDU.
    pub(crate) fn write(&mut self, from: Side, how: How, parcel: &Parcel) -> Result<(), NoMemory>
        ensures { OnOk result
            (self.new ≡ all_told accounts (written_as from how parcel.now) self.old) }
    {
        match (how, parcel) {
            (How::New, Parcel::Octets { lcid, to, .. }) => {
                self.change(from, *lcid, Happening::NumberWritten { size: *to })
            }
            (
                How::Re,
                Parcel::Octets {
                    lcid,
                    number,
                    from: start,
                    to,
                },
            ) => {
                let what = Happening::OctetsResent {
                    number: *number,
                    from: *start,
                    to: *to,
                };
                self.change(from, *lcid, what)
            }
            (How::New, Parcel::Pieces { lcid, size, .. }) => {
                self.um_change(from, *lcid, UmHappening::NumberWritten { size: *size })
            }
            _ => Ok(()),
        }
    }

    // A PDU comes from a side. Pieces are copied, since their block may land again.
    fn come(&mut self, alloc: Global, from: Side, parcel: &Parcel) -> Result<(), NoMemory>
        ensures { OnOk result (self.new ≡ all_told accounts (come_as from parcel.now) self.old) }
    {
        match parcel {
            Parcel::Octets {
                lcid,
                number,
                from: start,
                to,
            } => {
                let what = Happening::OctetsArrived {
                    number: *number,
                    from: *start,
                    to: *to,
                };
                self.change(from, *lcid, what)
            }
            Parcel::Pieces {
                lcid,
                number,
                pieces,
                ..
            } => self.arrive(from, *lcid, *number, copies::pieces(alloc, pieces)?),
            Parcel::Report { lcid, ack, entries } => {
                self.hear(other(from), *lcid, *ack, entries.as_slice())
            }
        }
    }

    // Of PDUs, the one at a place comes.
    #[tactic(auto, using(crate::proofs::Loads::comes_at))]
    fn come_at(
        &mut self,
        alloc: Global,
        from: Side,
        parcels: &Items<Parcel>,
        at: usize,
    ) -> Result<(), NoMemory>
        requires { at < length parcels.now }
        ensures { OnOk result (all_come accounts from (drop (at + 1) parcels.now) self.new
            ≡ all_come accounts from (drop at parcels.now) self.old) }
    {
        match parcels.get(at) {
            Some(parcel) => self.come(alloc, from, parcel),
            None => unreachable!(),
        }
    }

    // PDUs come from a side, one behind the other.
    #[tactic(auto, using(crate::proofs::Loads::none_come))]
    pub(crate) fn come_all(
        &mut self,
        alloc: Global,
        from: Side,
        parcels: &Items<Parcel>,
    ) -> Result<(), NoMemory>
        ensures { OnOk result (self.new ≡ all_come accounts from parcels.now self.old) }
    {
        let mut at = 0;
        while at < parcels.len() {
            self.come_at(alloc, from, parcels, at)?;
            at += 1;
        }
        Ok(())
    }

    // A life of each flow ends.
    pub(crate) fn end_lives(&mut self) -> Result<(), NoMemory>
        ensures { OnOk result (self.new ≡ accounts_ended self.old) }
    {
        channels::end_lives(&mut self.nb)?;
        channels::end_lives(&mut self.ue)
    }
}
