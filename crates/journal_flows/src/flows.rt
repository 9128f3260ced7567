// The flows of a journal: its lines and records go in one by one.
ghost use Rattle.std.specs.Prelude.{◌≡◌, OnOk};
ghost use Rattle.bearer_types.specs.Sides.{sender_of};
ghost use Rattle.promises.specs.Records.{is_got};
ghost use Rattle.journal_flows.specs.NumberedPdus.{carries_status};
ghost use Rattle.journal_flows.specs.Gathering.{is_handover, all_come, sent_last};
ghost use Rattle.journal_flows.specs.Accounts.{accounts};

use crate::accounts::Accounts;
use crate::events;
use crate::loading::load_block;
use crate::parcels::{self, Parcel};
use crate::sending::{Named, Sending};
use air_record::{Arrived, Line, Record};
use bearer_types::{Event, sender_of};
use journal_lives::FlowLives;
use journal_um::{JoinedSdu, UmFlow};
use l2_bits::{Items, NoMemory, OCTETS_LIMIT};
use l2_types::Side;
use mac_pdu::Direction;
use pdu_show::Kinds;
use std::alloc::Global;
use std::marker::Model;

/// Whether a block came, and is the first of its kind that did (TS 36.321 5.3.2.2).
pub fn is_got(what: Arrived) -> bool
    ensures { result ≡ is_got what }
{
    match what {
        Arrived::Got => true,
        Arrived::Dup | Arrived::Bad | Arrived::Nothing => false,
    }
}

fn is_handover(line: &Line) -> bool
    ensures { result ≡ is_handover line.now }
{
    match line {
        Line::Handover { .. } => true,
        _ => false,
    }
}

// Whether the block that a side sent last has a STATUS of a channel.
fn carries_status(sending: &Sending, lcid: u8) -> bool
    ensures { result ≡ carries_status lcid (sent_last sending.now) }
{
    match sending.sent_last() {
        Some(all) => parcels::carry_status(all, lcid),
        None => false,
    }
}

// The PDUs of the block that a side sent last come.
fn come_all(
    alloc: Global,
    flows: &mut Accounts,
    from: Side,
    sending: &Sending,
) -> Result<(), NoMemory>
    ensures { OnOk result (flows.new ≡ all_come accounts from (sent_last sending.now) flows.old) }
{
    match sending.sent_last() {
        Some(parcels) => flows.come_all(alloc, from, parcels),
        None => Ok(()),
    }
}

/// Gathers the events of the acknowledged and unacknowledged flows of a journal, whose lines and
/// records go in one by one, and keeps the account of each flow. `specs/FlowsTold.antt` says which
/// events are told; contracts see what is kept (`specs/Accounts.antt`).
///
/// What it keeps doesn't grow with the journal: the bearers, the accounts, the PDUs that are told
/// of before the next block of each direction, and those that the HARQ processes hold. It keeps the
/// SDUs that go up of an unacknowledged flow until they are taken.
#[derive(Drop)]
pub struct JournalFlows {
    alloc: Global,
    kinds: Kinds,
    flows: Accounts,
    nb: Sending,
    ue: Sending,
    hands_over: bool,
}

impl Model for JournalFlows {
    ghost use Rattle.journal_flows.specs.Accounts.{Keeping};

    ghost Value = { Keeping };

    ghost view = { λ k. record {
      kinds = k.kinds;
      journal = record { flows = k.flows; nb = k.nb; ue = k.ue };
      hands_over = k.hands_over;
    } };
}

impl JournalFlows {
    ghost use Rattle.std.specs.Prelude.{None, option_copied, slice_index_or};
    ghost use Rattle.journal_form.specs.Lines.{HasLayout};
    ghost use Rattle.journal_flows.specs.Gathering.{behind_event, behind_new, behind_again};
    ghost use Rattle.journal_flows.specs.Gathering.{behind_landing, sending_of};
    ghost use Rattle.journal_flows.specs.Accounts.{account_at, um_flow_at, first_joined};
    ghost use Rattle.journal_flows.specs.Accounts.{nothing_kept, after_line, after_record};
    ghost use Rattle.journal_flows.specs.Accounts.{after_group, after_taking, with_journal};

    /// Before the first line. It takes no memory.
    pub fn new(alloc: Global) -> JournalFlows
        ensures { result ≡ nothing_kept }
    {
        JournalFlows {
            alloc,
            kinds: Kinds::new(),
            flows: Accounts::new(),
            nb: Sending::new(alloc),
            ue: Sending::new(alloc),
            hands_over: false,
        }
    }

    /// The account of the flow that a side sends on a logical channel, 0 to 10; `None` where the
    /// bearer isn't acknowledged, or there is none.
    pub fn flow(&self, side: Side, lcid: u8) -> Option<&FlowLives>
        ensures { option_copied result ≡ account_at side lcid self.now.journal.flows }
    {
        self.flows.flow(side, lcid)
    }

    /// The PDUs of acknowledged and unacknowledged bearers in the block that a side sent last, as
    /// its HARQ process holds them; `None` where it holds no block.
    pub fn sent_last(&self, side: Side) -> Option<&Items<Parcel>>
        ensures { let sent = sending_of side self.now.journal in
            option_copied result ≡ slice_index_or sent.held sent.process None }
    {
        match side {
            Side::Nb => self.nb.sent_last(),
            Side::Ue => self.ue.sent_last(),
        }
    }

    /// The account of the flow that a side sends on a logical channel, 0 to 10; `None` where the
    /// bearer isn't unacknowledged, or there is none.
    pub fn um_flow(&self, side: Side, lcid: u8) -> Option<&UmFlow>
        ensures { option_copied result ≡ um_flow_at side lcid self.now.journal.flows }
    {
        self.flows.um_flow(side, lcid)
    }

    /// Takes the next SDU that goes up of the unacknowledged flow that a side sends on a logical
    /// channel, 0 to 10, for PDCP to read; `None` where there is none yet. SDUs may be taken at any
    /// time (`laws::taking_is_free`).
    pub fn next_joined(&mut self, side: Side, lcid: u8) -> Option<JoinedSdu>
        ensures value { result ≡ first_joined (um_flow_at side lcid self.old.journal.flows) }
        ensures rest { self.new ≡ after_taking side lcid self.old }
    {
        self.flows.next_joined(side, lcid)
    }

    /// Whether the block that a side sent last, which is the one that is got next, has a STATUS of
    /// a logical channel.
    pub fn carries_status(&self, from: Side, lcid: u8) -> bool
        ensures { result ≡ carries_status lcid (sent_last (sending_of from self.now.journal)) }
    {
        match from {
            Side::Nb => carries_status(&self.nb, lcid),
            Side::Ue => carries_status(&self.ue, lcid),
        }
    }

    /// The `line` record of an accepted line begins a group. `journal_form::has_layout` is true of
    /// it, as of every line that was read.
    pub fn begin_line(&mut self, line: &Line)
        requires { HasLayout line.now }
        ensures { self.new ≡ after_line line.now self.old }
    {
        if let Line::Bearer { config, .. } = line {
            let lcid = config.channel.lcid;
            self.kinds
                .set(lcid, config.kind, config.rlc_bits, config.pdcp_bits);
            self.flows.begin(self.alloc, config);
        }
        self.hands_over = is_handover(line);
    }

    /// A record of the group, which isn't its first. `may_take` says whether PDCP has an SDU that
    /// RLC may take, and counts where t-PollRetransmit expires.
    ///
    /// `NoMemory` where there is none, where a block has 2^28 octets or more, where an SDU or a
    /// field has 2^32 or nearly so many, and where 16,384 PDUs are told of before a block that
    /// carries them. Behind it nothing more is known.
    pub fn see(&mut self, one: &Record, may_take: bool) -> Result<(), NoMemory>
        ensures { OnOk result (self.new ≡ after_record may_take one.now self.old) }
    {
        match one {
            Record::Of { side, event } => self.happen(*side, event, may_take),
            Record::Block {
                direction,
                process,
                fresh: true,
                octets,
                ..
            } => self.load(*direction, *process, octets.as_slice()),
            Record::Block {
                direction,
                process,
                ..
            } => {
                self.resend(*direction, *process);
                Ok(())
            }
            Record::Air {
                direction,
                what,
                ..
            } => {
                if is_got(*what) {
                    self.land(*direction)
                } else {
                    Ok(())
                }
            }
            _ => Ok(()),
        }
    }

    /// The group has ended: with the next `line` record, the first `sum`, or the journal. Behind a
    /// handover each flow begins another life. Behind an `Err` nothing more is known.
    pub fn end_line(&mut self) -> Result<(), NoMemory>
        ensures { OnOk result (self.new ≡ after_group self.old) }
    {
        if self.hands_over {
            self.flows.end_lives()?;
            self.nb = Sending::new(self.alloc);
            self.ue = Sending::new(self.alloc);
            self.hands_over = false;
        }
        Ok(())
    }

    fn happen(&mut self, side: Side, event: &Event, may_take: bool) -> Result<(), NoMemory>
        ensures { OnOk result (self.new ≡ with_journal
            (behind_event accounts self.old.kinds may_take side event.now self.old.journal)
            self.old) }
    {
        match event {
            Event::Send { lcid, how, .. } => {
                let one = Named {
                    lcid: *lcid,
                    how: *how,
                };
                match side {
                    Side::Nb => self.nb.name(one),
                    Side::Ue => self.ue.name(one),
                }
            }
            _ => events::happen(&mut self.flows, &self.kinds, side, event, may_take),
        }
    }

    // A new block of a process.
    fn load(&mut self, direction: Direction, process: u32, octets: &[u8]) -> Result<(), NoMemory>
        ensures { OnOk result (self.new ≡ with_journal
            (behind_new accounts self.old.kinds direction process octets.now self.old.journal)
            self.old) }
    {
        if octets.len() >= OCTETS_LIMIT {
            return Err(NoMemory);
        }
        let from = sender_of(direction);
        let mut named = match from {
            Side::Nb => self.nb.take_named(),
            Side::Ue => self.ue.take_named(),
        };
        let flows = &mut self.flows;
        let parcels = load_block(
            self.alloc,
            &self.kinds,
            flows,
            from,
            direction,
            &mut named,
            octets,
        )?;
        match from {
            Side::Nb => self.nb.hold(process, parcels, named),
            Side::Ue => self.ue.hold(process, parcels, named),
        }
        Ok(())
    }

    // The block of a process is sent again.
    fn resend(&mut self, direction: Direction, process: u32)
        ensures { self.new ≡ with_journal
            (behind_again direction process self.old.journal) self.old }
    {
        match sender_of(direction) {
            Side::Nb => self.nb.resend(process),
            Side::Ue => self.ue.resend(process),
        }
    }

    // The block that was sent last is got.
    fn land(&mut self, direction: Direction) -> Result<(), NoMemory>
        ensures { OnOk result (self.new ≡ with_journal
            (behind_landing accounts direction self.old.journal) self.old) }
    {
        let flows = &mut self.flows;
        match sender_of(direction) {
            Side::Nb => come_all(self.alloc, flows, Side::Nb, &self.nb),
            Side::Ue => come_all(self.alloc, flows, Side::Ue, &self.ue),
        }
    }
}
