// The sender of an unacknowledged flow in the life that runs: numbers, and where SDUs end.
ghost use Rattle.std.specs.Prelude.{◌≡◌, ◌<◌, true, false, length, OnOk, IfOk};
ghost use Rattle.journal_account.specs.FlowEvents.{SduTaken, NumberWritten};
ghost use Rattle.journal_flows.specs.UmKept.{nothing_written, settled, sender_with};

use l2_bits::{Items, NoMemory};
use std::alloc::Global;
use std::marker::Model;

#[derive(Drop)]
pub(crate) struct UmSender {
    next: u64,
    // So many SDUs were written to their ends, and so many octets of those that weren't, which have
    // these sizes.
    ended: u64,
    into: u64,
    left: Items<u32>,
}

impl Model for UmSender {
    ghost use Rattle.journal_flows.specs.UmKept.{UmSender as Sender};

    ghost Value = { Sender };

    ghost view = { λ s. record {
      next = s.next;
      ended = s.ended;
      into = s.into;
      left = s.left;
    } };
}

impl UmSender {
    pub(crate) fn new(alloc: Global) -> UmSender
        ensures { result ≡ nothing_written }
    {
        UmSender {
            next: 0,
            ended: 0,
            into: 0,
            left: Items::new(alloc),
        }
    }

    // The number that is written next.
    pub(crate) fn next(&self) -> u64
        ensures { result ≡ self.now.next }
    {
        self.next
    }

    // The place of the SDU of the octets that are written next.
    pub(crate) fn place(&self) -> u64
        ensures { result ≡ self.now.ended }
    {
        self.ended
    }

    // RLC takes an SDU of so many octets.
    pub(crate) fn take(&mut self, size: u32) -> Result<(), NoMemory>
        ensures { OnOk result (self.new ≡ sender_with (SduTaken size) self.old) }
    {
        self.left.push(size)?;
        self.settle()
    }

    // The next number is written, with so many octets.
    pub(crate) fn write(&mut self, size: u32) -> Result<(), NoMemory>
        ensures { OnOk result (self.new ≡ sender_with (NumberWritten size) self.old) }
    {
        self.next = self.next.checked_add(1).ok_or(NoMemory)?;
        self.into = self.into.checked_add(u64::from(size)).ok_or(NoMemory)?;
        self.settle()
    }

    // SDUs that were written to their ends are left out.
    fn settle(&mut self) -> Result<(), NoMemory>
        ensures { OnOk result
            (self.new ≡ settled self.old.next self.old.ended self.old.into self.old.left) }
    {
        'sdus: while self.end_one()? {}
        Ok(())
    }

    // The first SDU that is left is left out, if it was written to its end.
    #[tactic(auto, using(crate::proofs::Settling::settles))]
    fn end_one(&mut self) -> Result<bool, NoMemory>
        ensures same { IfOk result (λ more. settled self.new.next self.new.ended self.new.into
            self.new.left ≡ settled self.old.next self.old.ended self.old.into self.old.left) }
        ensures done { IfOk result (λ more. more ≡ false
            → settled self.old.next self.old.ended self.old.into self.old.left ≡ self.new) }
        ensures fewer { IfOk result
            (λ more. more ≡ true → length self.new.left < length self.old.left) }
    {
        let into = self.into;
        let Some(size) = self.left.get(0) else {
            return Ok(false);
        };
        let size = u64::from(*size);
        if size > into {
            return Ok(false);
        }
        self.ended = self.ended.checked_add(1).ok_or(NoMemory)?;
        self.into = into - size;
        let _ended = self.left.pop_front();
        Ok(true)
    }
}
