// The octets of a flow in a life at its sender, and their marks.
ghost use Rattle.std.specs.Prelude.{◌≡◌, ◌<◌, IfOk, OnOk};
ghost use Rattle.rlc_pdu.specs.declared.constants.TheConstants.{AM_MODULUS};
ghost use Rattle.rlc_am_rx_window.specs.Piece.{so_of};
ghost use Rattle.law_words.specs.Passing.{last_with};
ghost use Rattle.journal_stream.specs.SentOctets.{has_next, next_number};
ghost use Rattle.journal_sent.specs.SentPdus.{accounts, nothing_sent, with_given, with_forgotten};
ghost use Rattle.journal_sent.specs.SentPdus.{new_verdict, written_in, with_written, has_sn};
ghost use Rattle.journal_sent.specs.SentPdus.{is_last_in, number_verdict};

use crate::marks::sdu_marks;
use crate::verdict::Verdict;
use journal_stream::SentOctets;
use l2_bits::{Bytes, NoMemory};
use rlc_pdu::{AM_MODULUS, Segment};
use std::alloc::Global;
use std::marker::Model;

#[derive(Drop)]
pub(crate) struct Stream {
    octets: SentOctets,
    marks: SentOctets,
}

impl Model for Stream {
    ghost use Rattle.journal_stream.specs.SentOctets.{SentOctets as Octets};
    ghost use Rattle.journal_sent.specs.SentPdus.{Stream};

    ghost Value = { Stream Octets };

    ghost view = { λ s. record { octets = s.octets; marks = s.marks } };
}

// Writes a field, if it comes next; whether it does.
fn write_next(octets: &mut SentOctets, field: Bytes) -> Result<bool, NoMemory>
    ensures value { IfOk result (λ is. is ≡ has_next field octets.old) }
    ensures new { OnOk result (octets.new ≡ written_in accounts field octets.old) }
{
    if !octets.comes_next(field.as_slice()) {
        return Ok(false);
    }
    octets.write(field)?;
    Ok(true)
}

// The fields of the numbers below one are forgotten.
fn forget_below(octets: &mut SentOctets, number: u64) -> Result<(), NoMemory>
    ensures { OnOk result (octets.new ≡ accounts.forgets number octets.old) }
{
    octets.forget(number.saturating_sub(octets.base()))
}

// The last of so many numbers that has an SN.
fn last_with(sn: u32, count: u64) -> Result<u64, NoMemory>
    requires { sn < AM_MODULUS }
    ensures { IfOk result (λ n. n ≡ last_with sn count) }
{
    let Some(past) = count.checked_add(AM_MODULUS - 1) else {
        return Err(NoMemory);
    };
    let back = (past - u64::from(sn)) % AM_MODULUS;
    Ok(count.saturating_sub(1).saturating_sub(back))
}

fn has_sn(number: u64, sn: u32, many: u64) -> bool
    ensures { result ≡ has_sn number sn many }
{
    number < many && number % AM_MODULUS == u64::from(sn)
}

fn so_of(segment: Option<Segment>) -> u32
    ensures { result ≡ so_of segment }
{
    match segment {
        Some(segment) => segment.so,
        None => 0,
    }
}

// A segment says whether it ends a field.
fn is_last_in(segment: Option<Segment>, ends: bool) -> bool
    ensures { result ≡ is_last_in segment ends }
{
    match segment {
        Some(segment) => segment.last == ends,
        None => true,
    }
}

// Behind an `Err` nothing is known.
impl Stream {
    // As a life begins. It takes no memory.
    pub(crate) fn new(alloc: Global) -> Stream
        ensures { result ≡ nothing_sent accounts }
    {
        Stream {
            octets: SentOctets::new(alloc),
            marks: SentOctets::new(alloc),
        }
    }

    // How many numbers are written.
    pub(crate) fn next(&self) -> Result<u64, NoMemory>
        ensures { IfOk result (λ n. n ≡ next_number self.now.octets) }
    {
        self.octets.next()
    }

    // RLC is given a PDU of PDCP.
    pub(crate) fn give(&mut self, alloc: Global, pdu: &[u8]) -> Result<(), NoMemory>
        ensures { OnOk result (self.new ≡ with_given accounts pdu.now self.old) }
    {
        let marks = sdu_marks(alloc, pdu.len())?;
        self.octets.take(pdu)?;
        self.marks.take(marks.as_slice())
    }

    // The fields of the numbers below one are forgotten.
    pub(crate) fn forget(&mut self, number: u64) -> Result<(), NoMemory>
        ensures { OnOk result (self.new ≡ with_forgotten accounts number self.old) }
    {
        forget_below(&mut self.octets, number)?;
        forget_below(&mut self.marks, number)
    }

    // A new PDU with this SN, in a modulus; `plain`: it is no segment.
    pub(crate) fn write(
        &mut self,
        modulus: u64,
        sn: u32,
        plain: bool,
        field: Bytes,
        marks: Bytes,
    ) -> Result<Verdict, NoMemory>
        requires { 0 < modulus }
        ensures verdict { IfOk result
            (λ v. v ≡ new_verdict accounts modulus sn plain field marks self.old) }
        ensures new { OnOk result (self.new ≡ with_written accounts field marks self.old) }
    {
        let is_next = u64::from(sn) == self.next()? % modulus;
        let are_next = write_next(&mut self.octets, field)?;
        let are_marked = write_next(&mut self.marks, marks)?;
        Ok(Verdict {
            sent: plain && are_next,
            shaped: is_next && are_marked,
        })
    }

    // The number of which octets with an SN are sent again.
    pub(crate) fn last_with(&self, sn: u32) -> Result<u64, NoMemory>
        requires { sn < AM_MODULUS }
        ensures { IfOk result (λ n. n ≡ last_with sn (next_number self.now.octets)) }
    {
        last_with(sn, self.next()?)
    }

    // Octets of a number, which is open or isn't, are sent again.
    pub(crate) fn judge(
        &self,
        number: u64,
        is_open: bool,
        sn: u32,
        segment: Option<Segment>,
        field: &[u8],
        marks: &[u8],
    ) -> Result<Verdict, NoMemory>
        ensures { IfOk result (λ v. v ≡ number_verdict accounts (λ n. is_open) number sn segment
            field.now marks.now self.now) }
    {
        let so = so_of(segment);
        let end = u64::from(so)
            .checked_add(field.len() as u64)
            .ok_or(NoMemory)?;
        let ends = self.octets.ends_at(number, end);
        let is_own = has_sn(number, sn, self.next()?) && is_open;
        let stands = self.octets.stand(number, so, field) && (segment.is_some() || ends);
        let is_marked = self.marks.stand(number, so, marks);
        Ok(Verdict {
            sent: is_own && stands,
            shaped: is_open && is_marked && is_last_in(segment, ends),
        })
    }
}
