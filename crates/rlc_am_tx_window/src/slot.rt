ghost use Rattle.std.specs.Prelude.{◌≡◌, ◌+◌, ◌-◌, ◌*◌, ◌<◌, ◌≤◌, ◌^◌, ◌==◌, ◌&&◌, not, OnOk};
ghost use Rattle.std.specs.Prelude.{OnErr, IfOk, IfSome, MatchOption, min, [], ◌∷◌, length, false};
ghost use Rattle.std.specs.Prelude.{true};
ghost use Rattle.std.specs.List.{sum};
ghost use Rattle.rlc_pdu.specs.Pdus.{AreLens, IsSegment};
ghost use Rattle.rlc_pdu.specs.Grammar.{has_segment};
ghost use Rattle.rlc_pdu.specs.Runs.{gap_in, removed, run_between};
ghost use Rattle.rlc_pdu.specs.Writing.{amd_written, header_len};
ghost use Rattle.rlc_am_tx_window.specs.Sent.{fresh, first_waiting, is_waiting, is_all, all_wait};
ghost use Rattle.rlc_am_tx_window.specs.Sent.{waiting_octets, whole_size, segment_size};
ghost use Rattle.rlc_am_tx_window.specs.Sent.{resend_size, stretch_in, stretch_size, next_stretch};
ghost use Rattle.rlc_am_tx_window.specs.Sent.{rested, sent_part, named_range, start_of, stop_of};
ghost use Rattle.rlc_am_tx_window.specs.Sent.{with_name, counted, considered, gets_acked};
ghost use Rattle.rlc_am_tx_window.specs.Sent.{acknowledged, recalled, is_spent, woken};
ghost use Rattle.rlc_am_tx_window.specs.Sent.{waiting_between, Lies};
ghost use Rattle.rlc_am_tx_window.specs.Written.{begins_at, ends_at, whole_octets, part_octets};

use crate::cut::{clip, clip_count, cut, is_cut, total};
use l2_bits::{Bytes, NoMemory};
use rlc_pdu::{AM_MODULUS, Intervals, Part, Segment, write_amd};
use rlc_queue::framing;
use std::alloc::Global;
use std::marker::Model;

/// A segment to be sent: where it begins and ends in the data field, and the lengths of its
/// elements.
#[derive(Drop)]
pub struct Stretch {
    from: u32,
    to: u32,
    lens: Vec<u32>,
}

impl Model for Stretch {
    ghost use Rattle.std.specs.Prelude.{◌≡◌, ◌+◌, ◌<◌, ◌^◌};
    ghost use Rattle.std.specs.List.{sum};
    ghost use Rattle.rlc_pdu.specs.Pdus.{AreLens};
    ghost use Rattle.rlc_am_tx_window.specs.Sent.{Stretch};

    ghost Value = { Stretch };

    ghost view = { λ s. record { from = s.from; to = s.to; lens = s.lens.items } };

    ghost invariant = { λ s. AreLens s.lens.items × (s.from + sum s.lens.items ≡ s.to) × (s.to < 2 ^ 15) };
}

impl Stretch {
    /// Where it begins in the data field.
    pub fn from(&self) -> u32
        ensures { result ≡ self.now.from }
    {
        self.from
    }

    /// The place behind its last octet.
    pub fn to(&self) -> u32
        ensures { result ≡ self.now.to }
    {
        self.to
    }
}

/// A PDU that was sent.
#[derive(Drop)]
pub struct Slot {
    alloc: Global,
    field: Bytes,
    lens: Vec<u32>,
    begins: bool,
    ends: bool,
    place: u64,
    // No octet waits, whatever is in `resting`.
    idle: bool,
    // The octets that don't wait, where some do.
    resting: Intervals,
    retransmissions: Option<u32>,
    acked: bool,
    named: Option<bool>,
}

impl Model for Slot {
    ghost use Rattle.std.specs.Prelude.{◌≡◌, ◌<◌, ◌^◌, length};
    ghost use Rattle.std.specs.List.{sum};
    ghost use Rattle.rlc_pdu.specs.Pdus.{AreLens};
    ghost use Rattle.rlc_am_tx_window.specs.Sent.{Sent, resting_of};

    ghost Value = { Sent };

    ghost view = { λ s. record {
      field = s.field;
      lens = s.lens.items;
      begins = s.begins;
      ends = s.ends;
      place = s.place;
      resting = resting_of s.idle (length s.field) s.resting;
      retransmissions = s.retransmissions;
      acked = s.acked;
      named = s.named;
    } };

    ghost invariant = { λ s. AreLens s.lens.items × (sum s.lens.items ≡ length s.field)
        × (length s.field < 2 ^ 15) × (s.place < 2 ^ 63) };
}

impl Slot {
    /// A PDU that is sent now: its data field, the lengths of its elements, whether the first
    /// begins and the last ends an SDU, and the place of the first one's SDU among those offered.
    pub fn new(
        alloc: Global,
        field: Bytes,
        lens: Vec<u32>,
        begins: bool,
        ends: bool,
        place: u64,
    ) -> Slot
        requires lens { AreLens lens.items }
        requires whole { sum lens.items ≡ length field }
        requires short { length field < 2 ^ 15 }
        requires place { place < 2 ^ 63 }
        ensures { result ≡ fresh field lens.items begins ends place }
    {
        Slot {
            alloc,
            field,
            lens,
            begins,
            ends,
            place,
            idle: true,
            resting: Intervals::new(alloc),
            retransmissions: None,
            acked: false,
            named: None,
        }
    }

    // The length of the data field.
    fn size(&self) -> u32
        ensures value { result ≡ length self.now.field }
        ensures short { result < 2 ^ 15 }
    {
        self.field.as_slice().len() as u32
    }

    /// The lengths of the elements.
    pub fn lens(&self) -> &[u32]
        ensures { result.now ≡ self.now.lens }
    {
        &self.lens
    }

    /// The place of the first element's SDU among those offered.
    pub fn place(&self) -> u64
        ensures value { result ≡ self.now.place }
        ensures below { result < 2 ^ 63 }
    {
        self.place
    }

    /// Whether the PDU is acknowledged.
    pub fn is_acked(&self) -> bool
        ensures { result ≡ self.now.acked }
    {
        self.acked
    }

    /// The first octets that wait to be resent.
    #[tactic(auto, using(crate::proofs::SlotSteps::gaps))]
    pub fn first_waiting(&self) -> Option<Part>
        ensures value { result ≡ first_waiting self.now }
        ensures lies { IfSome result (Lies 0 (length self.now.field)) }
    {
        if self.idle {
            return None;
        }
        self.resting.gap(0, self.size())
    }

    /// Whether an octet waits to be resent.
    pub fn is_waiting(&self) -> bool
        ensures { result ≡ is_waiting self.now }
    {
        self.first_waiting().is_some()
    }

    /// Whether all octets wait to be resent.
    pub fn all_wait(&self) -> bool
        ensures { result ≡ all_wait self.now }
    {
        is_all(self.first_waiting(), 0, self.size())
    }

    /// Whether RETX_COUNT has reached a limit.
    pub fn is_spent(&self, most: u32) -> bool
        ensures { result ≡ is_spent self.now.retransmissions most }
    {
        match self.retransmissions {
            Some(count) => most <= count,
            None => false,
        }
    }

    /// The octets of the whole PDU.
    #[tactic(auto, using(crate::proofs::CutSteps::few))]
    pub fn whole_size(&self) -> u32
        ensures value { result ≡ whole_size self.now }
        ensures below { result < 2 ^ 17 }
    {
        header_len(2, self.lens.len()) + self.size()
    }

    /// The octets of what is resent first: the PDU where all its octets wait, else a segment with
    /// the first octets that wait.
    pub fn resend_size(&self) -> u32
        ensures { result ≡ resend_size self.now }
    {
        match self.first_waiting() {
            None => 0,
            Some(part) => {
                if is_all(Some(part), 0, self.size()) {
                    self.whole_size()
                } else {
                    self.segment_size(part.start, part.end + 1)
                }
            }
        }
    }

    // The octets of a segment with all the octets from a place below another.
    #[tactic(auto, using(crate::proofs::CutSteps::few))]
    fn segment_size(&self, from: u32, to: u32) -> u32
        requires { to ≤ 2 ^ 15 }
        ensures { result ≡ segment_size self.now from to }
    {
        header_len(4, clip_count(&self.lens, from, to)) + to.saturating_sub(from)
    }

    /// How many octets wait to be resent.
    pub fn waiting_octets(&self) -> u32
        ensures value { result ≡ waiting_octets self.now }
        ensures below { result < 2 ^ 15 }
    {
        if self.idle {
            0
        } else {
            missing(&self.resting, self.size())
        }
    }

    // Whether an SDU begins at a place of the data field.
    fn begins_at(&self, at: u32) -> bool
        ensures { result ≡ begins_at self.now at }
    {
        if at == 0 {
            self.begins
        } else {
            is_cut(&self.lens, at)
        }
    }

    // Whether an SDU ends at a place of the data field.
    fn ends_at(&self, at: u32) -> bool
        ensures { result ≡ ends_at self.now at }
    {
        if at == self.size() {
            self.ends
        } else {
            is_cut(&self.lens, at)
        }
    }

    /// Writes the PDU.
    pub fn write_whole(&self, alloc: Global, number: u64, poll: bool) -> Result<Bytes, NoMemory>
        ensures value { IfOk result (λ pdu. pdu ≡ whole_octets self.now number poll) }
        ensures len { IfOk result (λ pdu. length pdu ≡ whole_size self.now) }
    {
        let sn = (number % AM_MODULUS) as u32;
        let fi = framing(self.begins, self.ends);
        written(alloc, sn, poll, fi, None, &self.lens, self.field.as_slice())
    }

    /// Writes a segment of the PDU.
    pub fn write_part(
        &self,
        alloc: Global,
        number: u64,
        poll: bool,
        stretch: &Stretch,
    ) -> Result<Bytes, NoMemory>
        requires { stretch.now.to ≤ length self.now.field }
        ensures value { IfOk result (λ pdu. pdu ≡ part_octets self.now number poll stretch.now) }
        ensures len { IfOk result (λ pdu. length pdu ≡ stretch_size stretch.now) }
    {
        let sn = (number % AM_MODULUS) as u32;
        let fi = framing(self.begins_at(stretch.from), self.ends_at(stretch.to));
        let segment = Segment {
            last: stretch.to == self.size(),
            so: stretch.from,
        };
        let octets = &self.field.as_slice()[stretch.from as usize..stretch.to as usize];
        written(alloc, sn, poll, fi, Some(segment), &stretch.lens, octets)
    }

    /// The longest segment of at most so many octets with the first octets that wait.
    pub fn next_stretch(&self, size: u32) -> Result<Stretch, NoMemory>
        requires waits { is_waiting self.now ≡ true }
        requires room { 5 ≤ size }
        ensures value { IfOk result (λ s. s ≡ next_stretch self.now size) }
        ensures some { IfOk result (λ s. s.from < s.to) }
        ensures within { IfOk result (λ s. s.to ≤ length self.now.field) }
        ensures fits { IfOk result (λ s. stretch_size s ≤ size) }
    {
        match self.first_waiting() {
            Some(part) => self.stretch_in(size, part),
            None => unreachable!(),
        }
    }

    // The longest segment of at most so many octets that begins with a part and lies in it.
    #[tactic(auto, using(crate::proofs::CutSteps::stretches, crate::proofs::CutFits::fits))]
    fn stretch_in(&self, size: u32, part: Part) -> Result<Stretch, NoMemory>
        requires some { part.start ≤ part.end }
        requires within { part.end < length self.now.field }
        requires room { 5 ≤ size }
        ensures value { IfOk result (λ s. s ≡ stretch_in self.now size part) }
        ensures some { IfOk result (λ s. s.from < s.to) }
        ensures within { IfOk result (λ s. s.to ≤ length self.now.field) }
        ensures fits { IfOk result (λ s. stretch_size s ≤ size) }
    {
        let all = clip(self.alloc, &self.lens, part.start, part.end + 1)?;
        let lens = cut(self.alloc, &all, size - 4)?;
        let to = part.start + total(&lens);
        Ok(Stretch {
            from: part.start,
            to,
            lens,
        })
    }

    /// Names octets for retransmission, as an entry of a STATUS does: all, or a range that is cut
    /// to the data field. An `Err` changes nothing.
    pub fn name(&mut self, part: Option<Part>) -> Result<(), NoMemory>
        ensures ok { OnOk result (self.new ≡ with_name self.old part) }
        ensures err { OnErr result (self.new ≡ self.old) }
    {
        if self.acked {
            return Ok(());
        }
        self.name_range(start_of(part), stop_of(part, self.size()))
    }

    fn name_range(&mut self, from: u32, to: u32) -> Result<(), NoMemory>
        requires { to ≤ length self.old.field }
        ensures ok { OnOk result (self.new ≡ named_range self.old from to) }
        ensures err { OnErr result (self.new ≡ self.old) }
    {
        let new = self.named.unwrap_or(false);
        if from < to {
            let rests = !is_all(self.gap(from, to), from, to);
            self.wake(from, to)?;
            self.named = Some(new || rests);
        } else {
            self.named = Some(new);
        }
        Ok(())
    }

    // The first octets that wait, at or above a place and below another.
    fn gap(&self, from: u32, to: u32) -> Option<Part>
        requires { to ≤ length self.now.field }
        ensures { result ≡ gap_in self.now.resting from to }
    {
        if self.idle {
            return None;
        }
        self.resting.gap(from, to)
    }

    // Octets wait from now on. An `Err` changes nothing.
    fn wake(&mut self, from: u32, to: u32) -> Result<(), NoMemory>
        requires some { from < to }
        requires within { to ≤ length self.old.field }
        ensures ok { OnOk result
            (self.new ≡ record self.old {
              resting =
                  woken (length self.old.field) self.old.resting from to;
            }) }
        ensures err { OnErr result (self.new ≡ self.old) }
    {
        let size = self.size();
        if from == 0 && to == size {
            self.resting.clear();
        } else if self.idle {
            self.resting = rest_but(self.alloc, size, from, to)?;
        } else {
            self.resting.remove(from, to)?;
        }
        self.idle = false;
        Ok(())
    }

    /// Ends a STATUS that named the PDU: it is considered for retransmission.
    pub fn consider(&mut self, most: u32)
        ensures { self.new ≡ considered most self.old }
    {
        match self.named {
            Some(new) => {
                self.retransmissions = counted(self.retransmissions, most, new);
                self.named = None;
            }
            None => {}
        }
    }

    /// Whether a STATUS acknowledges the PDU that it doesn't reach with an entry.
    pub fn gets_acked(&self) -> bool
        ensures { result ≡ gets_acked self.now }
    {
        !self.acked && self.named.is_none()
    }

    /// Acknowledges the PDU.
    pub fn acknowledge(&mut self)
        requires { gets_acked self.old ≡ true }
        ensures { self.new ≡ acknowledged self.old }
    {
        self.acked = true;
        self.idle = true;
    }

    /// An expiry of the poll timer names all octets. It takes no memory.
    pub fn recall(&mut self, most: u32)
        ensures { self.new ≡ recalled most self.old }
    {
        self.retransmissions = counted(self.retransmissions, most, true);
        self.resting.clear();
        self.idle = false;
    }

    /// No octet waits any longer.
    pub fn rest(&mut self)
        ensures { self.new ≡ rested self.old }
    {
        self.idle = true;
    }

    /// Octets of a segment don't wait any longer. An `Err` changes nothing.
    pub fn rest_part(&mut self, from: u32, to: u32) -> Result<(), NoMemory>
        requires some { from < to }
        requires within { to ≤ length self.old.field }
        ensures ok { OnOk result (self.new ≡ sent_part self.old from to) }
        ensures err { OnErr result (self.new ≡ self.old) }
    {
        if !self.idle {
            self.resting.add(from, to)?;
        }
        Ok(())
    }
}

// The octets of a PDU, or of a segment of one.
fn written(
    alloc: Global,
    sn: u32,
    poll: bool,
    fi: u8,
    segment: Option<Segment>,
    lens: &[u32],
    field: &[u8],
) -> Result<Bytes, NoMemory>
    requires number { sn < 2 ^ 10 }
    requires framing { fi < 4 }
    requires segment { IsSegment segment }
    requires lens { AreLens lens.now }
    requires whole { sum lens.now ≡ length field.now }
    ensures value { IfOk result (λ octets. octets
        ≡ amd_written sn poll fi segment lens.now field.now) }
    ensures len { IfOk result (λ octets. length octets
        ≡ header_len (2 + 2 * has_segment segment) (length lens.now) + sum lens.now) }
{
    let octets = write_amd(alloc, sn, poll, fi, segment, lens, field)?;
    Ok(octets)
}

// The set of all octets of a field but those from a place below another.
fn rest_but(alloc: Global, size: u32, from: u32, to: u32) -> Result<Intervals, NoMemory>
    requires some { from < to }
    requires within { to ≤ size }
    requires short { size < 2 ^ 15 }
    ensures { IfOk result (λ i. i ≡ removed (run_between 0 size ∷ []) from to) }
{
    let mut resting = Intervals::new(alloc);
    resting.add(0, size)?;
    resting.remove(from, to)?;
    Ok(resting)
}

// The next places that aren't in a set.
#[tactic(auto, using(crate::proofs::SlotSteps::gap_steps))]
fn next_gap(resting: &Intervals, at: u32, size: u32) -> Option<Part>
    ensures lies { IfSome result (Lies at size) }
    ensures rest { MatchOption result (waiting_between at size resting.now ≡ 0)
        (λ p. waiting_between at size resting.now
        ≡ (p.end + 1 - p.start) + waiting_between (p.end + 1) size resting.now) }
{
    resting.gap(at, size)
}

// How many places below one aren't in a set.
fn missing(resting: &Intervals, size: u32) -> u32
    requires { size < 2 ^ 15 }
    ensures value { result ≡ waiting_between 0 size resting.now }
    ensures below { result < 2 ^ 15 }
{
    let mut count = 0;
    let mut at = 0;
    while let Some(part) = next_gap(resting, at, size) {
        count += part.end + 1 - part.start;
        at = part.end + 1;
    }
    count
}

// Whether octets are all those from a place below another.
fn is_all(part: Option<Part>, from: u32, to: u32) -> bool
    ensures { result ≡ is_all part from to }
{
    match part {
        Some(part) => part.start == from && part.end < to && part.end + 1 == to,
        None => false,
    }
}

// The octets of a header with a fixed part of so many and of n elements.
fn header_len(fixed: u32, count: usize) -> u32
    requires fixed { fixed ≤ 4 }
    requires few { count < 2 ^ 15 }
    ensures value { result ≡ header_len fixed count }
    ensures below { result < 2 ^ 16 }
{
    fixed + ((12 * count.saturating_sub(1) + 7) / 8) as u32
}

// Where the octets begin that an entry names, and the place behind them.
fn start_of(part: Option<Part>) -> u32
    ensures { result ≡ start_of part }
{
    match part {
        Some(part) => part.start,
        None => 0,
    }
}

fn stop_of(part: Option<Part>, size: u32) -> u32
    ensures value { result ≡ stop_of part size }
    ensures below { result ≤ size }
{
    match part {
        Some(part) => { if part.end < size { part.end + 1 } else { size } }
        None => size,
    }
}

// RETX_COUNT after a naming.
fn counted(count: Option<u32>, most: u32, new: bool) -> Option<u32>
    ensures { result ≡ counted count most new }
{
    match count {
        None => Some(0),
        Some(count) => {
            if new && count < most {
                Some(count + 1)
            } else {
                Some(count)
            }
        }
    }
}
