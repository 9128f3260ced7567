//! The cutting of new PDUs.
ghost use Rattle.std.specs.Prelude.{◌≡◌, ◌<◌, ◌≤◌, ◌+◌, ◌^◌, ◌++◌, length, map, OnOk, IfOk};
ghost use Rattle.std.specs.Prelude.{if◌then◌else◌, not, true};
ghost use Rattle.std.specs.List.{concat, sum};
ghost use Rattle.rlc_pdu.specs.Pdus.{AreLens};
ghost use Rattle.rlc_pdu.specs.Writing.{header_len};
ghost use Rattle.rlc_queue.specs.NewPdu.{room, elements, rest, partial, fits_more, framing, ended};
ghost use Rattle.rlc_queue.specs.NewPdu.{filling, IsFilled, IsFuller};

use crate::queue::Queue;
use l2_bits::{Bytes, NoMemory};
use std::alloc::Global;

// The longest element that another may follow: an LI has 11 bits.
const LONGEST: usize = 2047;

/// What a new data PDU carries.
#[derive(Debug, Drop)]
pub struct NewPdu {
    /// Whether the first element begins an SDU.
    pub begins: bool,
    /// Whether the last element ends an SDU.
    pub ends: bool,
    /// How many octets each element has.
    pub lens: Vec<u32>,
    /// The octets of the elements, one behind the other.
    pub field: Bytes,
}

impl NewPdu {
    /// FI (TS 36.322 6.2.2.6).
    pub fn framing(&self) -> u8
        ensures value { result ≡ framing self.now.begins self.now.ends }
        ensures below { result < 4 }
    {
        framing(self.begins, self.ends)
    }

    /// How many SDUs end in this PDU.
    pub fn ended(&self) -> usize
        ensures { result ≡ ended self.now }
    {
        if self.ends {
            self.lens.len()
        } else {
            self.lens.len().saturating_sub(1)
        }
    }
}

/// FI of a field: its upper bit is 0 exactly where the field begins an SDU, its lower bit exactly
/// where it ends one (TS 36.322 6.2.2.6).
pub fn framing(begins: bool, ends: bool) -> u8
    ensures value { result ≡ framing begins ends }
    ensures below { result < 4 }
{
    (if begins { 0 } else { 2 }) + (if ends { 0 } else { 1 })
}

/// Cuts the next new PDU of at most `size` octets from the SDUs that wait. `head` is the size of
/// the header of a PDU of one element: 1 octet for a UMD PDU with a number of 5 bits, else 2.
///
/// Elements are added while the last one ended its SDU, has at most 2047 octets, and one octet of
/// the next fits. Each is as long as fits. Octets are copied once, into the field. After an `Err`
/// the queue holds no more than it held.
#[tactic(auto, using(crate::proofs::Lens::lens))]
pub fn new_pdu(
    queue: &mut Queue,
    alloc: Global,
    head: usize,
    size: usize,
) -> Result<NewPdu, NoMemory>
    requires head { head ≤ 2 }
    requires size { size < 2 ^ 32 }
    ensures begins { IfOk result (λ p. p.begins ≡ not queue.old.begun) }
    ensures ends { IfOk result
        (λ p. p.ends ≡ not (partial head size 0 0 queue.old.begun queue.old.sdus)) }
    ensures lens { IfOk result (λ p. p.lens.items
        ≡ map length (elements head size 0 0 queue.old.sdus)) }
    ensures field { IfOk result (λ p. p.field ≡ concat (elements head size 0 0 queue.old.sdus)) }
    ensures sdus { OnOk result (queue.new.sdus ≡ rest head size 0 0 queue.old.sdus) }
    ensures begun { OnOk result (queue.new.begun
        ≡ partial head size 0 0 queue.old.begun queue.old.sdus) }

    // Where something waits and an octet of it fits, a PDU can be written of this, and fits.
    ensures written { IfOk result (λ p. 0 < length queue.old.sdus → head < size
        → AreLens p.lens.items) }
    ensures whole { IfOk result (λ p. sum p.lens.items ≡ length p.field) }
    ensures within { IfOk result (λ p. 0 < length queue.old.sdus → head < size
        → header_len head (length p.lens.items) + length p.field ≤ size) }
{
    let begins = !queue.is_begun();
    let most = queue.octets().min(size as u64) as usize;
    let mut lens = Vec::new(alloc);
    let mut field = Bytes::with_capacity(alloc, most)?;
    fill(queue, head, size, &mut lens, &mut field)?;
    Ok(NewPdu {
        begins,
        ends: !queue.is_begun(),
        lens,
        field,
    })
}

// Adds elements as long as one fits and may follow.
fn fill(
    queue: &mut Queue,
    head: usize,
    size: usize,
    lens: &mut Vec<u32>,
    field: &mut Bytes,
) -> Result<(), NoMemory>
    requires head { head ≤ 2 }
    requires size { size < 2 ^ 32 }
    ensures { OnOk result (IsFilled head size (filling lens.old.items field.old queue.old)
        (filling lens.new.items field.new queue.new)) }
{
    'elements: while add_element(queue, head, size, lens, field)? {}
    Ok(())
}

// Adds the next element, if one fits, and returns whether another may follow.
#[tactic(auto, using(crate::proofs::Steps::ends))]
fn add_element(
    queue: &mut Queue,
    head: usize,
    size: usize,
    lens: &mut Vec<u32>,
    field: &mut Bytes,
) -> Result<bool, NoMemory>
    requires head { head ≤ 2 }
    requires size { size < 2 ^ 32 }
    ensures element { IfOk result (λ more. IsFuller head size more
        (filling lens.old.items field.old queue.old)
        (filling lens.new.items field.new queue.new)) }
    ensures fewer { IfOk result (λ more. more ≡ true
        → length queue.new.sdus < length queue.old.sdus) }
{
    let space = space(head, size, lens.len(), field.as_slice().len());
    if space == 0 || queue.is_empty() {
        return Ok(false);
    }
    let left = queue.first().len();
    let taken = queue.pull(space, field)?;
    lens.push(taken as u32)?;
    Ok(left <= space && left <= LONGEST)
}

/// Whether all SDUs that wait would go whole into a new PDU of at most `size` octets, with an octet
/// of a further SDU.
#[tactic(auto, using(crate::proofs::Steps::fits))]
pub fn has_room(queue: &Queue, head: usize, size: usize) -> bool
    requires head { head ≤ 2 }
    requires size { size < 2 ^ 32 }
    ensures { result ≡ fits_more head size 0 0 queue.now.sdus }
{
    let mut at = 0;
    let mut used = 0;
    while at < queue.len() {
        let len = queue.len_at(at);
        let space = space(head, size, at, used);
        if len > space || len > LONGEST || space == 0 {
            return false;
        }
        used += len;
        at += 1;
    }
    space(head, size, at, used) > 0
}

// The octets that a further element may have behind so many elements with so many octets.
fn space(head: usize, size: usize, count: usize, used: usize) -> usize
    requires head { head ≤ 2 }
    requires size { size < 2 ^ 32 }
    ensures { result ≡ room head size count used }
{
    if count >= size || used >= size {
        0
    } else {
        size.saturating_sub(head + (12 * count + 7) / 8 + used)
    }
}
