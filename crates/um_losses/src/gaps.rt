// The gaps in what arrives of a flow and in what it hands up.
ghost use Rattle.std.specs.Prelude.{◌≡◌, OnOk};
ghost use Rattle.rlc_pdu.specs.Pdus.{IsUmBits};
ghost use Rattle.rlc_um.specs.Sender.{width_of};
ghost use Rattle.um_losses.specs.Gaps.{no_gaps, numbered, counted, all_counted, restarted};
ghost use Rattle.um_losses.specs.Tags.{last_tag};

use crate::tags::last_tag;
use l2_bits::{NoMemory, Packets};
use rlc_pdu::{UM_LONG_WINDOW_SIZE, UM_SHORT_WINDOW_SIZE};

#[derive(Drop)]
pub(crate) struct Gaps {
    // UM_Window_Size, and how many sequence numbers PDCP has.
    pub(crate) width: u64,
    pub(crate) counts: u64,
    // One above the highest number that arrived in this life, and one above the last COUNT handed
    // up; 0 at first.
    pub(crate) top: u64,
    pub(crate) next: u64,
    // Whether a gap was long.
    pub(crate) long: bool,
}

impl Gaps {
    pub(crate) fn new(bits: u32, counts: u64) -> Gaps
        requires { IsUmBits bits }
        ensures { result ≡ no_gaps (width_of bits) counts }
    {
        Gaps {
            width: window_size(bits) as u64,
            counts,
            top: 0,
            next: 0,
            long: false,
        }
    }

    // A PDU with this whole number arrives.
    pub(crate) fn number(&mut self, number: u64) -> Result<(), NoMemory>
        ensures { OnOk result (self.new ≡ numbered number self.old) }
    {
        if number < self.top {
            return Ok(());
        }
        self.long = self.long || number - self.top >= self.width;
        self.top = number.checked_add(1).ok_or(NoMemory)?;
        Ok(())
    }

    // An SDU whose last element has this tag is handed up.
    pub(crate) fn count(&mut self, tag: u64)
        ensures { self.new ≡ counted tag self.old }
    {
        if tag == 0 {
            return;
        }
        self.long = self.long || (tag > self.next && tag - self.next > self.counts);
        self.next = tag;
    }

    // SDUs made of tags are handed up.
    pub(crate) fn count_all(&mut self, mut sdus: Packets)
        ensures { self.new ≡ all_counted sdus self.old }
    {
        while let Some(sdu) = sdus.pop_front() {
            self.count(last_tag(sdu.as_slice()));
        }
    }

    // Another life begins.
    pub(crate) fn restart(&mut self)
        ensures { self.new ≡ restarted self.old }
    {
        self.top = 0;
        self.next = 0;
    }
}

// UM_Window_Size for numbers of so many bits.
fn window_size(bits: u32) -> u32
    ensures { result ≡ width_of bits }
{
    if bits == 5 {
        UM_SHORT_WINDOW_SIZE
    } else {
        UM_LONG_WINDOW_SIZE
    }
}
