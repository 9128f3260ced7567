// How many SDUs wait on each channel.
ghost use Rattle.std.specs.Prelude.{◌≡◌, OnOk, slice_index_or, slice_set};
ghost use Rattle.l2_types.specs.declared.side.Side.TheVariants.{Nb, Ue};
ghost use Rattle.journal_given.specs.Giving.{no_waits, waits_at, with_waits, one_more, one_less};

use arrayvec::ArrayVec;
use l2_bits::NoMemory;
use l2_types::Side;
use std::marker::Model;

// Logical channels are 0 to 10.
const CHANNELS: usize = 11;

type Counts = ArrayVec<u64, CHANNELS>;

fn no_counts() -> Counts
    ensures { result.items ≡ no_waits.nb }
{
    let mut counts = ArrayVec::new();
    for _i in 0..CHANNELS {
        counts.push(0);
    }
    counts
}

fn get(counts: &Counts, lcid: u8) -> u64
    ensures { result ≡ slice_index_or counts.now.items lcid 0 }
{
    match counts.as_slice().get(lcid as usize) {
        Some(count) => *count,
        None => 0,
    }
}

fn set(counts: &mut Counts, lcid: u8, count: u64)
    ensures { counts.new.items ≡ slice_set counts.old.items lcid count }
{
    let at = lcid as usize;
    if at < counts.len() {
        counts[at] = count;
    }
}

#[derive(Drop)]
pub(crate) struct Waits {
    nb: Counts,
    ue: Counts,
}

impl Model for Waits {
    ghost use Rattle.journal_given.specs.Giving.{Waits};

    ghost Value = { Waits };

    ghost view = { λ w. record { nb = w.nb.items; ue = w.ue.items } };
}

impl Waits {
    pub(crate) fn none() -> Waits
        ensures { result ≡ no_waits }
    {
        Waits {
            nb: no_counts(),
            ue: no_counts(),
        }
    }

    pub(crate) fn at(&self, side: Side, lcid: u8) -> u64
        ensures { result ≡ waits_at side lcid self.now }
    {
        match side {
            Side::Nb => get(&self.nb, lcid),
            Side::Ue => get(&self.ue, lcid),
        }
    }

    fn set(&mut self, side: Side, lcid: u8, count: u64)
        ensures { self.new ≡ with_waits side lcid count self.old }
    {
        match side {
            Side::Nb => set(&mut self.nb, lcid, count),
            Side::Ue => set(&mut self.ue, lcid, count),
        }
    }

    // A bearer begins on a channel.
    pub(crate) fn clear(&mut self, lcid: u8)
        ensures { self.new ≡ with_waits Ue lcid 0 (with_waits Nb lcid 0 self.old) }
    {
        self.set(Side::Nb, lcid, 0);
        self.set(Side::Ue, lcid, 0);
    }

    // One more waits.
    pub(crate) fn add(&mut self, side: Side, lcid: u8) -> Result<(), NoMemory>
        ensures { OnOk result (self.new ≡ one_more side lcid self.old) }
    {
        let more = self.at(side, lcid).checked_add(1).ok_or(NoMemory)?;
        self.set(side, lcid, more);
        Ok(())
    }

    // One less waits, where one did.
    pub(crate) fn remove(&mut self, side: Side, lcid: u8)
        ensures { self.new ≡ one_less side lcid self.old }
    {
        let less = self.at(side, lcid).saturating_sub(1);
        self.set(side, lcid, less);
    }
}
