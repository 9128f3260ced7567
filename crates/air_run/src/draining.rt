// A drain: TTIs with the same grants until nothing is left of what acknowledged bearers have to
// bring over.
ghost use Rattle.std.specs.Prelude.{◌≡◌, ◌≤◌, ◌++◌, OnOk, IfOk};
ghost use Rattle.l2_io.specs.Known.{HasRisen};
ghost use Rattle.air_link.specs.Draining.{drain_tti};
ghost use Rattle.air_run.specs.Putting.{Tells};
ghost use Rattle.air_run.specs.Draining.{shown, ttis, round, rounds, budget, drained};

use crate::journal::Journal;
use crate::refusal::StepFault;
use air_link::Link;
use air_text::Record;
use l2_bits::NoMemory;
use l2_io::Sink;
use l2_types::GREATEST_GRANT;

/// The TTIs before the first round.
const FIRST: u64 = 8;

/// Drains both ends. Its records go into the journal, whose text is put as it arises, so that it
/// takes no more memory for more TTIs. Grants are octets, up to 9422.
#[tactic(auto, unfolding(crate::specs::Draining::drained))]
pub(crate) fn drain<K: Sink>(
    link: &mut Link,
    grant: u32,
    journal: &mut Journal,
    out: &mut K,
) -> Result<(), StepFault>
    requires { grant ≤ GREATEST_GRANT }
    ensures link { OnOk result (link.new ≡ (drained grant link.old).link) }
    ensures put { Tells (drained grant link.old).journal journal.old journal.new (K.written out.old)
        (K.written out.new) (HasRisen (K.faults out.old) (K.faults out.new)) result }
    ensures count { K.faults out.old ≤ K.faults out.new }
{
    let budget = budget(link);
    for_ttis(link, grant, FIRST, journal, out)?;
    let done = rounds(link, grant, budget, journal, out)?;
    journal.put(&Record::Drained { rounds: done })?;
    Ok(())
}

// The rounds that a drain may take.
fn budget(link: &Link) -> u64
    ensures { result ≡ budget link.now }
{
    let bearers = link.count().saturating_mul(512).saturating_add(64);
    link.left().saturating_add(bearers).saturating_mul(1024)
}

#[tactic(auto, using(crate::proofs::Rounds::ttis_next, crate::proofs::Rounds::none_left, crate::proofs::Telling::told_both, crate::proofs::Telling::told_none))]
fn for_ttis<K: Sink>(
    link: &mut Link,
    grant: u32,
    most: u64,
    journal: &mut Journal,
    out: &mut K,
) -> Result<(), StepFault>
    requires { grant ≤ GREATEST_GRANT }
    ensures link { OnOk result (link.new ≡ (ttis most grant link.old).link) }
    ensures put { Tells (ttis most grant link.old).journal journal.old journal.new
        (K.written out.old) (K.written out.new) (HasRisen (K.faults out.old) (K.faults out.new))
        result }
    ensures count { K.faults out.old ≤ K.faults out.new }
{
    for done in 0..most {
        tti(link, grant, journal, out)?;
    }
    Ok(())
}

fn tti<K: Sink>(
    link: &mut Link,
    grant: u32,
    journal: &mut Journal,
    out: &mut K,
) -> Result<(), StepFault>
    requires { grant ≤ GREATEST_GRANT }
    ensures link { OnOk result (link.new ≡ shown (drain_tti grant link.old)) }
    ensures put { Tells (drain_tti grant link.old).out journal.old journal.new (K.written out.old)
        (K.written out.new) (HasRisen (K.faults out.old) (K.faults out.new)) result }
    ensures count { K.faults out.old ≤ K.faults out.new }
{
    link.drain_tti(grant)?;
    journal.put_out(link)?;
    journal.put_text(out)
}

// As few rounds as it takes, and at most so many; how many were done.
#[tactic(auto, using(crate::proofs::Rounds::rounds_next, crate::proofs::Rounds::rounds_stay, crate::proofs::Rounds::none_left, crate::proofs::Telling::told_both, crate::proofs::Telling::told_none))]
fn rounds<K: Sink>(
    link: &mut Link,
    grant: u32,
    most: u64,
    journal: &mut Journal,
    out: &mut K,
) -> Result<u64, StepFault>
    requires { grant ≤ GREATEST_GRANT }
    ensures link { OnOk result (link.new ≡ (rounds most grant link.old).link) }
    ensures done { IfOk result (λ done. done ≡ (rounds most grant link.old).done) }
    ensures put { Tells (rounds most grant link.old).journal journal.old journal.new
        (K.written out.old) (K.written out.new) (HasRisen (K.faults out.old) (K.faults out.new))
        result }
    ensures count { K.faults out.old ≤ K.faults out.new }
{
    for done in 0..most {
        if link.is_drained() {
            return Ok(done);
        }
        round(link, grant, journal, out)?;
    }
    Ok(most)
}

// A TTI, and the timers that run behind it.
fn round<K: Sink>(
    link: &mut Link,
    grant: u32,
    journal: &mut Journal,
    out: &mut K,
) -> Result<(), StepFault>
    requires { grant ≤ GREATEST_GRANT }
    ensures link { OnOk result (link.new ≡ shown (round grant link.old)) }
    ensures put { Tells (round grant link.old).out journal.old journal.new (K.written out.old)
        (K.written out.new) (HasRisen (K.faults out.old) (K.faults out.new)) result }
    ensures count { K.faults out.old ≤ K.faults out.new }
{
    link.drain_tti(grant)?;
    let carried = link.carried();
    link.expire_receivers()?;
    if !carried {
        link.expire_senders()?;
    }
    journal.put_out(link)?;
    journal.put_text(out)
}
