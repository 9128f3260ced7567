//! How RLC's answers are told.

ghost use Rattle.std.specs.Prelude.{◌≡◌, ◌++◌, [], ◌∷◌, if◌then◌else◌, OnOk};
ghost use Rattle.bearer_types.specs.declared.Event.TheVariants as events_of;
ghost use Rattle.l2_types.specs.declared.Clock.TheVariants.{Reorder};
ghost use Rattle.bearer_pdcp.specs.Telling.{landed_told, turned_told, expired_told};

use bearer_types::{Event, Events};
use l2_bits::NoMemory;
use l2_types::{Clock, Lost, Waits};
use rlc_pdu::{Landed, Turned};

/// Tells what became of a data PDU that arrived: it is dropped, or the reordering timer stops and
/// starts.
pub fn tell_landed(
    lcid: u8,
    landed: Landed,
    turned: Turned,
    events: &mut Events,
) -> Result<(), NoMemory>
    ensures { OnOk result (events.new ≡ events.old ++ landed_told lcid landed turned) }
{
    let why = match landed {
        Landed::Kept => return tell_turned(lcid, turned, events),
        Landed::Repeat => Lost::Repeat,
        Landed::Outside => Lost::Outside,
        Landed::Clash => Lost::Clash,
    };
    events.push(Event::Drop { lcid, why })
}

fn tell_turned(lcid: u8, turned: Turned, events: &mut Events) -> Result<(), NoMemory>
    ensures { OnOk result (events.new ≡ events.old ++ turned_told lcid turned) }
{
    let clock = Clock::Reorder;
    if turned.stopped {
        events.push(Event::Stop { lcid, clock })?;
    }
    if turned.started {
        events.push(Event::Start { lcid, clock })?;
    }
    Ok(())
}

/// Tells that a timer expires, and whether it starts again.
pub fn tell_expired(
    lcid: u8,
    clock: Clock,
    again: bool,
    events: &mut Events,
) -> Result<(), NoMemory>
    ensures { OnOk result (events.new ≡ events.old ++ expired_told lcid clock again) }
{
    events.push(Event::Expired { lcid, clock })?;
    if again {
        events.push(Event::Start { lcid, clock })?;
    }
    Ok(())
}

/// Tells why data waits and no data PDU is written.
pub fn tell_wait(lcid: u8, why: Waits, events: &mut Events) -> Result<(), NoMemory>
    ensures { OnOk result (events.new ≡ events.old ++ events_of.Wait lcid why ∷ []) }
{
    events.push(Event::Wait { lcid, why })
}
