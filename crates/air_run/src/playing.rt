// What a line that isn't refused does to both ends.
ghost use Rattle.std.specs.Prelude.{◌≡◌, ◌≤◌, true, false, not, None, OnOk, IfOk, IfErr};
ghost use Rattle.l2_io.specs.Known.{HasRisen};
ghost use Rattle.air_text.specs.Ranges.{IsInRange};
ghost use Rattle.air_run.specs.Draining.{shown};
ghost use Rattle.air_run.specs.Putting.{TellsIf};
ghost use Rattle.air_run.specs.Written.{noted};
ghost use Rattle.air_run.specs.Playing.{played, acted, keys_or_none};
ghost use Rattle.air_record.specs.Cells.{next_keys};
ghost use Rattle.air_run.specs.Rules.{rule_broken, is_idle};

use crate::draining::drain;
use crate::journal::Journal;
use crate::refusal::StepFault;
use crate::rules::Rules;
use air_link::Link;
use air_text::Line;
use eps_sec::{Cipher, Key, Keys};
use l2_bits::NoMemory;
use l2_io::Sink;
use test_loop::Mode;

/// Keys where there are none as yet, which no bearer uses.
const NO_KEYS: Keys = Keys {
    alg: Cipher::Eea0,
    user: NO_KEY,
    rrc: NO_KEY,
    integrity: NO_KEY,
};

const NO_KEY: Key = Key { octets: [0; 16] };

/// Plays a line that breaks no rule, and puts its records into the journal. `false` exactly where
/// it asks for the expiry of a timer that doesn't run; then both ends stay as they were. Of a drain
/// the text is put as it arises.
#[tactic(auto, using(crate::proofs::Rounds::drained_shown))]
pub(crate) fn play<K: Sink>(
    link: &mut Link,
    rules: &Rules,
    line: &Line,
    journal: &mut Journal,
    out: &mut K,
) -> Result<bool, StepFault>
    requires range { IsInRange line.now }
    requires allowed { rule_broken line.now rules.now link.old ≡ None }
    ensures ran { IfOk result (λ ran. ran ≡ not (is_idle line.now link.old)) }
    ensures idle { IfOk result (λ ran. ran ≡ false → link.new ≡ link.old) }
    ensures link { IfOk result (λ ran. ran ≡ true
        → link.new ≡ shown (played line.now rules.now.keys link.old)) }
    ensures put { TellsIf (played line.now rules.now.keys link.old).out
        (noted line.now (played line.now rules.now.keys link.old) journal.old) journal.new
        (K.written out.old) (K.written out.new) (HasRisen (K.faults out.old) (K.faults out.new))
        result }
    ensures count { K.faults out.old ≤ K.faults out.new }
    ensures stays { IfErr result (λ _. is_idle line.now link.old ≡ true
        → K.written out.new ≡ K.written out.old) }
    ensures losses { IfOk result (λ ran. ran ≡ false → journal.new.losses ≡ journal.old.losses) }
    ensures buffers { IfOk result (λ ran. ran ≡ false
        → journal.new.buffers ≡ journal.old.buffers) }
{
    if let Line::Drain { grant } = line {
        drain(link, *grant, journal, out)?;
        return Ok(true);
    }
    if !act(link, rules, line)? {
        return Ok(false);
    }
    journal.note(line, link)?;
    journal.put_out(link)?;
    Ok(true)
}

// A line other than a drain.
#[tactic(auto, using(crate::proofs::Allowed::is_new, crate::proofs::Allowed::is_there, crate::proofs::Allowed::are_there, crate::proofs::Allowed::fits), unfolding(crate::specs::Playing::acted, crate::specs::Rules::rule_broken))]
fn act(link: &mut Link, rules: &Rules, line: &Line) -> Result<bool, NoMemory>
    requires range { IsInRange line.now }
    requires allowed { rule_broken line.now rules.now link.old ≡ None }
    ensures ran { IfOk result (λ ran. ran ≡ not (is_idle line.now link.old)) }
    ensures idle { IfOk result (λ ran. ran ≡ false → link.new ≡ link.old) }
    ensures link { OnOk result (link.new ≡ acted line.now rules.now.keys link.old) }
{
    match line {
        Line::Harq { visits } => link.set_visits(*visits),
        Line::Bsr => link.report(),
        Line::Bearer { config, .. } => link.add(config, &keys_or_none(rules.keys))?,
        Line::Submit { side, lcid, octets } => link.submit(*side, *lcid, octets.as_slice())?,
        Line::Tti {
            up_grant,
            up,
            down_grant,
            down,
        } => link.tti(*up_grant, *up, *down_grant, *down)?,
        Line::Expire { side, lcid, clock } => return link.expire(*side, *lcid, *clock),
        Line::Handover {
            user,
            rrc,
            integrity,
        } => {
            let keys = next_keys(*user, *rrc, *integrity, keys_or_none(rules.keys));
            link.hand_over(&keys)?;
        }
        Line::LoopOff => link.set_loop(Mode::Off)?,
        Line::LoopA { size } => link.set_loop(Mode::A { size: *size })?,
        Line::LoopB { delay } => link.set_loop(Mode::B { delay: *delay })?,
        Line::Forge { side, octets } => link.forge(*side, octets.as_slice())?,
        Line::Discard { lcid, ttis } => link.set_discard(*lcid, *ttis),
        Line::Drx { config } => link.listen(config),
        _ => (),
    }
    Ok(true)
}

fn keys_or_none(keys: Option<Keys>) -> Keys
    ensures { result ≡ keys_or_none keys }
{
    match keys {
        Some(keys) => keys,
        None => NO_KEYS,
    }
}

// The keys of the next cell: the cipher stays.
fn next_keys(user: Key, rrc: Key, integrity: Key, keys: Keys) -> Keys
    ensures { result ≡ next_keys user rrc integrity keys }
{
    Keys {
        alg: keys.alg,
        user,
        rrc,
        integrity,
    }
}
