ghost use Rattle.std.specs.Prelude.{◌≡◌, ◌<◌, ◌∷◌, [], IfOk, IfSome};
ghost use Rattle.l2_types.specs.declared.channel.Kind.{Kind};
ghost use Rattle.air_text.specs.Options.{config_of};
ghost use Rattle.air_text.specs.Ranges.{IsInRange};
ghost use Rattle.script_generator.specs.Draws.{next, drawn};
ghost use Rattle.script_generator.specs.Script.{at_tti};
ghost use Rattle.script_generator.specs.Lines.{key_at, keys_line, am_line, um_line, handover_lines};
ghost use Rattle.script_generator.specs.Lines.{sdu_octets, sdu_lines, outcome_by, tti_line};
ghost use Rattle.script_generator.specs.Fields.{given};

use super::draws::Draws;
use air_text::{Fate, Line, Outcome};
use bearer_types::BearerConfig;
use eps_sec::{Cipher, Key, Keys};
use l2_bits::{Bytes, NoMemory};
use l2_types::{AmRxConfig, AmTxConfig, Channel, Kind, Side};
use std::alloc::Global;

fn key_at(number: u32) -> Key
    ensures { result ≡ key_at number }
{
    Key {
        octets: (number as u128).to_be_bytes(),
    }
}

/// The line of the first keys.
pub fn keys_line() -> Line
    ensures { result ≡ keys_line }
{
    Line::Keys {
        keys: Keys {
            alg: Cipher::Eea2,
            user: key_at(1),
            rrc: key_at(2),
            integrity: key_at(3),
        },
    }
}

/// The line of the bearer with acknowledgement.
#[tactic(auto, unfolding(air_text::specs::Options::config_of, crate::specs::Lines::with_retx))]
pub fn am_line(alloc: Global) -> Result<Line, NoMemory>
    ensures line { IfOk result (λ line. line ≡ am_line) }
    ensures range { IfOk result (λ line. IsInRange line) }
{
    let options = Bytes::from_slice(alloc, b"maxretx=32")?;
    let config = BearerConfig {
        channel: Channel {
            lcid: 3,
            priority: 8,
            pbr: None,
            bucket: 100,
            group: 3,
        },
        kind: Kind::Am,
        rlc_bits: 10,
        pdcp_bits: 12,
        first: 0,
        tx: AmTxConfig {
            poll_pdu: None,
            poll_byte: None,
            poll_retransmit: 45,
            max_retx: 32,
        },
        rx: AmRxConfig {
            reorder: 35,
            prohibit: None,
        },
    };
    Ok(Line::Bearer { config, options })
}

/// The line of the bearer without acknowledgement.
#[tactic(auto, unfolding(air_text::specs::Options::config_of))]
pub fn um_line(alloc: Global) -> Line
    ensures line { result ≡ um_line }
    ensures range { IsInRange result }
{
    let config = BearerConfig {
        channel: Channel {
            lcid: 4,
            priority: 8,
            pbr: None,
            bucket: 100,
            group: 3,
        },
        kind: Kind::Um,
        rlc_bits: 10,
        pdcp_bits: 12,
        first: 0,
        tx: AmTxConfig {
            poll_pdu: None,
            poll_byte: None,
            poll_retransmit: 45,
            max_retx: 4,
        },
        rx: AmRxConfig {
            reorder: 35,
            prohibit: None,
        },
    };
    Line::Bearer {
        config,
        options: Bytes::new(alloc),
    }
}

/// The line of the handover before a step, where there is one.
pub fn handover_line(i: u32) -> Option<Line>
    requires { i < 2000 }
    ensures line { given result ≡ handover_lines i }
    ensures range { IfSome result IsInRange }
{
    if 0 < i && i % 500 == 0 {
        let before = 3 * i / 500;
        return Some(Line::Handover {
            user: key_at(before + 1),
            rrc: key_at(before + 2),
            integrity: key_at(before + 3),
        });
    }
    None
}

fn submit(
    alloc: Global,
    side: Side,
    lcid: u8,
    i: u32,
    draws: &mut Draws,
) -> Result<Option<Line>, NoMemory>
    ensures line { IfOk result (λ line. given line ≡ Line.Submit side lcid (sdu_octets i draws.old)
        ∷ []) }
    ensures range { IfOk result (λ line. IfSome line IsInRange) }
    ensures draws { draws.new ≡ next draws.old }
{
    let size = 1 + draws.draw(1400) as u32;
    let mut octets = Bytes::new(alloc);
    octets.append_times((i % 256) as u8, size)?;
    Ok(Some(Line::Submit { side, lcid, octets }))
}

/// The line of a step's SDU, where there is one.
pub fn sdu_line(alloc: Global, i: u32, draws: &mut Draws) -> Result<Option<Line>, NoMemory>
    ensures line { IfOk result (λ line. given line
        ≡ sdu_lines (drawn 8 (next draws.old)) i (next draws.old)) }
    ensures range { IfOk result (λ line. IfSome line IsInRange) }
    ensures draws { draws.new ≡ at_tti draws.old }
{
    match draws.draw(8) {
        0 | 1 => submit(alloc, Side::Nb, 3, i, draws),
        2 => submit(alloc, Side::Ue, 3, i, draws),
        3 => submit(alloc, Side::Nb, 4, i, draws),
        _ => Ok(None),
    }
}

fn outcome_by(kind: u64) -> Outcome
    ensures { result ≡ outcome_by kind }
{
    match kind {
        0 => Outcome {
            fate: Fate::Bad,
            flipped: false,
        },
        1 => Outcome {
            fate: Fate::Ok,
            flipped: true,
        },
        _ => Outcome {
            fate: Fate::Ok,
            flipped: false,
        },
    }
}

/// The line of a step's TTI.
pub fn tti_line(draws: &mut Draws) -> Line
    ensures line { result ≡ tti_line draws.old }
    ensures range { IsInRange result }
    ensures draws { draws.new ≡ next (next draws.old) }
{
    let up = outcome_by(draws.draw(10));
    let down = outcome_by(draws.draw(10));
    Line::Tti {
        up_grant: 1500,
        up,
        down_grant: 1500,
        down,
    }
}
