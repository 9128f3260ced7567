ghost use Rattle.std.specs.Prelude.{◌≡◌, ◌<◌, ◌^◌, [], IfOk, All};
ghost use Rattle.air_record.specs.Text.{lens_text, nack_text, nacks_text};
ghost use Rattle.air_record.specs.Text.{part_text};
ghost use Rattle.std.specs.Fmt.{decimal};
ghost use Rattle.std.specs.Prelude.{◌∷◌, ◌++◌};
ghost use Rattle.journal_text.specs.Answers.{Gives};
ghost use Rattle.journal_text.specs.Lists.{lens_of, part_of, nack_of, nacks_of};
ghost use Rattle.journal_text.specs.Records.{AreLens, IsNack};

use crate::fault::TextFault;
use crate::fields::{number, says};
use crate::pieces::split;
use air_record::Lens;
use l2_bits::Items;
use rlc_pdu::{Nack, Nacks, Part};
use std::alloc::Global;

/// Numbers with a comma between two, one at least.
#[tactic(auto, unfolding(crate::specs::Lists::lens_of, crate::specs::Lists::numbers_of))]
pub fn lens(alloc: Global, text: &[u8]) -> Result<Lens, TextFault>
    ensures value { Gives result (lens_of text.now) }
    ensures text { IfOk result (λ lens. (lens_text lens ≡ text.now) × AreLens lens) }
{
    let mut lens = Items::new(alloc);
    let mut rest = Some(text);
    while let Some(text) = rest {
        let (word, behind) = split(text, b',');
        lens.push(number(word)?)?;
        rest = behind;
    }
    Ok(lens)
}

// Two numbers with a hyphen between.
#[tactic(auto, unfolding(crate::specs::Lists::part_of))]
fn part(text: &[u8]) -> Result<Part, TextFault>
    ensures value { result ≡ part_of text.now }
    ensures text { IfOk result (λ part.
        (decimal part.start ++ (45 ∷ decimal part.end) ≡ text.now)
        × (part.start < 2 ^ 32) × (part.end < 2 ^ 32)) }
{
    let (start, Some(end)) = split(text, b'-') else {
        return Err(TextFault::NotARecord);
    };
    let start = number(start)?;
    let end = number(end)?;
    Ok(Part { start, end })
}

// A number, and behind a colon what is missing of it.
#[tactic(auto, unfolding(crate::specs::Lists::nack_of))]
fn nack(text: &[u8]) -> Result<Nack, TextFault>
    ensures value { result ≡ nack_of text.now }
    ensures text { IfOk result (λ nack. (nack_text nack ≡ text.now) × IsNack nack) }
{
    let (sn, range) = split(text, b':');
    let sn = number(sn)?;
    match range {
        None => Ok(Nack { sn, part: None }),
        Some(range) => Ok(Nack {
            sn,
            part: Some(part(range)?),
        }),
    }
}

/// Entries with a comma between two, or none for `-`.
#[tactic(auto, unfolding(crate::specs::Lists::nacks_of, crate::specs::Lists::entries_of))]
pub fn nacks(alloc: Global, text: &[u8]) -> Result<Nacks, TextFault>
    ensures value { Gives result (nacks_of text.now) }
    ensures text { IfOk result (λ nacks. (nacks_text nacks ≡ text.now) × All IsNack nacks) }
{
    let mut nacks = Items::new(alloc);
    if says(text, b"-") {
        return Ok(nacks);
    }
    let mut rest = Some(text);
    while let Some(text) = rest {
        let (word, behind) = split(text, b',');
        nacks.push(nack(word)?)?;
        rest = behind;
    }
    Ok(nacks)
}
