ghost use Rattle.std.specs.Prelude.{◌∷◌, codes, IfOk};
ghost use Rattle.air_text.specs.Words.{texts};
ghost use Rattle.journal_text.specs.Answers.{Gives};
ghost use Rattle.journal_text.specs.Blocks.{tti_of, sleep_of, block_of, air_of, refused_of};
ghost use Rattle.journal_text.specs.Blocks.{looped_of};
ghost use Rattle.journal_text.specs.Blocks.{drained_of, sum_of};
ghost use Rattle.journal_text.specs.Records.{IsSaid};

use crate::fault::TextFault;
use crate::fields::{long_number, number, octet, octets};
use crate::naming::{arrived, direction, fresh, heard, place, side, state};
use air_record::Record;
use std::alloc::Global;

#[tactic(auto, unfolding(crate::specs::Blocks::tti_of))]
#[inline(never)]
pub fn tti(fields: &[&[u8]]) -> Result<Record, TextFault>
    ensures record { Gives result (tti_of (texts fields.now)) }
    ensures text { IfOk result (IsSaid (codes "tti" ∷ texts fields.now)) }
{
    let [word] = fields else {
        return Err(TextFault::NotARecord);
    };
    let tti = long_number(word)?;
    Ok(Record::Tti { tti })
}

#[tactic(auto, unfolding(crate::specs::Blocks::sleep_of))]
pub fn sleep(fields: &[&[u8]]) -> Result<Record, TextFault>
    ensures record { Gives result (sleep_of (texts fields.now)) }
    ensures text { IfOk result (IsSaid (codes "sleep" ∷ texts fields.now)) }
{
    let [] = fields else {
        return Err(TextFault::NotARecord);
    };
    Ok(Record::Sleep)
}

#[tactic(auto, unfolding(crate::specs::Blocks::block_of))]
#[inline(never)]
pub fn block(alloc: Global, fields: &[&[u8]]) -> Result<Record, TextFault>
    ensures record { Gives result (block_of (texts fields.now)) }
    ensures text { IfOk result (IsSaid (codes "block" ∷ texts fields.now)) }
{
    let [way, process, age, rv, text] = fields else {
        return Err(TextFault::NotARecord);
    };
    let direction = direction(way)?;
    let process = number(process)?;
    let fresh = fresh(age)?;
    let rv = octet(rv)?;
    let octets = octets(alloc, text)?;
    Ok(Record::Block {
        direction,
        process,
        fresh,
        rv,
        octets,
    })
}

#[tactic(auto, unfolding(crate::specs::Blocks::air_of))]
#[inline(never)]
pub fn air(fields: &[&[u8]]) -> Result<Record, TextFault>
    ensures record { Gives result (air_of (texts fields.now)) }
    ensures text { IfOk result (IsSaid (codes "air" ∷ texts fields.now)) }
{
    let [way, word, feedback] = fields else {
        return Err(TextFault::NotARecord);
    };
    let direction = direction(way)?;
    let what = arrived(word)?;
    let heard = heard(feedback)?;
    Ok(Record::Air {
        direction,
        what,
        heard,
    })
}

#[tactic(auto, unfolding(crate::specs::Blocks::refused_of))]
#[inline(never)]
pub fn refused(fields: &[&[u8]]) -> Result<Record, TextFault>
    ensures record { Gives result (refused_of (texts fields.now)) }
    ensures text { IfOk result (IsSaid (codes "refused" ∷ texts fields.now)) }
{
    let [node, lcid, word] = fields else {
        return Err(TextFault::NotARecord);
    };
    let side = side(node)?;
    let lcid = octet(lcid)?;
    let why = place(word)?;
    Ok(Record::Refused { side, lcid, why })
}

#[tactic(auto, unfolding(crate::specs::Blocks::looped_of))]
#[inline(never)]
pub fn looped(alloc: Global, fields: &[&[u8]]) -> Result<Record, TextFault>
    ensures record { Gives result (looped_of (texts fields.now)) }
    ensures text { IfOk result (IsSaid (codes "loop" ∷ texts fields.now)) }
{
    let [lcid, text] = fields else {
        return Err(TextFault::NotARecord);
    };
    let lcid = octet(lcid)?;
    let octets = octets(alloc, text)?;
    Ok(Record::Looped { lcid, octets })
}

#[tactic(auto, unfolding(crate::specs::Blocks::drained_of))]
#[inline(never)]
pub fn drained(fields: &[&[u8]]) -> Result<Record, TextFault>
    ensures record { Gives result (drained_of (texts fields.now)) }
    ensures text { IfOk result (IsSaid (codes "drained" ∷ texts fields.now)) }
{
    let [word] = fields else {
        return Err(TextFault::NotARecord);
    };
    let rounds = long_number(word)?;
    Ok(Record::Drained { rounds })
}

#[tactic(auto, unfolding(crate::specs::Blocks::sum_of))]
#[inline(never)]
pub fn sum(fields: &[&[u8]]) -> Result<Record, TextFault>
    ensures record { Gives result (sum_of (texts fields.now)) }
    ensures text { IfOk result (IsSaid (codes "sum" ∷ texts fields.now)) }
{
    let [way, lcid, submitted, delivered, word] = fields else {
        return Err(TextFault::NotARecord);
    };
    let direction = direction(way)?;
    let lcid = octet(lcid)?;
    let submitted = long_number(submitted)?;
    let delivered = long_number(delivered)?;
    let state = state(word)?;
    Ok(Record::Sum {
        direction,
        lcid,
        submitted,
        delivered,
        state,
    })
}
