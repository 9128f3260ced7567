ghost use Rattle.std.specs.Prelude.{◌≡◌, ℕ, List, codes, false, IfOk, IfSome};
ghost use Rattle.air_text.specs.Ranges.{IsInRange};
ghost use Rattle.air_text.specs.Words.{Gives, texts, joined, is_twice};
ghost use Rattle.air_text.specs.Options.{config_of, options_of, goes};
ghost use Rattle.air_text.specs.Reading.{harq_of, bsr_of, keys_of, bearer_of, submit_of, tti_of};
ghost use Rattle.air_text.specs.Reading.{expire_of, handover_of, loop_off_of, loop_a_of, loop_b_of};
ghost use Rattle.air_text.specs.Reading.{loop_of, drain_of, forge_of, end_of, discard_of, drx_of};
ghost use Rattle.air_text.specs.Reading.{line_of, read_words, read_of};
ghost use Rattle.std.specs.Str.{bytes_eq};

use crate::fault::{LineFault, LineRefusal};
use crate::fields::{
    cipher, clock, is_word, key, kind, number, octets, outcome, side, word, words,
};
use crate::limits::LONGEST_LINE;
use crate::options::{fits, has_twice, join, options, plain};
use air_record::Line;
use eps_sec::Keys;
use l2_types::{DrxConfig, GREATEST_GRANT, GREATEST_SDU};
use std::alloc::Global;

// Each kind of line is read by a function of its own: inlined, each would take its room in the
// reading of every line. All give the same type, so that the one who asks passes a line on where it
// lies.

#[tactic(auto, unfolding(crate::specs::Reading::harq_of))]
#[inline(never)]
fn harq(fields: &[&[u8]]) -> Result<Line, LineFault>
    ensures line { Gives result (harq_of (texts fields.now)) }
    ensures ranges { IfOk result IsInRange }
{
    let [visits] = fields else {
        return Err(LineFault::Refused(LineRefusal::Fields));
    };
    let visits = number(visits, 1, 28)?;
    Ok(Line::Harq { visits })
}

#[tactic(auto, unfolding(crate::specs::Reading::bsr_of))]
#[inline(never)]
fn bsr(fields: &[&[u8]]) -> Result<Line, LineFault>
    ensures line { Gives result (bsr_of (texts fields.now)) }
    ensures ranges { IfOk result IsInRange }
{
    let [on] = fields else {
        return Err(LineFault::Refused(LineRefusal::Fields));
    };
    word(on, b"on")?;
    Ok(Line::Bsr)
}

#[tactic(auto, unfolding(crate::specs::Reading::keys_of))]
#[inline(never)]
fn keys(alloc: Global, fields: &[&[u8]]) -> Result<Line, LineFault>
    ensures line { Gives result (keys_of (texts fields.now)) }
    ensures ranges { IfOk result IsInRange }
{
    let [alg, user, rrc, integrity] = fields else {
        return Err(LineFault::Refused(LineRefusal::Fields));
    };
    let alg = cipher(alg)?;
    let user = key(alloc, user)?;
    let rrc = key(alloc, rrc)?;
    let integrity = key(alloc, integrity)?;
    Ok(Line::Keys {
        keys: Keys {
            alg,
            user,
            rrc,
            integrity,
        },
    })
}

#[tactic(auto, unfolding(crate::specs::Reading::bearer_of))]
#[inline(never)]
fn bearer(alloc: Global, fields: &[&[u8]]) -> Result<Line, LineFault>
    ensures line { Gives result (bearer_of (texts fields.now)) }
    ensures ranges { IfOk result IsInRange }
{
    let [lcid, word, words @ ..] = fields else {
        return Err(LineFault::Refused(LineRefusal::Fields));
    };
    if has_twice(words) {
        return Err(LineFault::Refused(LineRefusal::Fields));
    }
    let lcid = number(lcid, 0, 10)? as u8;
    let kind = kind(word)?;
    if !fits(kind, lcid) {
        return Err(LineFault::Refused(LineRefusal::Range));
    }
    let config = options(plain(lcid, kind), words)?;
    let options = join(alloc, words)?;
    Ok(Line::Bearer { config, options })
}

#[tactic(auto, unfolding(crate::specs::Reading::submit_of))]
#[inline(never)]
fn submit(alloc: Global, fields: &[&[u8]]) -> Result<Line, LineFault>
    ensures line { Gives result (submit_of (texts fields.now)) }
    ensures ranges { IfOk result IsInRange }
{
    let [node, lcid, text] = fields else {
        return Err(LineFault::Refused(LineRefusal::Fields));
    };
    let side = side(node)?;
    let lcid = number(lcid, 0, 10)? as u8;
    let octets = octets(alloc, text, GREATEST_SDU)?;
    Ok(Line::Submit { side, lcid, octets })
}

#[tactic(auto, unfolding(crate::specs::Reading::tti_of))]
#[inline(never)]
fn tti(fields: &[&[u8]]) -> Result<Line, LineFault>
    ensures line { Gives result (tti_of (texts fields.now)) }
    ensures ranges { IfOk result IsInRange }
{
    let [up_grant, up, down_grant, down] = fields else {
        return Err(LineFault::Refused(LineRefusal::Fields));
    };
    let up_grant = number(up_grant, 0, GREATEST_GRANT)?;
    let up = outcome(up)?;
    let down_grant = number(down_grant, 0, GREATEST_GRANT)?;
    let down = outcome(down)?;
    Ok(Line::Tti {
        up_grant,
        up,
        down_grant,
        down,
    })
}

#[tactic(auto, unfolding(crate::specs::Reading::expire_of))]
#[inline(never)]
fn expire(fields: &[&[u8]]) -> Result<Line, LineFault>
    ensures line { Gives result (expire_of (texts fields.now)) }
    ensures ranges { IfOk result IsInRange }
{
    let [node, lcid, timer] = fields else {
        return Err(LineFault::Refused(LineRefusal::Fields));
    };
    let side = side(node)?;
    let lcid = number(lcid, 0, 10)? as u8;
    let clock = clock(timer)?;
    Ok(Line::Expire { side, lcid, clock })
}

#[tactic(auto, unfolding(crate::specs::Reading::handover_of))]
#[inline(never)]
fn handover(alloc: Global, fields: &[&[u8]]) -> Result<Line, LineFault>
    ensures line { Gives result (handover_of (texts fields.now)) }
    ensures ranges { IfOk result IsInRange }
{
    let [user, rrc, integrity] = fields else {
        return Err(LineFault::Refused(LineRefusal::Fields));
    };
    let user = key(alloc, user)?;
    let rrc = key(alloc, rrc)?;
    let integrity = key(alloc, integrity)?;
    Ok(Line::Handover {
        user,
        rrc,
        integrity,
    })
}

#[tactic(auto, unfolding(crate::specs::Reading::loop_off_of))]
fn loop_off(fields: &[&[u8]]) -> Result<Line, LineFault>
    ensures line { Gives result (loop_off_of (texts fields.now)) }
    ensures ranges { IfOk result IsInRange }
{
    if fields.is_empty() {
        Ok(Line::LoopOff)
    } else {
        Err(LineFault::Refused(LineRefusal::Fields))
    }
}

#[tactic(auto, unfolding(crate::specs::Reading::loop_a_of))]
fn loop_a(fields: &[&[u8]]) -> Result<Line, LineFault>
    ensures line { Gives result (loop_a_of (texts fields.now)) }
    ensures ranges { IfOk result IsInRange }
{
    let [size] = fields else {
        return Err(LineFault::Refused(LineRefusal::Fields));
    };
    let size = number(size, 0, GREATEST_SDU as u32)?;
    Ok(Line::LoopA { size })
}

#[tactic(auto, unfolding(crate::specs::Reading::loop_b_of))]
fn loop_b(fields: &[&[u8]]) -> Result<Line, LineFault>
    ensures line { Gives result (loop_b_of (texts fields.now)) }
    ensures ranges { IfOk result IsInRange }
{
    let [delay] = fields else {
        return Err(LineFault::Refused(LineRefusal::Fields));
    };
    let delay = number(delay, 0, 65535)?;
    Ok(Line::LoopB { delay })
}

#[tactic(auto, unfolding(crate::specs::Reading::loop_of))]
#[inline(never)]
fn loop_line(fields: &[&[u8]]) -> Result<Line, LineFault>
    ensures line { Gives result (loop_of (texts fields.now)) }
    ensures ranges { IfOk result IsInRange }
{
    let [mode, fields @ ..] = fields else {
        return Err(LineFault::Refused(LineRefusal::Fields));
    };
    if is_word(mode, b"off") {
        loop_off(fields)
    } else if is_word(mode, b"a") {
        loop_a(fields)
    } else if is_word(mode, b"b") {
        loop_b(fields)
    } else {
        Err(LineFault::Refused(LineRefusal::Word))
    }
}

#[tactic(auto, unfolding(crate::specs::Reading::drain_of))]
#[inline(never)]
fn drain(fields: &[&[u8]]) -> Result<Line, LineFault>
    ensures line { Gives result (drain_of (texts fields.now)) }
    ensures ranges { IfOk result IsInRange }
{
    let [grant] = fields else {
        return Err(LineFault::Refused(LineRefusal::Fields));
    };
    let grant = number(grant, 0, GREATEST_GRANT)?;
    Ok(Line::Drain { grant })
}

#[tactic(auto, unfolding(crate::specs::Reading::forge_of))]
#[inline(never)]
fn forge(alloc: Global, fields: &[&[u8]]) -> Result<Line, LineFault>
    ensures line { Gives result (forge_of (texts fields.now)) }
    ensures ranges { IfOk result IsInRange }
{
    let [node, text] = fields else {
        return Err(LineFault::Refused(LineRefusal::Fields));
    };
    let side = side(node)?;
    let octets = octets(alloc, text, GREATEST_GRANT as usize)?;
    Ok(Line::Forge { side, octets })
}

#[tactic(auto, unfolding(crate::specs::Reading::end_of))]
#[inline(never)]
fn end(fields: &[&[u8]]) -> Result<Line, LineFault>
    ensures line { Gives result (end_of (texts fields.now)) }
    ensures ranges { IfOk result IsInRange }
{
    if fields.is_empty() {
        Ok(Line::End)
    } else {
        Err(LineFault::Refused(LineRefusal::Fields))
    }
}

#[tactic(auto, unfolding(crate::specs::Reading::discard_of))]
#[inline(never)]
fn discard(fields: &[&[u8]]) -> Result<Line, LineFault>
    ensures line { Gives result (discard_of (texts fields.now)) }
    ensures ranges { IfOk result IsInRange }
{
    let [lcid, ttis] = fields else {
        return Err(LineFault::Refused(LineRefusal::Fields));
    };
    let lcid = number(lcid, 0, 10)? as u8;
    let ttis = number(ttis, 2, 65535)?;
    Ok(Line::Discard { lcid, ttis })
}

#[tactic(auto, unfolding(crate::specs::Reading::drx_of))]
#[inline(never)]
fn drx(fields: &[&[u8]]) -> Result<Line, LineFault>
    ensures line { Gives result (drx_of (texts fields.now)) }
    ensures ranges { IfOk result IsInRange }
{
    let [on, inactivity, retransmit, cycle, offset] = fields else {
        return Err(LineFault::Refused(LineRefusal::Fields));
    };
    let on = number(on, 1, 200)?;
    let inactivity = number(inactivity, 0, 2560)?;
    let retransmit = number(retransmit, 0, 33)?;
    let cycle = number(cycle, 1, 2560)?;
    let offset = number(offset, 0, 2559)?;
    Ok(Line::Drx {
        config: DrxConfig {
            on,
            inactivity,
            retransmit,
            cycle,
            offset,
        },
    })
}

// The lines that come most are looked for first.
#[tactic(auto, using(crate::proofs::Firsts::line_submit, crate::proofs::Firsts::line_tti))]
fn line(alloc: Global, first: &[u8], fields: &[&[u8]]) -> Result<Line, LineFault>
    ensures line { Gives result (line_of first.now (texts fields.now)) }
    ensures ranges { IfOk result IsInRange }
{
    if is_word(first, b"submit") {
        submit(alloc, fields)
    } else if is_word(first, b"tti") {
        tti(fields)
    } else {
        other(alloc, first, fields)
    }
}

// A line of another kind than those.
#[inline(never)]
fn other(alloc: Global, first: &[u8], fields: &[&[u8]]) -> Result<Line, LineFault>
    requires no_submit { bytes_eq first.now (codes "submit") ≡ false }
    requires no_tti { bytes_eq first.now (codes "tti") ≡ false }
    ensures line { Gives result (line_of first.now (texts fields.now)) }
    ensures ranges { IfOk result IsInRange }
{
    if is_word(first, b"harq") {
        harq(fields)
    } else if is_word(first, b"bsr") {
        bsr(fields)
    } else if is_word(first, b"keys") {
        keys(alloc, fields)
    } else if is_word(first, b"bearer") {
        bearer(alloc, fields)
    } else if is_word(first, b"expire") {
        expire(fields)
    } else if is_word(first, b"handover") {
        handover(alloc, fields)
    } else if is_word(first, b"loop") {
        loop_line(fields)
    } else if is_word(first, b"drain") {
        drain(fields)
    } else if is_word(first, b"forge") {
        forge(alloc, fields)
    } else if is_word(first, b"end") {
        end(fields)
    } else if is_word(first, b"discard") {
        discard(fields)
    } else if is_word(first, b"drx") {
        drx(fields)
    } else {
        Err(LineFault::Refused(LineRefusal::Word))
    }
}

#[tactic(auto, unfolding(crate::specs::Reading::read_of, crate::specs::Reading::read_words))]
/// The line that a text says, or none where it is empty or a comment.
pub fn read_line(alloc: Global, text: &[u8]) -> Result<Option<Line>, LineFault>
    ensures line { Gives result (read_of text.now) }
    ensures ranges { IfOk result (λ line. IfSome line IsInRange) }
{
    if text.len() > LONGEST_LINE {
        return Err(LineFault::Refused(LineRefusal::Long));
    }
    let words = words(alloc, text)?;
    let [first, fields @ ..] = words.as_slice() else {
        return Ok(None);
    };
    if let [b'#', ..] = first {
        return Ok(None);
    }
    Ok(Some(line(alloc, first, fields)?))
}
