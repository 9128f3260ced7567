ghost use Rattle.std.specs.Prelude.{◌≡◌, ◌≤◌, ◌<◌, ◌+◌, ◌*◌, ◌++◌, ◌∷◌, [], length, replicate};
ghost use Rattle.std.specs.Prelude.{IfSome, option_copied};
ghost use Rattle.hex.specs.Hex.{encode_lower};
ghost use Rattle.arrayvec.specs.ArrayVec.{array_vec_len};
ghost use Rattle.script_generator.specs.Draws.{next, drawn};
ghost use Rattle.script_generator.specs.Script.{key, keys, opening, ending, handover, sdu_front};
ghost use Rattle.script_generator.specs.Script.{sdu, outcome, tti, at_tti, step, after_step};

use super::draws::Draws;
use arrayvec::ArrayVec;

/// The octets of the longest SDU.
const LONGEST: usize = 1400;

/// The room for the lines of a step, which have at most 2943 octets.
const ROOM: usize = 3072;

/// The lines of a step.
pub type Text = ArrayVec<u8, ROOM>;

fn put(text: &mut Text, piece: &[u8])
    requires { array_vec_len text.old + length piece.now ≤ ROOM }
    ensures items { text.new.items ≡ text.old.items ++ piece.now }
    ensures len { array_vec_len text.new ≡ array_vec_len text.old + length piece.now }
{
    let Ok(()) = text.try_extend_from_slice(piece) else {
        unreachable!()
    };
}

fn put_hex(text: &mut Text, octets: &[u8])
    requires few { length octets.now ≤ LONGEST }
    requires room { array_vec_len text.old + 2 * length octets.now ≤ ROOM }
    ensures items { text.new.items ≡ text.old.items ++ encode_lower octets.now }
    ensures len { array_vec_len text.new ≡ array_vec_len text.old + 2 * length octets.now }
{
    let mut digits = [0u8; 2 * LONGEST];
    let part = &mut digits[..2 * octets.len()];
    let Ok(()) = hex::encode_to_slice(octets, part) else {
        unreachable!()
    };
    put(text, part);
}

// The two digits of an octet.
fn pair_of(octet: u8) -> [u8; 2]
    ensures { result ≡ encode_lower (octet ∷ []) }
{
    let mut pair = [0u8; 2];
    let Ok(()) = hex::encode_to_slice(&[octet], &mut pair) else {
        unreachable!()
    };
    pair
}

// Adds the digits of so many same octets.
fn put_same(text: &mut Text, octet: u8, count: usize)
    requires few { count ≤ LONGEST }
    requires room { array_vec_len text.old + 2 * count ≤ ROOM }
    ensures items { text.new.items ≡ text.old.items ++ encode_lower (replicate count octet) }
    ensures len { array_vec_len text.new ≡ array_vec_len text.old + 2 * count }
{
    let pair = pair_of(octet);
    let mut digits = [0u8; 2 * LONGEST];
    for i in 0..count {
        digits[2 * i] = pair[0];
        digits[2 * i + 1] = pair[1];
    }
    put(text, &digits[..2 * count]);
}

fn put_key(text: &mut Text, number: u32)
    requires { array_vec_len text.old + 32 ≤ ROOM }
    ensures items { text.new.items ≡ text.old.items ++ key number }
    ensures len { array_vec_len text.new ≡ array_vec_len text.old + 32 }
{
    let octets = (number as u128).to_be_bytes();
    put_hex(text, &octets);
}

fn put_keys(text: &mut Text, before: u32)
    requires before { before < 1000 }
    requires room { array_vec_len text.old + 98 ≤ ROOM }
    ensures items { text.new.items ≡ text.old.items ++ keys before }
    ensures len { array_vec_len text.new ≡ array_vec_len text.old + 98 }
{
    put_key(text, before + 1);
    put(text, b" ");
    put_key(text, before + 2);
    put(text, b" ");
    put_key(text, before + 3);
}

/// Adds the lines before the first step.
pub fn put_opening(text: &mut Text)
    requires { text.old.items ≡ [] }
    ensures { text.new.items ≡ opening }
{
    put(text, b"harq 4\nkeys 2 ");
    put_keys(text, 0);
    put(text, b"\nbearer 3 am maxretx=32\nbearer 4 um\n");
}

fn put_handover(text: &mut Text, i: u32)
    requires i { i < 2000 }
    requires empty { text.old.items ≡ [] }
    ensures items { text.new.items ≡ handover i }
    ensures len { array_vec_len text.new ≤ 108 }
{
    if 0 < i && i % 500 == 0 {
        put(text, b"handover ");
        put_keys(text, 3 * i / 500);
        put(text, b"\n");
    }
}

fn sdu_front(kind: u64) -> Option<&'static [u8]>
    ensures front { option_copied result ≡ sdu_front kind }
    ensures len { IfSome result (λ front. length front.now ≡ 12) }
{
    match kind {
        0 | 1 => Some(b"submit nb 3 ".as_slice()),
        2 => Some(b"submit ue 3 ".as_slice()),
        3 => Some(b"submit nb 4 ".as_slice()),
        _ => None,
    }
}

fn put_sdu(text: &mut Text, i: u32, draws: &mut Draws)
    requires { array_vec_len text.old ≤ 108 }
    ensures items { text.new.items ≡ text.old.items
        ++ sdu (sdu_front (drawn 8 (next draws.old))) i (next draws.old) }
    ensures len { array_vec_len text.new ≤ 2921 }
    ensures draws { draws.new ≡ at_tti draws.old }
{
    let Some(front) = sdu_front(draws.draw(8)) else {
        return;
    };
    let size = 1 + draws.draw(1400) as usize;
    put(text, front);
    put_same(text, (i % 256) as u8, size);
    put(text, b"\n");
}

fn outcome(kind: u64) -> &'static [u8]
    ensures text { result.now ≡ outcome kind }
    ensures len { length result.now ≤ 3 }
{
    match kind {
        0 => b"bad",
        1 => b"ok~",
        _ => b"ok",
    }
}

fn put_tti(text: &mut Text, draws: &mut Draws)
    requires { array_vec_len text.old ≤ 2921 }
    ensures items { text.new.items ≡ text.old.items ++ tti draws.old }
    ensures some { 0 < array_vec_len text.new }
    ensures draws { draws.new ≡ next (next draws.old) }
{
    let up = outcome(draws.draw(10));
    let down = outcome(draws.draw(10));
    put(text, b"tti 1500 ");
    put(text, up);
    put(text, b" 1500 ");
    put(text, down);
    put(text, b"\n");
}

/// Adds the lines of a step.
#[tactic(auto, using(std::proofs::Common::append_assoc), unfolding(crate::specs::Script::step, crate::specs::Script::after_step))]
pub fn put_step(text: &mut Text, i: u32, draws: &mut Draws)
    requires i { i < 2000 }
    requires empty { text.old.items ≡ [] }
    ensures items { text.new.items ≡ step i draws.old }
    ensures some { 0 < array_vec_len text.new }
    ensures draws { draws.new ≡ after_step draws.old }
{
    put_handover(text, i);
    put_sdu(text, i, draws);
    put_tti(text, draws);
}

/// Adds the lines behind the last step.
pub fn put_ending(text: &mut Text)
    requires { text.old.items ≡ [] }
    ensures { text.new.items ≡ ending }
{
    put(text, b"drain 1500\nend\n");
}
