//! The entries and the ACK of a STATUS.
ghost use Rattle.std.specs.Prelude.{◌≡◌, ℕ, [], ◌∷◌, ◌++◌, ◌+◌, ◌-◌, ◌*◌, ◌<◌, ◌≤◌, ◌^◌, map};
ghost use Rattle.std.specs.Prelude.{length, drop, OnOk, IfOk, All};
ghost use Rattle.rlc_pdu.specs.Pdus.{IsNack, IsPart};
ghost use Rattle.rlc_am_rx_window.specs.Missing.{entry_bits, AreRanges};
ghost use Rattle.rlc_am_rx.specs.Status.{nack_of, fitting, room_in, last_number, is_same};
ghost use Rattle.rlc_am_rx.specs.Status.{next_number, ack_behind};

use l2_bits::NoMemory;
use rlc_am_rx_window::Missing;
use rlc_pdu::{AM_MODULUS, Nack, Nacks};

/// Adds the entries that fit into so many octets, and returns how many do.
#[tactic(auto, using(crate::proofs::ReportLemmas::choosing))]
pub(crate) fn choose(all: &[Missing], size: u32, nacks: &mut Nacks) -> Result<usize, NoMemory>
    requires ranges { AreRanges all.now }
    requires none { nacks.old ≡ [] }
    ensures count { IfOk result (λ count. count ≡ length (fitting (room_in size) all.now)) }
    ensures within { IfOk result (λ count. count ≤ length all.now) }
    ensures nacks { OnOk result (nacks.new ≡ map nack_of (fitting (room_in size) all.now)) }
    ensures sound { OnOk result (All IsNack nacks.new) }
{
    let mut room = (8 * size as u64).saturating_sub(15);
    let mut count = 0;
    for missing in all {
        let bits = entry_bits(missing);
        if bits > room {
            break;
        }
        nacks.push(nack_of(missing))?;
        room -= bits;
        count += 1;
    }
    Ok(count)
}

fn entry_bits(missing: &Missing) -> u64
    ensures { result ≡ entry_bits missing.now }
{
    if missing.part.is_some() { 42 } else { 12 }
}

fn nack_of(missing: &Missing) -> Nack
    requires { IsPart missing.now.part }
    ensures value { result ≡ nack_of missing.now }
    ensures sound { IsNack result }
{
    Nack {
        sn: (missing.number % AM_MODULUS) as u32,
        part: missing.part,
    }
}

/// The ACK behind the first so many entries.
pub(crate) fn ack_behind(all: &[Missing], count: usize, bound: u64) -> u64
    requires { count ≤ length all.now }
    ensures { result ≡ ack_behind all.now count bound }
{
    next_number(&all[count..], last_number(all, count), bound)
}

fn last_number(all: &[Missing], count: usize) -> Option<u64>
    requires { count ≤ length all.now }
    ensures { result ≡ last_number all.now count }
{
    if count == 0 {
        None
    } else {
        Some(all[count - 1].number)
    }
}

fn next_number(left: &[Missing], last: Option<u64>, bound: u64) -> u64
    ensures { result ≡ next_number left.now last bound }
{
    for missing in left {
        if !is_same(missing.number, last) {
            return missing.number;
        }
    }
    bound
}

fn is_same(number: u64, last: Option<u64>) -> bool
    ensures { result ≡ is_same number last }
{
    match last {
        None => false,
        Some(last) => number == last,
    }
}
