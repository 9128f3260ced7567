ghost use Rattle.std.specs.Prelude.{◌≡◌, ◌+◌, ◌<◌, ◌≤◌, ◌^◌, ◌++◌, length, map, sum_by, All};
ghost use Rattle.mac_pdu.specs.Items.{element, sdu_item};
ghost use Rattle.mac_pdu.specs.Writing.{control_size, IsSdu, full_size, saved, item_size};
ghost use Rattle.mac_pdu.specs.Writing.{length_field};

use crate::builder::Sdu;
use crate::item::{Bsr, Control};

/// How many octets F and L take.
fn length_len(len: usize) -> usize
    ensures { result ≡ length (length_field len) }
{
    if len < 128 { 1 } else { 2 }
}

/// How many octets an SDU takes with a subheader that another follows.
fn sdu_len(len: usize) -> usize
    requires { len < 2 ^ 15 }
    ensures { result ≡ 1 + length (length_field len) + len }
{
    1 + length_len(len) + len
}

/// How many octets a control element has.
fn control_len(control: &Control) -> usize
    ensures size { result ≡ control_size control.now }
    ensures small { result ≤ 6 }
{
    match control {
        Control::Contention(_) => 6,
        Control::Drx => 0,
        Control::Crnti(_) => 2,
        Control::Report(Bsr::Long { .. }) => 3,
        _ => 1,
    }
}

/// How many octets control elements take where another follows them.
pub fn controls_len(controls: &[Control]) -> usize
    requires { sum_by (λ c. item_size (element c)) controls.now < 2 ^ 32 }
    ensures { result ≡ sum_by (λ c. item_size (element c)) controls.now }
{
    controls
        .iter()
        .map(|control| 1 + control_len(control))
        .sum()
}

/// How many octets SDUs take where another follows them.
pub fn sdus_len(sdus: &[Sdu]) -> usize
    requires all { All IsSdu sdus.now }
    requires fits { sum_by (λ s. item_size (sdu_item s)) sdus.now < 2 ^ 32 }
    ensures { result ≡ sum_by (λ s. item_size (sdu_item s)) sdus.now }
{
    sdus.iter()
        .map(|sdu| sdu_len(sdu.octets.as_slice().len()))
        .sum()
}

/// How many octets all items take where another follows.
pub fn full_len(controls: &[Control], sdus: &[Sdu]) -> usize
    requires all { All IsSdu sdus.now }
    requires fits { full_size (map element controls.now ++ map sdu_item sdus.now) < 2 ^ 29 }
    ensures { result ≡ full_size (map element controls.now ++ map sdu_item sdus.now) }
{
    controls_len(controls) + sdus_len(sdus)
}

/// How many octets the last SDU needs less where none follows.
pub fn saved_len(sdus: &[Sdu]) -> usize
    ensures { result ≡ saved sdus.now }
{
    match sdus.split_last() {
        None => 0,
        Some((last, _)) => length_len(last.octets.as_slice().len()),
    }
}
