// The buffer report in a block's padding (TS 36.321 5.4.5).
ghost use Rattle.std.specs.Prelude.{◌≡◌, ◌<◌, ◌≤◌, ◌+◌, ◌^◌, ℕ, All, replicate, IfSome, nat_lt};
ghost use Rattle.std.specs.Prelude.{if◌then◌else◌};
ghost use Rattle.std.specs.Option.{unwrap_or};
ghost use Rattle.mac_pdu.specs.Items.{IsReport};
ghost use Rattle.mac_pdu.specs.Writing.{report_size};
ghost use Rattle.l2_node.specs.Writing.{backlog_at, all_waiting, waiting, top_group, report_of};

use crate::finding::find;
use bearer::{Bearer, Running, Side};
use l2_types::Channel;
use prioritise::{Bsr, choose};

// The report of what the bearers have, for so many octets of padding.
pub(crate) fn padding_report(
    side: Side,
    reports: bool,
    bearers: &[Bearer<Running>],
    channels: &[Channel],
    padding: u32,
) -> Option<Bsr>
    requires { All (λ c. c.group < 4) channels.now }
    ensures report { result ≡ report_of side reports bearers.now channels.now padding }
    ensures fields { IfSome result IsReport }
    ensures fits { IfSome result (λ r. 1 + report_size r ≤ padding) }
{
    match side {
        Side::Ue if reports => {
            let (waiting, top) = waiting_of(bearers, channels);
            choose(&waiting, top, padding)
        }
        _ => None,
    }
}

// What waits in each group, in octets, and the group of the first channel with data, or group 0.
#[tactic(auto, unfolding(crate::specs::Writing::waiting))]
fn waiting_of(bearers: &[Bearer<Running>], channels: &[Channel]) -> ([u64; 4], u8)
    requires { All (λ c. c.group < 4) channels.now }
    ensures sums { result.0 ≡ waiting bearers.now channels.now }
    ensures top { result.1 ≡ top_group bearers.now channels.now }
    ensures within { result.1 < 4 }
{
    let mut sums = [0; 4];
    let top = add_waiting(bearers, channels, &mut sums);
    (sums, top.unwrap_or(0))
}

// Adds what waits in each group, and answers the group of the first channel with data.
fn add_waiting(bearers: &[Bearer<Running>], channels: &[Channel], sums: &mut [u64; 4]) -> Option<u8>
    requires { All (λ c. c.group < 4) channels.now }
    ensures sums { sums.new ≡ all_waiting bearers.now channels.now sums.old }
    ensures top { unwrap_or result 0 ≡ top_group bearers.now channels.now }
    ensures within { IfSome result (λ group. group < 4) }
{
    let mut top = None;
    for channel in channels {
        let backlog = backlog_of(bearers, channel.lcid);
        let group = channel.group as usize;
        sums[group] = sums[group].saturating_add(backlog);
        top = or_group(top, backlog, channel.group);
    }
    top
}

// The group of a channel with data where none was found before.
fn or_group(top: Option<u8>, backlog: u64, group: u8) -> Option<u8>
    requires group { group < 4 }
    requires top { IfSome top (λ group. group < 4) }
    ensures group { (others : ℕ) → unwrap_or result others
        ≡ unwrap_or top (if nat_lt 0 backlog then group else others) }
    ensures within { IfSome result (λ group. group < 4) }
{
    match top {
        None if backlog > 0 => Some(group),
        _ => top,
    }
}

// What the bearer of a channel has, in octets.
fn backlog_of(bearers: &[Bearer<Running>], lcid: u8) -> u64
    ensures { result ≡ backlog_at bearers.now lcid }
{
    let at = find(lcid, bearers);
    if at < bearers.len() {
        return bearers[at].backlog();
    }
    0
}
