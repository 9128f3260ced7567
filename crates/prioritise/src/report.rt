// Buffer Size levels and the report that fits into padding.
ghost use Rattle.std.specs.Prelude.{◌≡◌, ◌<◌, ◌≤◌, ◌+◌, position, nat_lt, nat_le, IfSome, length};
ghost use Rattle.mac_pdu.specs.Items.{IsReport};
ghost use Rattle.mac_pdu.specs.Writing.{report_size};
ghost use Rattle.prioritise.specs.Levels.{level_of, groups, first_group, report};

use mac_pdu::Bsr;

/// The upper edges of the Buffer Size levels 0 to 62, in octets (TS 36.321 6.1.3.1).
#[rattlefmt::skip]
pub const EDGES: [u32; 63] = [
    0, 10, 12, 14, 17, 19, 22, 26, 31,
    36, 42, 49, 57, 67, 78, 91, 107, 125,
    146, 171, 200, 234, 274, 321, 376, 440, 515,
    603, 706, 826, 967, 1132, 1326, 1552, 1817, 2127,
    2490, 2915, 3413, 3995, 4677, 5476, 6411, 7505, 8787,
    10287, 12043, 14099, 16507, 19325, 22624, 26487, 31009, 36304,
    42502, 49759, 58255, 68201, 79846, 93479, 109439, 128125, 150000,
];

/// The Buffer Size level of so many octets: the least whose upper edge is at least it, 63 above the
/// last edge.
#[tactic(auto, unfolding(crate::specs::Levels::level_of))]
pub fn level(octets: u64) -> u8
    ensures level { result ≡ level_of octets }
    ensures within { result < 64 }
{
    match first_reaching(&EDGES, octets) {
        Some(at) => at as u8,
        None => 63,
    }
}

fn first_reaching(edges: &[u32], octets: u64) -> Option<usize>
    ensures value { result ≡ position (λ edge. nat_le octets edge) edges.now }
    ensures within { IfSome result (λ at. at < length edges.now) }
{
    edges.iter().position(|edge| octets <= *edge as u64)
}

/// The padding BSR for what waits in each group, in octets; `top` is the group of the
/// highest-priority channel with data. Four octets of padding or more have room for all levels, two
/// or three for one. None exactly where there are fewer than two.
#[tactic(auto, unfolding(crate::specs::Levels::report))]
pub fn choose(waiting: &[u64; 4], top: u8, padding: u32) -> Option<Bsr>
    requires { top < 4 }
    ensures report { result ≡ report waiting.now top padding }
    ensures fields { IfSome result IsReport }
    // With its subheader it has no more octets than the padding.
    ensures fits { IfSome result (λ r. 1 + report_size r ≤ padding) }
{
    if padding < 2 {
        return None;
    }
    if padding >= 4 {
        let levels = [
            level(waiting[0]),
            level(waiting[1]),
            level(waiting[2]),
            level(waiting[3]),
        ];
        return Some(Bsr::Long { levels });
    }
    if groups_with_data(waiting) > 1 {
        return Some(Bsr::Truncated {
            group: top,
            level: level(waiting[top as usize]),
        });
    }
    let group = first_with_data(waiting);
    Some(Bsr::Short {
        group,
        level: level(waiting[group as usize]),
    })
}

fn groups_with_data(waiting: &[u64; 4]) -> usize
    ensures { result ≡ groups waiting.now }
{
    waiting.iter().filter(|octets| **octets > 0).count()
}

// The first group with data, or group 0.
fn first_with_data(waiting: &[u64; 4]) -> u8
    ensures value { result ≡ first_group waiting.now }
    ensures within { result < 4 }
{
    match first_filled(waiting) {
        Some(group) => group as u8,
        None => 0,
    }
}

fn first_filled(waiting: &[u64]) -> Option<usize>
    ensures value { result ≡ position (λ octets. nat_lt 0 octets) waiting.now }
    ensures within { IfSome result (λ group. group < length waiting.now) }
{
    waiting.iter().position(|octets| *octets > 0)
}
