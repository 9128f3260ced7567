// What the reported buffers of a terminal ask for.
ghost use Rattle.std.specs.Prelude.{◌≡◌, ◌<◌};
ghost use Rattle.std.specs.List.{All};
ghost use Rattle.cell_sched.specs.Wishes.{upper_edge, wish_of};

use prioritise::EDGES;

/// What a terminal may always ask for, so that it can report its buffers.
pub const LEAST_WISH: u64 = 64;

// The last level, which has no upper edge, counts as the one before.
const LAST_EDGE: u8 = 62;

/// The uplink wish of a terminal that reports these Buffer Size levels, below 64, of its four
/// groups: 64 octets and the upper edges of the levels (TS 36.321 6.1.3.1), level 63 counting
/// 150000.
#[tactic(auto, unfolding(crate::specs::Wishes::wish_of))]
pub fn wish(levels: &[u8; 4]) -> u64
    requires { All (λ level. level < 64) levels.now }
    ensures { result ≡ wish_of levels.now }
{
    let [first, second, third, fourth] = *levels;
    LEAST_WISH
        + upper_edge(first) as u64
        + upper_edge(second) as u64
        + upper_edge(third) as u64
        + upper_edge(fourth) as u64
}

fn upper_edge(level: u8) -> u32
    ensures { result ≡ upper_edge level }
{
    EDGES[level.min(LAST_EDGE) as usize]
}
