ghost use Rattle.std.specs.Prelude.{◌≡◌, ◌+◌, ◌<◌, ◌≤◌, ◌++◌, [], length, take, drop};
ghost use Rattle.l2_io.specs.Machines.{given_count};

// Copies as much from a place on as there is, as goes in and as may be given.
pub fn give(from: &[u8], at: usize, most: usize, into: &mut [u8]) -> usize
    requires place { at ≤ length from.now }
    requires some { 0 < most }
    ensures count { result ≡ given_count (drop at from.now) most (length into.old) }
    ensures room { result ≤ length into.new }
    ensures place { at + result ≤ length from.now }
    ensures given { drop at from.now ≡ take result into.new ++ drop (at + result) from.now }
    ensures end { 0 < length into.old → result ≡ 0 → drop at from.now ≡ [] }
{
    let (_, rest) = from.split_at(at);
    let count = rest.len().min(into.len()).min(most);
    let (front, _) = rest.split_at(count);
    into[..count].copy_from_slice(front);
    count
}
