// What each terminal is granted of a total.
ghost use Rattle.std.specs.Prelude.{◌≡◌, ◌<◌, ◌≤◌, sum};
ghost use Rattle.std.specs.List.{All};
ghost use Rattle.cell_sched.specs.Grants.{grants_of};

use l2_types::GREATEST_GRANT;

/// The grants of `users` terminals, 1 to 8, by their wishes: in the order `first`, `first + 1`, ..,
/// modulo `users`, each gets the least of its wish, 9422 and what is left of the total.
///
/// Those that aren't there get 0.
pub fn share(wishes: &[u64; 8], users: u32, first: u32, total: u32) -> [u32; 8]
    requires some { 1 ≤ users }
    requires few { users ≤ 8 }
    requires first { first < users }
    ensures grants { result ≡ grants_of wishes.now users first total }
    ensures within { sum result ≤ total }
    ensures each { All (λ grant. grant ≤ GREATEST_GRANT) result }
{
    let mut grants = [0; 8];
    let mut left = total;
    for place in 0..users {
        let user = ((first + place) % users) as usize;
        let grant = wishes[user].min(GREATEST_GRANT as u64).min(left as u64) as u32;
        grants[user] = grant;
        left -= grant;
    }
    grants
}
