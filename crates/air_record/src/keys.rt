ghost use Rattle.std.specs.Prelude.{◌≡◌};
ghost use Rattle.air_record.specs.Cells as cells;

use eps_sec::{Cipher, Key, Keys};

/// The keys before any line gives some: no cipher, and keys of zeros.
pub fn no_keys() -> Keys
    ensures { result ≡ cells.no_keys }
{
    let key = Key { octets: [0; 16] };
    Keys {
        alg: Cipher::Eea0,
        user: key,
        rrc: key,
        integrity: key,
    }
}
