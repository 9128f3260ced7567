ghost use Rattle.std.specs.Prelude.{◌≡◌, ◌≢◌};
ghost use Rattle.eps_sec.specs.Modes.{eea2, eia2};
ghost use Rattle.l2_c.specs.Answers.{stream_answer};
ghost use Rattle.c_answers.specs.declared.TheConstants.{DONE};

use c_answers::{DONE, RANGE};
use eps_sec::{Cipher, Key, Schedule, eea_apply, eia_tag};

// What is answered of the place of a stream.
fn stream_answer(bearer: u32, direction: u32) -> u32
    ensures { result ≡ stream_answer bearer direction }
{
    if bearer < 32 && direction < 2 {
        DONE
    } else {
        RANGE
    }
}

/// 128-EEA2 (TS 33.401 B.1.3): ciphers or deciphers `text` in place; both are the same.
///
/// `count` is the COUNT of the PDU, `bearer` its radio bearer's identity less 1, below 32, and
/// `direction` 0 on the uplink and 1 on the downlink. `RANGE` leaves the text.
#[unsafe(no_mangle)]
pub extern "C" fn zubhanit_eea2(
    key: &[u8; 16],
    count: u32,
    bearer: u32,
    direction: u32,
    text: &mut [u8],
) -> u32
    ensures answer { result ≡ stream_answer bearer direction }
    ensures done { result ≡ DONE → text.new ≡ eea2 key.now count bearer direction text.old }
    ensures kept { result ≢ DONE → text.new ≡ text.old }
{
    let answer = stream_answer(bearer, direction);
    if answer == DONE {
        let schedule = Schedule::new(&Key { octets: *key });
        eea_apply(&schedule, Cipher::Eea2, count, bearer, direction, text);
    }
    answer
}

/// 128-EIA2 (TS 33.401 B.2.3): the code MAC-I of `message`. `count`, `bearer` and `direction` are
/// as in [`zubhanit_eea2`]. `RANGE` leaves `tag`.
#[unsafe(no_mangle)]
pub extern "C" fn zubhanit_eia2(
    key: &[u8; 16],
    count: u32,
    bearer: u32,
    direction: u32,
    message: &[u8],
    tag: &mut [u8; 4],
) -> u32
    ensures answer { result ≡ stream_answer bearer direction }
    ensures done { result ≡ DONE → tag.new ≡ eia2 key.now count bearer direction message.now }
    ensures kept { result ≢ DONE → tag.new ≡ tag.old }
{
    let answer = stream_answer(bearer, direction);
    if answer == DONE {
        let schedule = Schedule::new(&Key { octets: *key });
        *tag = eia_tag(&schedule, count, bearer, direction, message);
    }
    answer
}
