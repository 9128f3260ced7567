ghost use Rattle.std.specs.Prelude.{◌≡◌, ◌≢◌, ◌++◌, length, drop};
ghost use Rattle.l2_c.specs.Answers.{room_answer};
ghost use Rattle.c_answers.specs.declared.TheConstants.{DONE};

use c_answers::{DONE, ROOM};

/// Writes octets to the front of a room, and tells how many there are.
pub fn put(octets: &[u8], room: &mut [u8], size: &mut usize) -> u32
    ensures answer { result ≡ room_answer (length octets.now) (length room.old) }
    ensures size { size.new ≡ length octets.now }
    ensures written { result ≡ DONE → room.new ≡ octets.now ++ drop (length octets.now) room.old }
    ensures kept { result ≢ DONE → room.new ≡ room.old }
{
    *size = octets.len();
    if room.len() < octets.len() {
        return ROOM;
    }
    room[..octets.len()].copy_from_slice(octets);
    DONE
}
