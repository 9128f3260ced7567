ghost use Rattle.std.specs.Prelude.{◌≡◌, ◌++◌, OnOk, OnErr, decimal};

use itoa::Buffer;
use l2_bits::{Bytes, NoMemory};

/// Adds a number in decimal digits at the end. An `Err` changes nothing.
pub fn append_number(text: &mut Bytes, number: u64) -> Result<(), NoMemory>
    ensures ok { OnOk result (text.new ≡ text.old ++ decimal number) }
    ensures err { OnErr result (text.new ≡ text.old) }
{
    let mut buffer = Buffer::new();
    text.append(buffer.format(number).as_bytes())
}
