// SDUs of another size.
ghost use Rattle.std.specs.Prelude.{◌≡◌, ◌<◌, length, IfOk};
ghost use Rattle.test_loop.specs.Items.{cut, repeated};

use l2_bits::{Bytes, NoMemory};
use std::alloc::Global;

/// An SDU of 1 octet or more, cut or repeated from its beginning to the size, where that isn't 0.
pub(crate) fn cut(alloc: Global, sdu: &[u8], size: u32) -> Result<Bytes, NoMemory>
    requires { 0 < length sdu.now }
    ensures { IfOk result (λ octets. octets ≡ cut sdu.now size) }
{
    if size == 0 {
        return Bytes::from_slice(alloc, sdu);
    }
    repeated(alloc, sdu, size as usize)
}

fn repeated(alloc: Global, sdu: &[u8], size: usize) -> Result<Bytes, NoMemory>
    requires { 0 < length sdu.now }
    ensures { IfOk result (λ octets. octets ≡ repeated sdu.now size) }
{
    let mut octets = Bytes::new(alloc);
    let mut left = size;
    while left > sdu.len() {
        octets.append(sdu)?;
        left -= sdu.len();
    }
    octets.append(&sdu[..left])?;
    Ok(octets)
}
