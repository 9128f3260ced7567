//! The field of 256 elements, from which the round constants come (FIPS 197, section 4).

ghost use Rattle.std.specs.Prelude.{◌≡◌};
ghost use Rattle.eps_sec.specs.Field.{xtime, times};

/// The product with x (4.2.1).
fn xtime(a: u8) -> u8
    ensures { result ≡ xtime a }
{
    if a < 128 {
        2 * a
    } else {
        (2 * (a - 128)) ^ 0x1b
    }
}

/// The product (4.2).
pub(crate) fn times(a: u8, b: u8) -> u8
    ensures { result ≡ times a b }
{
    let mut power = a;
    let mut rest = b;
    let mut sum = 0;
    for _i in 0..8u32 {
        sum ^= (rest % 2) * power;
        power = xtime(power);
        rest /= 2;
    }
    sum
}
