// The COUNT of a PDCP PDU.
ghost use Rattle.std.specs.Prelude.{◌≡◌, ◌<◌, ◌≤◌, ◌+◌, ◌-◌, ◌*◌, ◌/◌, ◌%◌, ◌^◌, MatchOption};

/// A COUNT of 32 bits (TS 36.323 6.3.5): the hyper frame number above the `bits` bits of the
/// sequence number. `bits` is 1 to 31.
#[derive(Clone, Copy, Debug, PartialEq, Eq)]
pub struct Count {
    pub hfn: u32,
    pub sn: u32,
    pub bits: u32,
    ghost bits_in: { (1 ≤ bits) × (bits ≤ 31) },
    ghost sn_in: { sn < 2 ^ bits },
    ghost fits: { hfn * 2 ^ bits + sn < 2 ^ 32 },
}

impl Count {
    ghost use Rattle.l2_num.specs.Counts.{whole_of};

    /// The COUNT of this value whose SN has `bits` bits.
    pub fn from_whole(whole: u32, bits: u32) -> Count
        requires { (1 ≤ bits) × (bits ≤ 31) }
        ensures hfn { result.hfn ≡ whole / 2 ^ bits }
        ensures sn { result.sn ≡ whole % 2 ^ bits }
        ensures bits { result.bits ≡ bits }
        ensures whole { whole_of result ≡ whole }
    {
        let size = power(bits);
        Count {
            hfn: whole / size,
            sn: whole % size,
            bits,
        }
    }

    /// All 32 bits as one number.
    pub fn whole(&self) -> u32
        ensures { result ≡ whole_of self.now }
    {
        self.hfn * power(self.bits) + self.sn
    }

    /// The COUNT after this one: None exactly at 2^32 - 1, for a COUNT never wraps.
    pub fn next(&self) -> Option<Count>
        ensures { MatchOption result (whole_of self.now ≡ 2 ^ 32 - 1)
            (λ c. (c.bits ≡ self.now.bits) × (whole_of c ≡ whole_of self.now + 1)) }
    {
        let whole = self.whole().checked_add(1)?;
        Some(Count::from_whole(whole, self.bits))
    }
}

fn power(bits: u32) -> u32
    requires { bits ≤ 31 }
    ensures { result ≡ 2 ^ bits }
{
    1 << bits
}
