//! What a grant brings in a drain. The laws speak of the shares that `prioritise` gives, and of
//! what a bearer writes within its share.

ghost use Rattle.law_drain.specs.Grants.{IdleIsQuiet, OneShareIsEven, SharesAreUsed};
ghost use Rattle.law_drain.specs.Sharing.{GrantsAreUsed, MetNeedsWrite};

/// Where the channels need at least a grant, the share of one of them is an eleventh of it or more:
/// 19 octets of 202.
pub fn one_share_is_even()
    ensures { OneShareIsEven }
{}

/// A bearer that needs some of a grant writes a STATUS or a data PDU within a share of 8 octets or
/// more, a transparent one within the share that it needs.
pub fn shares_are_used()
    ensures { SharesAreUsed }
{}

/// And so does a bearer of any mode that gets just what it needs, each SDU having an octet.
pub fn met_needs_write()
    ensures { MetNeedsWrite }
{}

/// So where a channel needs some of a grant of 200 octets or more, the bearer of one of them writes
/// by its share: either all get what they need, or one gets 19 octets or more. A transparent bearer
/// stands first, with an infinite rate, and gets what it needs.
pub fn grants_are_used()
    ensures { GrantsAreUsed }
{}

/// An acknowledged bearer that needs nothing of a grant, with something that isn't acknowledged,
/// waits for its poll timer: nothing waits to be sent again, and nothing is left to send or to take
/// or the window is shut. HARQ holds none of its numbers, and its limit wasn't reached.
pub fn idle_is_quiet()
    ensures { IdleIsQuiet }
{}
