// The order of logical channels.
ghost use Rattle.std.specs.Prelude.{◌≡◌};
ghost use Rattle.prioritise.specs.Channels.{goes_before};

use l2_types::Channel;

pub(crate) fn is_before(one: &Channel, other: &Channel) -> bool
    ensures { result ≡ goes_before one.now other.now }
{
    one.priority < other.priority || (one.priority == other.priority && one.lcid < other.lcid)
}
