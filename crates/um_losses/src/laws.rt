// Laws of the definitions, each proved as the contract of a function that does nothing.
ghost use Rattle.um_losses.specs.Laws.{TagIsRead, HearAlike};

/// The law that the tag of the element which ends an SDU is read from the SDU.
pub fn tag_is_read()
    ensures { TagIsRead }
{}

/// The law that a receiver which hears tags in the place of octets, and whose timer expires at the
/// same moments, hands up as many SDUs at the same moments.
pub fn tags_are_heard_alike()
    ensures { HearAlike }
{}
