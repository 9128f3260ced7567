//! What a round of a drain makes of the measure of a channel, whatever its mode. The law speaks of
//! the bearers at both ends.

ghost use Rattle.law_drain.specs.Channels.{ChannelsNeverRise};
ghost use Rattle.law_drain.specs.Falling.{ChannelsFall};
ghost use Rattle.law_drain.specs.Few.{EndMeasuresAreFew};
ghost use Rattle.law_drain.specs.Left.{ChannelsAreEnds, EndMeasuresAreLeft, EndsNeverRise};

/// What both bearers of a channel have still to send never rises in a round of a drain: of
/// transparent and unacknowledged mode the octets that wait, of acknowledged mode the measure of
/// the flows in both directions.
pub fn channels_never_rise()
    ensures { ChannelsNeverRise }
{}

/// It falls by one or more in a further round in which one of both bearers writes; and where
/// neither does, as the poll timer of a quiet one expires.
pub fn channels_fall()
    ensures { ChannelsFall }
{}

/// The measure of a channel is at most what both its ends have still to send, with 6 for what is
/// pending and quiet; and that is at each end at most 594 times the octets that are left there,
/// with 203,049 for the own report.
pub fn measures_are_left()
    ensures ends { EndMeasuresAreLeft }
    ensures channels { ChannelsAreEnds }
{}

/// And it is at most 2^53 octets, where at most as many SDUs are to be given again as there are
/// COUNTs of 32 bits.
pub fn measures_are_few()
    ensures { EndMeasuresAreFew }
{}

/// What an end of a channel has still to send rises in no call of a drain, whatever comes from the
/// other end.
pub fn ends_never_rise()
    ensures { EndsNeverRise }
{}
