//! What the rounds of a drain are to the bearers of each channel. A law is the contract of a
//! function that does nothing.

ghost use Rattle.law_run.specs.DrainRounds.{ChannelsStay, DrainsStay, RoundsAreCalls};
ghost use Rattle.law_run.specs.DrainShares.{DrainsBegin, RecordsGoSo, RoundsAreDealt, StepsGoSo};

/// The steps of a drain leave the test loop off, and both ends with their channels.
pub fn drains_stay()
    ensures links { DrainsStay }
    ensures channels { ChannelsStay }
{}

/// From the ninth TTI of a drain on a round is this to the bearers of a channel: that of the base
/// station takes once, that of the terminal hears just what it writes; then the other way round;
/// and then t-Reordering and t-StatusProhibit expire at both, and where nothing was sent
/// t-PollRetransmit.
pub fn rounds_are_calls()
    ensures { RoundsAreCalls }
{}

/// Behind eight TTIs of a drain, whatever timers expire between them and whatever of it is told,
/// the shares of a further round are those of one block each way, in which no end's HARQ holds a
/// number: that of the base station, and that of the terminal behind what it heard.
pub fn rounds_are_dealt()
    ensures begins { DrainsBegin }
    ensures steps { StepsGoSo }
    ensures records { RecordsGoSo }
    ensures rounds { RoundsAreDealt }
{}
