ghost use Rattle.law_sent.specs.Channels.{RecordsGoAlone, BlocksAreRightByChannel, LinesGoAlone};
ghost use Rattle.law_sent.specs.Channels.{BearersBegin, GroupsEndAlone};
ghost use Rattle.law_sent.specs.Senders.{OffersGoOn, SendersWriteRightly};
ghost use Rattle.law_sent.specs.Flows.{FlowsGoOn, BlocksAreRightOnAll, SendsWhatIsPassed};
ghost use Rattle.law_sent.specs.UmSenders.{UmSendersBegin, UmOffersGoOn, UmSendersWriteRightly};

/// Over any calls, what an acknowledged sender writes is right as a checker of journals asks it:
/// each new PDU carries the octets that come next of what RLC was given, each that is sent again
/// octets of its number, and their headers say where SDUs begin and end. So the octets and marks of
/// its history go on as a checker gathers them.
pub fn senders_write_rightly()
    ensures offers { OffersGoOn }
    ensures writes { SendersWriteRightly }
{}

/// What is kept of a channel of acknowledged data while the PDUs of a journal are checked goes on
/// by the records of the channel alone, and a new block is right where it is so on each channel.
pub fn channels_go_alone()
    ensures records { RecordsGoAlone }
    ensures blocks { BlocksAreRightByChannel }
    ensures lines { LinesGoAlone }
    ensures begins { BearersBegin }
    ensures ends { GroupsEndAlone }
{}

/// What is kept of a channel of any kind goes on by its own records too, and a new block is right
/// where it is so on each; a transparent SDU that is taken is what the `send` behind it passes on.
pub fn flows_go_on()
    ensures flows { FlowsGoOn }
    ensures blocks { BlocksAreRightOnAll }
    ensures passes { SendsWhatIsPassed }
{}

/// What an unacknowledged sender writes is right as a checker of journals asks it: each PDU carries
/// the octets that come next of what RLC was given, and its header says where SDUs begin and end.
pub fn um_senders_write_rightly()
    ensures begins { UmSendersBegin }
    ensures offers { UmOffersGoOn }
    ensures writes { UmSendersWriteRightly }
{}
