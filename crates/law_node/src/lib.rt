//! What one end of the link promises over any calls. A law is the contract of a function that does
//! nothing.
#![tactic(auto)]

ghost use Rattle.law_node.specs.Bearers.{BearersAreAdded, BearersGoOn};
ghost use Rattle.law_node.specs.Blocks.{BlockHasWhatWasWritten, PdusFitTheirShares};
ghost use Rattle.law_node.specs.Counts.{CountsAscend};
ghost use Rattle.law_node.specs.Holding.{HoldsNoOldNumber};
ghost use Rattle.law_node.specs.Loops.{TellsNoLoop};
ghost use Rattle.law_node.specs.Names.{NamesWhatItSends};
ghost use Rattle.law_node.specs.Order.{EndsShareByBearers, EndsStandInOrder, TellsInItsOrder};
ghost use Rattle.law_node.specs.Processes.{ResendsWhatWasBuilt};
ghost use Rattle.law_node.specs.Sharing.{SharesAreWithinTheGrant};
ghost use Rattle.law_node.specs.Waiting.{TellsInOrder, TellsWhyItWaits};
ghost use Rattle.law_node.specs.Writing.{TellsWhatItSends, WritesOnlyAsItBuilds};

/// A new block has the grant's size. It is read back as padding or none, at most one report,
/// exactly the PDUs that the bearers write, in the order of the channels and each on its own, and
/// padding or none.
pub fn block_has_what_was_written()
    ensures { BlockHasWhatWasWritten }
{}

/// Whatever its calls were, an end's bearers write PDUs of an octet or more each, and with 3 octets
/// for the subheader of each those of a bearer fit its share.
pub fn pdus_fit_their_shares()
    ensures { PdusFitTheirShares }
{}

/// A HARQ process holds the block that it built last until a good feedback or the last of its
/// visits, of which it has at most the number that is set. Each time it is sent, it has the same
/// octets, and the redundancy versions are 0, 2, 3 and 1 in turn.
#[tactic(auto, using(crate::proofs::Processes::resends))]
pub fn resends_what_was_built()
    ensures { ResendsWhatWasBuilt }
{}

/// The shares of a new block add up to at most its grant and 2 octets; none is more than the bearer
/// needs, and where the grant is enough for all, each is what it needs.
pub fn shares_are_within_the_grant()
    ensures { SharesAreWithinTheGrant }
{}

/// A bearer with data writes one data PDU into a block, or else tells once why not: the first that
/// is true of the retransmission limit, a shut window, a number that HARQ holds, and too small a
/// share. One without data writes none and tells nothing of it. What is told of a new block is what
/// its bearers tell, in the order of the channels.
pub fn tells_why_it_waits()
    ensures bearer { TellsWhyItWaits }
    ensures block { TellsInOrder }
{}

/// While a HARQ process holds a block, each number that a bearer gave a data PDU in it lies at most
/// a window below the next number of that bearer, so that it can't be misread: 512, or 16 for
/// numbers of 5 bits.
pub fn holds_no_old_number()
    ensures { HoldsNoOldNumber }
{}

/// What RLC takes and writes, and why data waits, is told only as a block is built: never as one
/// comes, as a TTI begins, as a timer expires or as the end leaves its cell.
pub fn writes_only_as_it_builds()
    ensures { WritesOnlyAsItBuilds }
{}

/// The PDUs that are told of as sent while a block is built are those in it: as many on each
/// channel, and in that order. Each is the one that is told: a transparent one, a UMD PDU, a new
/// AMD PDU, one that is sent again or a segment of it, or a STATUS, with that number, in the
/// canonical writing, and the reader of its kind reads it so. Each SDU that is whole in a UMD or
/// AMD PDU, or in a segment, is a PDU of PDCP of the bearer's kind in the canonical writing, and is
/// read so: a data PDU, on a signalling bearer with its MAC-I, or on an acknowledged data bearer a
/// status report.
pub fn tells_what_it_sends()
    ensures channels { TellsWhatItSends }
    ensures names { NamesWhatItSends }
{}

/// An end's bearer of a channel is the one that was added last, and goes on through any calls by
/// calls of its own, in lives that begin as the end moves. What is told of the channel as taken is
/// what it takes.
pub fn bearers_go_on()
    ensures added { BearersAreAdded }
    ensures on { BearersGoOn }
{}

/// The COUNTs that are told of as taken on a channel ascend as long as no life of its bearer
/// begins, so that under the keys of a life none is taken twice.
pub fn counts_ascend()
    ensures { CountsAscend }
{}

/// In none of its calls does an end tell that the test loop drops an SDU: what the loop drops is
/// told by the link alone.
#[tactic(auto, using(crate::proofs::Looping::tells_no_loop))]
pub fn tells_no_loop()
    ensures { TellsNoLoop }
{}

/// In each of its calls an end tells bearer by bearer, and each bearer in its own order: of a new
/// block in the order of the channels, of a block that comes PDU by PDU, as a TTI begins and as the
/// end leaves its cell by LCID. The channels stand by priority number and then LCID. They are those
/// that its bearers are configured with, also behind a handover, which empties their buckets.
pub fn tells_in_its_order()
    ensures calls { TellsInItsOrder }
    ensures places { EndsStandInOrder }
    ensures channels { EndsShareByBearers }
{}
