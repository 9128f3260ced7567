//! What each call of a link adds to its records: these tell which SDUs were submitted and
//! delivered, and which blocks flew. A law is the contract of a function that does nothing.

ghost use Rattle.law_run.specs.AnyCalls.Deeds.{CallsLeaveProcesses};
ghost use Rattle.law_run.specs.AnyCalls.Blocks.{BlocksAreTold};
ghost use Rattle.law_run.specs.AnyCalls.Ends.{CallsGoOn, DrainsGoOn, SubmissionsGoOn, TtisGoOn};
ghost use Rattle.law_run.specs.AnyCalls.Loops.{CallsLoopBack, DrainsLoopBack, FirstIsAtRest};
ghost use Rattle.law_run.specs.AnyCalls.Loops.{SubmissionsLoopBack, TtisLoopBack};
ghost use Rattle.law_run.specs.AnyCalls.Order.{CallsTellInOrder, DrainsTellInOrder};
ghost use Rattle.law_run.specs.AnyCalls.Order.{SubmissionsTellInOrder, TtisTellInOrder};
ghost use Rattle.law_run.specs.AnyCalls.Shown.{BlocksAreShown};
ghost use Rattle.law_run.specs.AnyCalls.Runs.{RunsAreCounted};
ghost use Rattle.law_run.specs.AnyCalls.Told.{CallsAreTold, DrainsAreTold, SubmissionsAreTold};
ghost use Rattle.law_run.specs.AnyCalls.Told.{TtisAreTold};
ghost use Rattle.law_run.specs.AnyCalls.Zero.{CallsBring, DrainsBring, SubmissionsBring, TtisBring};

/// A call that is neither a TTI nor a submission leaves the records that are there, and the count
/// of TTIs. At each end and on each channel the SDUs delivered grow by the `up` records that it
/// adds, and the SDUs that the terminal submits by the `loop` records; the base station submits
/// none. Nothing is told of the air, nor what only the run of a script tells.
pub fn calls_are_told()
    ensures { CallsAreTold }
{}

/// A submission adds nothing, and one SDU is counted at its end and on its channel; or it adds that
/// it was refused, and nothing is counted.
pub fn submissions_are_told()
    ensures { SubmissionsAreTold }
{}

/// A TTI adds its number first, which is the count of those before it. What it adds then tells SDUs
/// as other calls do. One block flies on the downlink where it has a grant, by the process of the
/// TTI, with what comes of it by its outcome, and none where it has none; then the same on the
/// uplink, where a terminal that missed the grant may send nothing. A terminal that sleeps misses
/// both. What is told of a block is what the HARQ process of its sender does in that turn, with the
/// feedback that it reads: on the uplink by the grant, with the NDI that the base station's process
/// gives it. What is told to have come of it is what the process of its receiver makes of it, on
/// the downlink by the NDI of the sender's.
pub fn ttis_are_told()
    ensures { TtisAreTold }
{}

/// A TTI of a drain adds what other TTIs add, where nobody sleeps and every block arrives intact.
pub fn drains_are_told()
    ensures { DrainsAreTold }
{}

/// Of the calls that are neither a TTI nor a submission, another number of visits and a handover
/// empty the HARQ processes of both ends; the others leave them as they are.
pub fn calls_leave_processes()
    ensures { CallsLeaveProcesses }
{}

/// In each call both ends go on by calls of their own, so that what holds of an end over any calls
/// holds of both over any script. A bearer's life begins only as the bearer is added, and in a
/// handover, which begins one of each. The records that are added tell of each end exactly what it
/// tells in these calls. What their bearers take and write, and why data waits, is told only in a
/// TTI as its processes are visited: of a new downlink block and then of a new uplink block, each
/// with what its end tells before it and with no other.
#[tactic(auto, using(crate::proofs::AnyCalls::Advancing::call_goes_on, crate::proofs::AnyCalls::Advancing::submitting_goes, crate::proofs::AnyCalls::Advancing::tti_goes, crate::proofs::AnyCalls::Advancing::drain_goes))]
pub fn ends_go_on_by_calls()
    ensures calls { CallsGoOn }
    ensures submissions { SubmissionsGoOn }
    ensures ttis { TtisGoOn }
    ensures drains { DrainsGoOn }
{}

/// What an end that has come so far by any calls tells as it builds a block is what the block has:
/// it has the grant's size, and is read as padding, at most one report, the PDUs that are told of
/// as sent, in that order, and padding. Each PDU is the one that is told: by the mode of its
/// channel it is read as a PDU of that kind and number, and is its canonical writing; and so is
/// each SDU that is whole in it, as a PDU of PDCP.
pub fn blocks_are_told()
    ensures { BlocksAreTold }
{}

/// Where each bearer of the end is known as what it is, the records behind its new block show the
/// PDUs that are told of as sent, in that order: of each its channel, its kind, its number and its
/// other fields, and, where it is no segment, the SDUs that are whole in it, in their order, by the
/// fields of their PDUs of PDCP. None of these records tells of what can't be read.
pub fn blocks_are_shown()
    ensures { BlocksAreShown }
{}

/// Through any calls from the beginning on, each count of SDUs delivered is the count of `up`
/// records of that end and channel; each count of SDUs submitted is that of the SDUs accepted, and
/// at the terminal also of the `loop` records; and the TTIs are numbered 0, 1 and so on, each once
/// and in order.
pub fn runs_are_counted()
    ensures { RunsAreCounted }
{}

/// What the test loop returns are SDUs that went up at the terminal before, on data bearers with a
/// loop on: on their channels and in their order, each at most once, cut or repeated to the size of
/// mode A, or whole in mode B (TS 36.509 5.4). At each record that a call adds, those that have
/// come back are part of those that the loop kept as the call began and of those that have gone up
/// since; those that it keeps in the end come behind, and just of each of the others a record tells
/// that it finds no place. This holds of a link at rest, as it is at first and after each call.
pub fn loops_return_in_order()
    ensures first { FirstIsAtRest }
    ensures calls { CallsLoopBack }
    ensures submissions { SubmissionsLoopBack }
    ensures ttis { TtisLoopBack }
    ensures drains { DrainsLoopBack }
{}

/// On LCID 0, whose bearer is transparent, the SDUs go up that blocks carry which arrive, block by
/// block and in order (TS 36.321
/// 5.3.3, TS 36.322 5.1.1.2). At each side they are those of the blocks that are told to be got
/// there, as the side reads them, and of the block that is forged there; a block that can't be read
/// carries none, and where the end has no bearer of LCID 0 none goes up. This holds in each call of
/// a link whose ends have come so far by any calls, whatever was told before: nothing else goes up
/// there, at no timer and in no handover.
#[tactic(auto, using(crate::proofs::AnyCalls::Arriving::calls_bring, crate::proofs::AnyCalls::Arriving::submissions_bring, crate::proofs::AnyCalls::Arriving::ttis_bring, crate::proofs::AnyCalls::Arriving::drains_bring))]
pub fn blocks_bring_what_goes_up()
    ensures calls { CallsBring }
    ensures submissions { SubmissionsBring }
    ensures ttis { TtisBring }
    ensures drains { DrainsBring }
{}

/// Each call of a link whose ends have come so far by any calls adds its records in one order, and
/// nothing else. A TTI adds its number, whether the terminal sleeps, what the timers of the base
/// station tell and then those of the terminal, what the test loop owes, the downlink, what the
/// loop returns of it, and the uplink. In each direction a new block stands behind what its end
/// tells as it builds it, and what shows it stands behind it; then comes what became of the block,
/// and where it is got, what the other end tells of it. In a drain timers expire channel by
/// channel, the base station's first. What expires or is forged, and a handover, in which the base
/// station leaves first, stand before what the loop returns of them. Each end tells in its own
/// order: of a new block by the priority of the channels, of one that comes PDU by PDU, of timers
/// and in a handover by ascending LCID.
#[tactic(auto, using(crate::proofs::AnyCalls::Standing::calls_tell, crate::proofs::AnyCalls::Standing::submissions_tell, crate::proofs::AnyCalls::Standing::ttis_tell, crate::proofs::AnyCalls::Standing::drains_tell))]
pub fn records_stand_in_order()
    ensures calls { CallsTellInOrder }
    ensures submissions { SubmissionsTellInOrder }
    ensures ttis { TtisTellInOrder }
    ensures drains { DrainsTellInOrder }
{}
