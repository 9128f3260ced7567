//! Laws of an acknowledged flow: a sender, a receiver, and what is under way between them, over any
//! steps of one life. They speak of the definitions that `rlc_am_tx` and `rlc_am_rx` meet, and do
//! nothing.

ghost use Rattle.law_rlc.specs.AmPair.Arrives.{ArrivedWasOffered, ArrivalsStay, OnlyDataArrives};
ghost use Rattle.law_rlc.specs.AmPair.Arrives.{NextIsReady, FinishGivesByPlaces};
ghost use Rattle.law_rlc.specs.AmPair.Arrives.{ConfirmsWhatArrived};
ghost use Rattle.law_rlc.specs.AmPair.Confirmed.{ConfirmedArrives};
ghost use Rattle.law_rlc.specs.AmPair.Fields.{HearsWhatWasSent, NothingClashes};
ghost use Rattle.law_rlc.specs.AmPair.Seen.{HandsUpInSequence, FinishGivesTheWhole};
ghost use Rattle.law_rlc.specs.AmPair.Left.{HandsUpAll};
ghost use Rattle.law_rlc.specs.AmPair.Numbers.{KeepsOrder, AckedHasArrived};
ghost use Rattle.law_rlc.specs.AmPair.Sdus.{HandsUpTheFront};
ghost use Rattle.law_rlc.specs.AmPair.Steps.{GoesUpOneByOne, OffersAreSent};
ghost use Rattle.law_rlc.specs.AmPair.Statuses.{ReadsEachNumber};
ghost use Rattle.law_rlc.specs.AmPair.Watched.{PollTimerRuns};

/// Whatever is lost, repeated and delayed, VT(A) ≤ VR(R) ≤ VR(MS) ≤ VR(H) ≤ VT(S) ≤ VT(A) + 512.
pub fn keeps_order()
    ensures { KeepsOrder }
{}

/// Of each number that the sender has heard to be acknowledged, all octets have arrived.
pub fn acked_has_arrived()
    ensures { AckedHasArrived }
{}

/// A STATUS is ignored exactly where its ACK lies below VT(A), and its ACK_SN and each NACK_SN are
/// read as the numbers that they were written for.
pub fn reads_each_number()
    ensures { ReadsEachNumber }
{}

/// The fields of the numbers are one stream of SDUs, and each data PDU that comes carries a part of
/// the field that its number was sent with, which is at most 512 away from VR(R): so none is
/// misread.
pub fn hears_what_was_sent()
    ensures { HearsWhatWasSent }
{}

/// No data PDU that comes clashes with what the receiver holds.
pub fn nothing_clashes()
    ensures { NothingClashes }
{}

/// The SDUs that the receiver handed up, with those that are ready to go up, are the first that the
/// sender was offered: in their order, each once and unchanged.
pub fn hands_up_the_front()
    ensures { HandsUpTheFront }
{}

/// They are exactly those SDUs whose octets and all before them have arrived.
pub fn hands_up_in_sequence()
    ensures { HandsUpInSequence }
{}

/// What went up with what `finish` gives are exactly those SDUs that were offered of which all
/// octets have arrived: in their order, each once and unchanged.
pub fn finish_gives_the_whole()
    ensures { FinishGivesTheWhole }
{}

/// Each SDU that the sender confirms is one of which all octets have arrived, so one that went up
/// or that `finish` gives.
pub fn confirmed_arrives()
    ensures { ConfirmedArrives }
{}

/// An SDU that has arrived is one that was offered.
pub fn arrived_was_offered()
    ensures { ArrivedWasOffered }
{}

/// What has arrived stays so.
pub fn arrivals_stay()
    ensures { ArrivalsStay }
{}

/// No step but a data PDU that comes makes an SDU arrive.
pub fn only_data_arrives()
    ensures { OnlyDataArrives }
{}

/// What is ready to go up are the SDUs that were offered at the places behind those that went up:
/// each has arrived, and the one behind them hasn't.
pub fn next_is_ready()
    ensures { NextIsReady }
{}

/// `Up` takes the first that is ready. No other step changes what went up, and only a data PDU that
/// comes adds to what is ready, behind it.
pub fn goes_up_one_by_one()
    ensures { GoesUpOneByOne }
{}

/// `finish` gives those SDUs that have arrived and weren't handed up, by their places.
pub fn finish_gives_by_places()
    ensures { FinishGivesByPlaces }
{}

/// Each place that the sender is about to confirm is one of an SDU that was offered and has
/// arrived.
pub fn confirms_what_arrived()
    ensures { ConfirmsWhatArrived }
{}

/// An SDU that is offered stands behind those before and hasn't arrived; no other step changes what
/// was offered.
pub fn offers_are_sent()
    ensures { OffersAreSent }
{}

/// Where nothing is left at the sender, what went up and what is ready to are all SDUs that it was
/// offered.
pub fn hands_up_all()
    ensures { HandsUpAll }
{}

/// Unless the limit came, the sender's poll timer runs wherever something isn't acknowledged,
/// nothing waits to be resent, and nothing is left to send or to take, once `settle` was called, or
/// the window is shut: whichever STATUS comes, and however late.
pub fn poll_timer_runs()
    ensures { PollTimerRuns }
{}
