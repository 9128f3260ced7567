//! Laws over any list of calls of an acknowledged receiver. They speak of the definitions that
//! `rlc_am_rx` meets, in the terms of what has arrived, and do nothing.

ghost use Rattle.std.specs.Prelude.{◌≡◌, ℕ, List, is_some};
ghost use Rattle.l2_num.specs.Timers.{runs};
ghost use Rattle.rlc_am_rx_window.specs.Cells.{Cell};
ghost use Rattle.l2_types.specs.declared.AmRxConfig.{AmRxConfig};
ghost use Rattle.law_rlc.specs.AmReceiver.Run.{Call, run_am_receiver, begin, IsFirst, IsOrdered};
ghost use Rattle.law_rlc.specs.AmReceiver.Bound.{go, marked_outset, IsBound};
ghost use Rattle.law_rlc.specs.AmReceiver.Status.{BringSome, ReadBringSome, IsTrueStatus};
ghost use Rattle.law_rlc.specs.AmReceiver.Due.{ask, unasked};
ghost use Rattle.law_rlc.specs.AmReceiver.Finish.{IsStream, IsFinished};
ghost use Rattle.law_rlc.specs.AmReceiver.Stream.{IsField, AreHonest, flow, initial, IsInSequence};
ghost use Rattle.law_rlc.specs.AmReceiver.Stream.{NoneClashes};

/// Whatever calls come, VR(R) is the least number of which some place hasn't arrived, and VR(R) ≤
/// VR(MS) ≤ VR(H).
pub fn first_is_least()
    ensures least { (config : AmRxConfig) (calls : List Call)
        → IsFirst (run_am_receiver calls (begin config)) }
    ensures ordered { (config : AmRxConfig) (calls : List Call)
        → IsOrdered (run_am_receiver calls (begin config)) }
{}

/// VR(MS) is the least number of which some place hasn't arrived, at or above each mark whose timer
/// has expired.
pub fn bound_is_least()
    ensures { (config : AmRxConfig) (calls : List Call)
        → IsBound (go calls (marked_outset config)) }
{}

/// Where each PDU carries a part of the field that its number has, the SDUs that go up are those of
/// the fields in sequence, each once and unchanged, and one is ready as soon as every octet up to
/// its end has arrived.
pub fn goes_up_in_sequence()
    ensures { (field : ℕ → List Cell) (config : AmRxConfig) (calls : List Call)
        → ((n : ℕ) → IsField (field n)) → AreHonest field (initial config).state calls
        → IsInSequence field (flow calls (initial config)) }
{}

/// Where each PDU carries a part of the field that its number has, none clashes.
pub fn never_clashes()
    ensures { (field : ℕ → List Cell) (config : AmRxConfig) (calls : List Call)
        → ((n : ℕ) → IsField (field n)) → AreHonest field (initial config).state calls
        → NoneClashes (initial config).state calls }
{}

/// The reordering timer runs exactly where it has a mark, VR(X).
pub fn timer_runs_with_mark()
    ensures { (config : AmRxConfig) (calls : List Call)
        → runs (run_am_receiver calls (begin config)).state.reorder
        ≡ is_some (run_am_receiver calls (begin config)).state.mark }
{}

/// Whatever PDUs come, a STATUS has the longest beginning that fits of all that is missing from
/// VR(R) on below VR(MS), and its ACK is the least number from VR(R) on that isn't complete and has
/// no entry. This holds where each PDU brings an octet, as each one does that was read.
pub fn status_is_true()
    ensures read { ReadBringSome }
    ensures status { (config : AmRxConfig) (calls : List Call) (size : ℕ) → BringSome calls
        → IsTrueStatus (run_am_receiver calls (begin config)) size }
{}

/// A STATUS is due exactly where since the last one the reordering timer expired, a polled PDU was
/// dropped as outside the window or as a repeat, or a polled number came to lie below VR(MS).
pub fn status_is_due_where_asked()
    ensures { (config : AmRxConfig) (calls : List Call)
        → (ask calls (unasked config)).state.due ≡ (ask calls (unasked config)).asked }
{}

/// Where each PDU carries a part of the field that its number has, what went up with what `finish`
/// gives are exactly the SDUs all of whose octets have arrived, in their order, each once and
/// unchanged.
pub fn finish_gives_what_is_whole()
    ensures { (field : ℕ → List Cell) (config : AmRxConfig) (calls : List Call) → IsStream field
        → AreHonest field (initial config).state calls
        → IsFinished field (run_am_receiver calls (begin config))
        (flow calls (initial config)).gone }
{}
