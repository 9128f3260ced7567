//! What the processes promise over any list of calls, each proved as the contract of a function
//! that does nothing.
ghost use Rattle.std.specs.Prelude.{◌≡◌, ℕ, ◌≤◌, Bool, true, List};
ghost use Rattle.harq.specs.SendHistory.{Step, KeepsBlocks, CountsBlocks, are_down, is_odd};
ghost use Rattle.harq.specs.SendHistory.{world_after};
ghost use Rattle.harq.specs.SendHistory.{start};
ghost use Rattle.harq.specs.ReceiveHistory.{DownStep, AnswersRight, Arrival, Follows, heard_of};
ghost use Rattle.harq.specs.ReceiveHistory.{once_answer, right_answer, down_run, down_start};
ghost use Rattle.harq.specs.ReceiveHistory.{UpStep, GrantsRight, up_run, up_start};

/// A process holds its last new block until a good feedback or until the last of at most `maximum`
/// visits, sent or not. The k-th sending of a block has the version 0, 2, 3 or 1 by k modulo 4, and
/// the same octets.
pub fn sender_keeps_blocks()
    ensures { (maximum : ℕ) (steps : List Step) → 1 ≤ maximum
        → KeepsBlocks (world_after steps (start maximum)) }
{}

/// On the downlink the NDI is the parity of a process's new blocks since the last reset.
pub fn ndi_counts_blocks()
    ensures { (maximum : ℕ) (steps : List Step) → are_down steps ≡ true
        → CountsBlocks (world_after steps (start maximum)) }
{}

/// An intact block is handed up once: a further one is told apart as long as no other NDI was seen
/// since, and the first one with another NDI is new.
pub fn intact_block_goes_up_once()
    ensures { (maximum : ℕ) (steps : List DownStep)
        → AnswersRight (down_run steps (down_start maximum)) }
{}

/// Where blocks have numbers whose parity is the NDI, and none is wholly unseen, each block is
/// handed up at its first intact arrival and at no further one.
pub fn numbered_block_goes_up_once()
    ensures { (number : ℕ) (good : Bool) (past : List Arrival) → Follows number past
        → right_answer (is_odd number) good (heard_of past) ≡ once_answer number good past }
{}

/// On the uplink the NDI is the parity of a process's awards since the last reset. An award is a
/// grant while none is awaited; it is awaited until its block came intact or its visits have ended.
pub fn ndi_counts_awards()
    ensures { (maximum : ℕ) (steps : List UpStep) → 1 ≤ maximum
        → GrantsRight (up_run steps (up_start maximum)) }
{}
