//! Laws of PDCP entities over lives: any calls, and re-establishments under any keys. The functions
//! do nothing; each contract is a law of the machines in `pdcp_tx` and `pdcp_rx`, which the
//! entities' calls meet exactly.

ghost use Rattle.std.specs.Prelude.{◌≡◌, ◌≢◌, ℕ, ◌++◌, [], List, IsTrue};
ghost use Rattle.pdcp_pdu.specs.declared.PdcpKind.{PdcpKind};
ghost use Rattle.pdcp_pdu.specs.declared.PdcpKind.TheVariants.{Srb, Am};
ghost use Rattle.pdcp_pdu.specs.Kinds.{IsKind, is_am};
ghost use Rattle.pdcp_sec.specs.Protection.{Protection};
ghost use Rattle.pdcp_tx.specs.State.{State, start};
ghost use Rattle.l2_num.specs.Ascending.{IsAscending};
ghost use Rattle.pdcp_tx.specs.Pdus.{pdu};
ghost use Rattle.pdcp_tx.specs.Runs.{Call, IsOrdered};
ghost use Rattle.pdcp_rx.specs.State.{State as Receiving};
ghost use Rattle.pdcp_rx.specs.Heard.{heard};
ghost use Rattle.pdcp_rx.specs.Opening.{opened};
ghost use Rattle.pdcp_rx.specs.declared.security.Opened.TheVariants.{Sdu};
ghost use Rattle.law_pdcp.specs.OneEnd.Again.{LeavesOutWhatIsTold, LeavesOutTheTold};
ghost use Rattle.law_pdcp.specs.OneEnd.Bounds.{IsBounded, StandsStill};
ghost use Rattle.law_pdcp.specs.OneEnd.Receiving.{Hearing, ups_of, body_of, as_written};
ghost use Rattle.law_pdcp.specs.OneEnd.Lives.{Step, run_pdcp_sender, cipherings, first_taken};
ghost use Rattle.law_pdcp.specs.OneEnd.Lives.{AreNamed, queue};
ghost use Rattle.law_pdcp.specs.OneEnd.Lives.{left_in, submitted_in};

/// Through lives, what is to be taken again ascends below the next new COUNT; so in each life the
/// COUNTs that are taken ascend, and none is taken twice.
#[tactic(auto, using(crate::proofs::OneEnd::Lives::lives_are_ordered))]
pub fn lives_in_order()
    ensures { (kind : PdcpKind) (p : Protection) (first : ℕ) (steps : List Step)
        → IsOrdered (run_pdcp_sender steps (start kind p first)) }
{}

/// On an acknowledged data bearer a COUNT names one SDU, through all lives: that of its place among
/// the SDUs as they were taken for the first time. So under no key are two texts ciphered with one
/// COUNT.
#[tactic(auto, using(crate::proofs::OneEnd::Naming::counts_are_named))]
pub fn counts_name_sdus()
    ensures { (kind : PdcpKind) (p : Protection) (first : ℕ) (steps : List Step)
        → IsTrue (is_am kind)
        → AreNamed first (first_taken (start kind p first) steps)
        (cipherings (start kind p first) steps) }
{}

/// On a data bearer SDUs leave the queue in the order in which they were submitted, each once:
/// taken, or discarded while none was taken in between.
#[tactic(auto, using(crate::proofs::OneEnd::Queue::in_order))]
pub fn queue_keeps_order()
    ensures { (s : State) (steps : List Step) → s.kind ≢ Srb
        → left_in s steps ++ queue (run_pdcp_sender steps s) ≡ queue s ++ submitted_in steps }
{}

/// On an acknowledged data bearer an SDU is taken only while its COUNT lies less than half the
/// sequence numbers above the first unconfirmed one.
#[tactic(auto, using(crate::proofs::OneEnd::Bounding::bounded))]
pub fn bound_follows_confirmation()
    ensures { (kind : PdcpKind) (p : Protection) (first : ℕ) (steps : List Step)
        → IsTrue (is_am kind) → IsBounded (run_pdcp_sender steps (start kind p first)) }
{}

/// As long as RLC hasn't acknowledged the own status report, that bound stands still.
#[tactic(auto, using(crate::proofs::OneEnd::Bounding::stands_still))]
pub fn bound_stands_still()
    ensures { (s : State) (c : Call) → StandsStill s c }
{}

/// Through lives a receiver of an acknowledged data bearer makes SDUs ready to go up by ascending
/// COUNTs, so each COUNT at most once, and none below the next COUNT as it was at first.
#[tactic(auto, using(crate::proofs::OneEnd::Hearings::ascends))]
pub fn goes_up_in_order_through_lives()
    ensures { (s : Receiving) (xs : List Hearing) → IsTrue (is_am s.kind)
        → IsAscending s.next (ups_of s xs) }
{}

/// What a sender wrote on an acknowledged data bearer is heard with its number, and opened to its
/// SDU.
#[tactic(auto, using(crate::proofs::OneEnd::Openings::heard_as_written, crate::proofs::OneEnd::Openings::opened_again))]
pub fn opens_what_was_written()
    ensures heard { (bits : ℕ) (p : Protection) (count : ℕ) (sdu : List ℕ) → IsKind (Am bits)
        → sdu ≢ [] → heard (Am bits) (pdu (Am bits) p count sdu)
        ≡ as_written (Am bits) p count sdu }
    ensures opened { (bits : ℕ) (p : Protection) (count : ℕ) (sdu : List ℕ)
        → opened (Am bits) p count (body_of (Am bits) p count sdu) ≡ Sdu sdu }
{}

/// Of the SDUs that a life takes again, in order and each once, exactly those are left out that a
/// status report told before they were reached.
#[tactic(auto, using(crate::proofs::OneEnd::Told::leaves_out, crate::proofs::OneEnd::Told::leaves_out_told))]
pub fn report_leaves_out_what_it_told()
    ensures others { (s : State) (calls : List Call) → LeavesOutWhatIsTold s calls }
    ensures told { (s : State) (fms : ℕ) (bitmap : List ℕ) (calls : List Call)
        → LeavesOutTheTold s fms bitmap calls }
{}
