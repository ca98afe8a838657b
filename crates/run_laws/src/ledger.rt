//! The ledger of each signal.
#![tactic(auto)]

ghost use Rattle.run_laws.specs.Ledger.{LedgerCloses};

/// The law of the ledger: of each signal in scope, what came by the reports of a run is what went by them and what
/// is left.
#[tactic(auto, using(crate::proofs::LedgerMoves::ledger_closes))]
pub fn ledger_closes()
    ensures { LedgerCloses }
{}
