//! The weight of moves: how many records of threads they change, and that their steps are at least as many.

ghost use Rattle.run_laws.specs.MoveWeights.{ChangesCoverWeights, StepsCoverWeights, StaysCoverWeights, MovesSinceLast, PlainWeighsOne, SignalWeighsNothing, EndWeighsNothing};
ghost use Rattle.run_laws.specs.WeightExamples as examples;

/// Small changes are at least as many as the threads whose records they change together.
#[tactic(auto, using(crate::proofs::MoveWeightLemmas::changes_cover_weights))]
pub fn changes_cover_weights()
    ensures { ChangesCoverWeights }
{}

/// The steps of which moves are made are at least as many as the moves weigh together: of any list of moves, and
/// of those since the last instruction.
#[tactic(auto, using(crate::proofs::MoveWeightLemmas::steps_cover_weights, crate::proofs::MoveWeightLemmas::stays_cover_weights))]
pub fn steps_cover_weights()
    ensures all { StepsCoverWeights }
    ensures since { StaysCoverWeights }
{}

/// The moves since the last instruction and those before are all, and the instruction is the first of them.
pub fn moves_since_last()
    ensures { MovesSinceLast }
{}

/// A plain instruction weighs 1 at most; a signal that arrives, and a delivery that ends the process, weigh nothing.
#[tactic(auto, using(crate::proofs::MoveWeightLemmas::plain_weighs_one, crate::proofs::LightMoveLemmas::signal_weighs_nothing))]
pub fn light_moves()
    ensures plain { PlainWeighsOne }
    ensures signal { SignalWeighsNothing }
    ensures end { EndWeighsNothing }
{}

/// A yield and a signal that is sent change one record, a mutex that is handed over two, a broadcast to three waiters four, a create two, and
/// the end of a thread that is joined two.
#[tactic(auto, using(crate::proofs::WeightExampleLemmas::yield_weighs, crate::proofs::WeightExampleLemmas::kill_weighs, crate::proofs::WeightExampleLemmas::hand_over_weighs, crate::proofs::WeightExampleLemmas::broadcast_weighs, crate::proofs::WeightExampleLemmas::create_weighs, crate::proofs::WeightExampleLemmas::end_weighs))]
pub fn weights_of_calls()
    ensures yields { examples.YieldWeighs }
    ensures kill { examples.KillWeighs }
    ensures hand_over { examples.HandOverWeighs }
    ensures broadcast { examples.BroadcastWeighs }
    ensures create { examples.CreateWeighs }
    ensures end { examples.EndWeighs }
{}

/// A yield is made of two small changes, and a mutex that is handed over of four.
#[tactic(auto, using(crate::proofs::WeightExampleLemmas::yield_is_made, crate::proofs::WeightExampleLemmas::hand_over_is_made))]
pub fn changes_of_calls()
    ensures yields { examples.YieldIsMade }
    ensures hand_over { examples.HandOverIsMade }
{}

/// Which moves of a list are since its last instruction.
pub fn moves_since()
    ensures { examples.Since }
{}
