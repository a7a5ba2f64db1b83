//! What holds of every order (docs/COMPILER.md, "Why a label is the least"), as functions without arguments whose
//! contracts are the laws.
ghost use Rattle.eval_order.specs.Laws.{HoldsLabel, BestIsOrder, BestHoldsLabel};

/// No order, whatever it interleaves, holds fewer results than the label.
pub fn least_laws()
    ensures { HoldsLabel }
{}

/// The best order holds no more.
pub fn best_laws()
    ensures order { BestIsOrder }
    ensures most { BestHoldsLabel }
{}
