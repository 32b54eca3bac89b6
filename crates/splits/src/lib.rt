//! What the calls that cut and extend the open lookup answer, and what every history of calls with them keeps: definitions and their law, not yet used by a call.
#![tactic(auto)]

ghost use Rattle.splits.specs.Histories.{HistoriesKeep};

/// After every `open` that is done, whatever calls follow up to a done `close` or `load`: every pair keeps its hits, `split` with a valid place and reach is refused by 12 exactly if no cutting fits, and a done `split` leaves as few pieces as can be.
pub fn histories_keep()
    ensures { HistoriesKeep }
{}
