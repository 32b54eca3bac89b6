//! What the calls that cut and extend a lookup leave, and what holds of it.
#![tactic(auto)]

ghost use Rattle.splitting.specs.Laws.{CuttingStands, ExtendingStands, StandingOpens};

/// A lookup that was cut stands again, with the hits that it had.
pub fn cutting_stands()
    ensures { CuttingStands }
{}

/// So does one that was extended.
pub fn extending_stands()
    ensures { ExtendingStands }
{}

/// A lookup that stands can be opened.
pub fn standing_opens()
    ensures { StandingOpens }
{}
