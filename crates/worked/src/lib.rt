//! The worked examples, as rows of one table.
#![tactic(auto)]

ghost use Rattle.std.specs.List.{AllByRecursion};
ghost use Rattle.worked.specs.Rows.{Holds, table};

/// Every row of the table holds.
pub fn rows_hold()
    ensures { AllByRecursion Holds table }
{}
