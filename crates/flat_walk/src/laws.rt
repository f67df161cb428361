// What holds of the reports of every scenario. The function says the law in its contract, and does nothing.

ghost use Rattle.flat_walk.specs.Laws.{OneReportLaw};

/// A scenario has at most one report of its walk.
pub fn law_one_report()
    ensures { OneReportLaw }
{}
