// Lists of calls: definitions, and what holds of every such list.
#![tactic(auto)]

ghost use Rattle.call_lists.specs.DayTotals.{DayTotalsShown};
ghost use Rattle.call_lists.specs.Demand3.{Demand3};
ghost use Rattle.call_lists.specs.Records.{RecordBack, WrittenAlike};

// The two-tick, rank and fifty-tick rules hold of every list of calls.
pub fn demand_three()
    ensures { Demand3 }
{}

// Wherever in a list of calls the totals are asked for and told, each is its count over the calls since the opening, up to the limit.
pub fn day_totals()
    ensures { DayTotalsShown }
{}

// Wherever in a list of calls the state is asked for and told, it is had back from its columns, and those from their line.
pub fn record_back()
    ensures { RecordBack }
{}

// Two lists of calls after which the same columns are told: every later list is answered alike.
pub fn written_alike()
    ensures { WrittenAlike }
{}
