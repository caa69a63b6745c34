// The theorems about the definitions, each on the contract of a small function for any measure.
#![tactic(auto)]

ghost use Rattle.theory.specs.Ascent.{AscentPreserves, BestIsUnique};
ghost use Rattle.theory.specs.Building.{BuildsAnswerRight, LevelsAnswer, LevelsStand, QueriesAgree, SectionsMakeANetwork};
ghost use Rattle.theory.specs.Indexed.{IndexedIsRight, SettlesFew};
ghost use Rattle.theory.specs.Sides.{PlainIsRight};
ghost use Rattle.theory.specs.Stopping.{StopIsRight};
ghost use Rattle.theory.specs.Towers.{EntriesAreWalks, LabelsCover};
ghost use Rattle.theory.specs.Worked.{WorkedCases};

use measure::Measure;

// There is only one best cost between two stations.
pub fn best_is_unique<M: Measure>()
    ensures { BestIsUnique M.Measure.meaning }
{}

// One level up the best costs stay.
pub fn ascent_preserves<M: Measure>()
    ensures { AscentPreserves M.Measure.meaning }
{}

// Every entry of a label is the cost of a walk.
pub fn entries_are_walks<M: Measure>()
    ensures { EntriesAreWalks M.Measure.meaning }
{}

// Every walk is covered by a common hub, or by residual entries and a residual walk.
pub fn labels_cover<M: Measure>()
    ensures { LabelsCover M.Measure.meaning }
{}

// Where the stop rule holds, or a side has nothing waiting, the best so far is no worse than any walk between seeds.
pub fn stop_is_right<M: Measure>()
    ensures { StopIsRight M.Measure.meaning }
{}

// The plain query answers the best among all walks.
pub fn plain_is_right<M: Measure>()
    ensures { PlainIsRight M.Measure.meaning }
{}

// The indexed query answers the best among all walks, over any levels and labels that stand on networks.
pub fn indexed_is_right<M: Measure>()
    ensures { IndexedIsRight M.Measure.meaning }
{}

// The indexed query settles at most twice the residual stations.
pub fn settles_few<M: Measure>()
    ensures { SettlesFew M.Measure.meaning }
{}

// What is built over levels that are independent in their networks stands on these networks, however they were picked.
pub fn levels_stand<M: Measure>()
    ensures { LevelsStand M.Measure.meaning }
{}

// Over such levels the indexed query answers the best among all walks of the network.
pub fn levels_answer<M: Measure>()
    ensures { LevelsAnswer M.Measure.meaning }
{}

// Over such levels the indexed query and the plain query answer the same cost.
pub fn queries_agree<M: Measure>()
    ensures { QueriesAgree M.Measure.meaning }
{}

// Sections between stations below n make a network that is the same both ways and has no loop.
pub fn sections_make_a_network<M: Measure>()
    ensures { SectionsMakeANetwork M }
{}

// Every build, of any network under any settings, answers the best among all walks, as the plain query does.
pub fn builds_answer_right<M: Measure>()
    ensures { BuildsAnswerRight M.Measure.meaning }
{}

// The worked cases hold of the definitions.
pub fn worked_cases_hold()
    ensures { WorkedCases }
{}
