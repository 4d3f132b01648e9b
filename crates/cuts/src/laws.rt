// The laws of separators and cuts. These functions do nothing: each carries the law in its contract.
ghost use Rattle.cuts.specs.Laws.{SeparatorsAreShortest, LeafCutsAreFairest, BranchCutsAreJustPastHalf};
ghost use Rattle.cuts.specs.Laws.{LeafCutsFit, BranchCutsFit, OverfullLeavesAreCut, OverfullBranchesAreCut};
ghost use Rattle.cuts.specs.Laws.{FilledBranchesHaveTwoCells};

pub fn separators_are_shortest()
    ensures { SeparatorsAreShortest }
{}

pub fn leaf_cuts_fit()
    ensures { LeafCutsFit }
{}

pub fn branch_cuts_fit()
    ensures { BranchCutsFit }
{}

pub fn branch_cuts_are_just_past_half()
    ensures { BranchCutsAreJustPastHalf }
{}

pub fn overfull_leaves_are_cut()
    ensures { OverfullLeavesAreCut }
{}

pub fn overfull_branches_are_cut()
    ensures { OverfullBranchesAreCut }
{}

pub fn leaf_cuts_are_fairest()
    ensures { LeafCutsAreFairest }
{}

pub fn filled_branches_have_two_cells()
    ensures { FilledBranchesHaveTwoCells }
{}
