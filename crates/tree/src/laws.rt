// The laws of trees. These functions do nothing: each carries the law in its contract.
ghost use Rattle.tree.specs.Laws.{RisingPairsAreAMap, TreesAreMaps, PutsInsertAndRemovesDelete};
ghost use Rattle.tree.specs.Laws.{TheEmptyTreeIsSound, EditsKeepTreesSound, SearchFindsThePair, EditsChangeOneKey};
ghost use Rattle.tree.specs.Laws.{FirstAboveIsTheNext, AfterFindsTheNextPair, EditsGoByPlace};
ghost use Rattle.tree.specs.Laws.{StepsCommuteWithReading};
ghost use Rattle.tree.specs.LawsOfSize.{MarkedStepsAreTheEdits, EditsMakeFewNodes, EditsAddFewNodes, BranchesAreWide};
ghost use Rattle.tree.specs.LawsOfSize.{SoundTreesAreLow};

pub fn rising_pairs_are_a_map()
    ensures { RisingPairsAreAMap }
{}

pub fn trees_are_maps()
    ensures { TreesAreMaps }
{}

pub fn puts_insert_and_removes_delete()
    ensures { PutsInsertAndRemovesDelete }
{}

pub fn the_empty_tree_is_sound()
    ensures { TheEmptyTreeIsSound }
{}

pub fn edits_keep_trees_sound()
    ensures { EditsKeepTreesSound }
{}

pub fn search_finds_the_pair()
    ensures { SearchFindsThePair }
{}

pub fn edits_change_one_key()
    ensures { EditsChangeOneKey }
{}

pub fn first_above_is_the_next()
    ensures { FirstAboveIsTheNext }
{}

pub fn after_finds_the_next_pair()
    ensures { AfterFindsTheNextPair }
{}

pub fn edits_go_by_place()
    ensures { EditsGoByPlace }
{}

pub fn steps_commute_with_reading()
    ensures { StepsCommuteWithReading }
{}

pub fn marked_steps_are_the_edits()
    ensures { MarkedStepsAreTheEdits }
{}

pub fn edits_make_few_nodes()
    ensures { EditsMakeFewNodes }
{}

pub fn edits_add_few_nodes()
    ensures { EditsAddFewNodes }
{}

pub fn branches_are_wide()
    ensures { BranchesAreWide }
{}

pub fn sound_trees_are_low()
    ensures { SoundTreesAreLow }
{}
