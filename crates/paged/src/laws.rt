// The laws of the walk. These functions do nothing: each carries the law in its contract.
ghost use Rattle.paged.specs.Laws.{WalksAcceptSoundTrees, OneTreeLies, SoundTreesOnPagesAreLow};

pub fn one_tree_lies()
    ensures { OneTreeLies }
{}

pub fn walks_accept_sound_trees()
    ensures { WalksAcceptSoundTrees }
{}

pub fn sound_trees_on_pages_are_low()
    ensures { SoundTreesOnPagesAreLow }
{}
