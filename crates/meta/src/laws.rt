// The laws of meta pages. These functions do nothing: each carries the law in its contract.
ghost use Rattle.meta.specs.Laws.{PagesReadBack, NothingElseIsRead, ZerosAreNotRead};
ghost use Rattle.meta.specs.Laws.{TheNewerCounts, SixAndSevenGivesSeven, SevenIsNotForPageZero};

pub fn pages_read_back()
    ensures { PagesReadBack }
{}

pub fn nothing_else_is_read()
    ensures { NothingElseIsRead }
{}

pub fn zeros_are_not_read()
    ensures { ZerosAreNotRead }
{}

pub fn the_newer_counts()
    ensures { TheNewerCounts }
{}

pub fn six_and_seven_gives_seven()
    ensures { SixAndSevenGivesSeven }
{}

pub fn seven_is_not_for_page_zero()
    ensures { SevenIsNotForPageZero }
{}
