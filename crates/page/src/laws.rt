// The laws of pages. These functions do nothing: each carries the law in its contract.
ghost use Rattle.page.specs.Laws.{PagesReadBack, NothingElseIsRead};

pub fn pages_read_back()
    ensures { PagesReadBack }
{}

pub fn nothing_else_is_read()
    ensures { NothingElseIsRead }
{}
