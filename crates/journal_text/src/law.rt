ghost use Rattle.journal_text.specs.Laws.{PrintedEntriesAreInForm, PrintedGroupsAreNext, LastGroupsAreNext};
ghost use Rattle.journal_text.specs.Laws.{OneGroupIsNext, NoSpellingIsAnothers, GroupsAreParted, GroupsHaveAllLines};

/// What can be printed of an entry is in form where its numbers and walks are within the limits of a journal. It does nothing: the law is
/// its contract.
pub fn printed_entries_are_in_form()
    ensures { PrintedEntriesAreInForm }
{}

/// What is printed of a group in form is the next group of a journal, whatever group follows, and no other one is. It does nothing: the
/// laws are its contract.
pub fn printed_groups_are_read()
    ensures next { PrintedGroupsAreNext }
    ensures last { LastGroupsAreNext }
    ensures one { OneGroupIsNext }
    ensures apart { NoSpellingIsAnothers }
    ensures parted { GroupsAreParted }
    ensures all { GroupsHaveAllLines }
{}
