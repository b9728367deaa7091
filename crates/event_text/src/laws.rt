//! Laws of the events of a command file, and of the lines of replies. Each function does nothing: what it ensures is the law.

ghost use Rattle.event_text.specs.Laws.{BlankLinesMakeNoEvent, CommentsDontCount, EventsAreByLine, EventsHaveLines, FaultsReadBack, LinesTellReplies, SubmissionsReadBack, TurnsReadBack};

/// The events of two files joined at a line's end are those of both, and the lowest line that is refused is
/// that of the first, or else that of the second.
pub fn events_are_by_line()
    ensures { EventsAreByLine }
{}

/// The events of a file that is read are those that its lines with words tell, in order.
pub fn events_have_lines()
    ensures { EventsHaveLines }
{}

/// A line of blanks and a comment of ASCII, of which either may be missing, makes no event.
pub fn blank_lines_make_no_event()
    ensures { BlankLinesMakeNoEvent }
{}

/// A comment of ASCII behind a line changes nothing of what the line tells.
pub fn comments_dont_count()
    ensures { CommentsDontCount }
{}

/// The line that is spelled for a submission is read back as it, whatever ends the line.
pub fn submissions_read_back()
    ensures { SubmissionsReadBack }
{}

/// The line that is spelled for a turn of a run is read back as it, whatever ends the line.
pub fn turns_read_back()
    ensures { TurnsReadBack }
{}

/// The line that is spelled for a fault of a zone is read back as it, whatever ends the line.
pub fn faults_read_back()
    ensures { FaultsReadBack }
{}

/// Two replies that are printed as the same line are the same, with the same data.
pub fn lines_tell_replies()
    ensures { LinesTellReplies }
{}
