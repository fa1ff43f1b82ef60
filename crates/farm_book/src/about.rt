//! The file that a fault is about.

use crate::fault::TaskFault;
use book_copy::CopyFault;
use book_opening::BookFault;
use farm_command::{About, BookCommand, BookTask};
use farm_terms::SiteTermsFault;

/// The copy that a command makes, if it makes one.
fn copy_of<'a>(command: &'a BookCommand<'_>) -> Option<About<'a>> {
    match command.task {
        BookTask::Backup { to } => Some(About::NewFile(to)),
        BookTask::Create
        | BookTask::Check
        | BookTask::Report
        | BookTask::Export
        | BookTask::ChangeTerms => None,
    }
}

/// The file that a fault of a command is about, if it is about one: the site file, the file of accounts, whose path is `accounts`, the
/// book, or its copy.
pub fn about<'a>(
    fault: &TaskFault,
    command: &'a BookCommand<'_>,
    accounts: Option<&'a str>,
) -> Option<About<'a>> {
    match fault {
        TaskFault::SiteFile => Some(About::File(command.site)),
        TaskFault::Terms(SiteTermsFault::NotRead) => accounts.map(About::File),
        TaskFault::NotMade(BookFault::File(_)) => Some(About::NewFile(command.file)),
        TaskFault::NotRead(BookFault::File(_))
        | TaskFault::NotChanged(BookFault::File(_))
        | TaskFault::NotCopied(CopyFault::Book(_)) => Some(About::Book {
            path: command.file,
            site: command.site,
        }),
        TaskFault::NotCopied(CopyFault::Stands | CopyFault::Copy(_) | CopyFault::Io(_))
        | TaskFault::CopyNotRead(_)
        | TaskFault::OtherCopy => copy_of(command),
        _ => None,
    }
}
