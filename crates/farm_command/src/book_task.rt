//! What is done with an account book on disk.

ghost use Rattle.std.specs.Prelude.{◌≡◌, ◌≢◌, ◌∷◌, [], ℕ, List, IfNone, IfSome};
ghost use Rattle.farm_command.specs.CommandLine.{operands_of};
ghost use Rattle.farm_command.specs.declared.book_task.BookTask.{BookTask as BookTaskValue};

/// What is done with an account book on disk.
#[derive(Clone, Copy)]
pub enum BookTask<'a> {
    /// It is made, with no entry.
    Create,
    /// It is opened, and what it comes to is printed.
    Check,
    /// The report of its accounts is printed.
    Report,
    /// Its entries are printed, one on a line.
    Export,
    /// It changes its terms by one entry, so that those of the site hold in it, and what it comes to is printed.
    ChangeTerms,
    /// It is copied to a new file at this path.
    Backup { to: &'a str },
}

/// The task of this word that has one file, if there is one.
pub fn task_named<'a>(word: &str) -> Option<BookTask<'a>>
    ensures some { IfSome result (λ task. (file : List ℕ) → word.now ∷ file ∷ [] ≡ operands_of task file) }
    ensures none { IfNone result ((task : BookTaskValue) (file other : List ℕ) → word.now ∷ file ∷ [] ≢ operands_of task other) }
{
    match word {
        "create" => Some(BookTask::Create),
        "check" => Some(BookTask::Check),
        "report" => Some(BookTask::Report),
        "export" => Some(BookTask::Export),
        "change-terms" => Some(BookTask::ChangeTerms),
        _ => None,
    }
}
