//! What a request is answered, by its method, its path and the token that it shows.

ghost use Rattle.std.specs.Prelude.{◌≡◌};
ghost use Rattle.farm_status.specs.Replies.{is_change, is_look, is_read, is_stop, read_at, reply_at_account, reply_at_terms, reply_for, reply_on_account, reply_on_terms, reply_with, status_for};

use http::StatusCode;

/// Whether a node may be asked for a job on its book.
#[derive(Clone, Copy, PartialEq, Eq)]
pub enum Job {
    /// It has no book.
    Never,
    /// One such job is under way.
    Busy,
    Free,
}

/// Which jobs on its book a node may be asked for.
#[derive(Clone, Copy, PartialEq, Eq)]
pub struct Jobs {
    /// To change the terms.
    pub change: Job,
    /// To look at an account.
    pub look: Job,
}

/// What a request is answered.
#[derive(Clone, Copy, PartialEq, Eq)]
pub enum Reply {
    Page,
    Metrics,
    Json,
    /// Whether the node can do its work.
    Health,
    /// What the last change of the terms has come to.
    Terms,
    /// What the last look at an account has come to.
    Account,
    /// The node is to end.
    Stops,
    /// The terms of the book are to change.
    Changes,
    /// An account is to be looked at.
    Looks,
    /// Another such job is under way.
    Busy,
    /// Whoever asked for that has not shown the node's token; or the node has none.
    Forbidden,
    /// There is no such path.
    NotFound,
    /// The path is read only.
    OnlyRead,
    /// The path is there to post to.
    OnlyPost,
    /// The path is there to be read and to post to.
    ReadOrPost,
}

/// What may be read.
fn is_read(method: &str) -> bool
    ensures { result ≡ is_read method.now }
{
    method == "GET" || method == "HEAD"
}

/// What there is to read at a path.
fn read_at(path: &str) -> Option<Reply>
    ensures { result ≡ read_at path.now }
{
    if path == "/" {
        Some(Reply::Page)
    } else if path == "/metrics" {
        Some(Reply::Metrics)
    } else if path == "/status.json" {
        Some(Reply::Json)
    } else if path == "/health" {
        Some(Reply::Health)
    } else {
        None
    }
}

/// What a request is answered at a path that is not read.
fn reply_with(method: &str, path: &str, shows_token: bool) -> Reply
    ensures { result ≡ reply_with method.now path.now shows_token }
{
    if path != "/stop" {
        Reply::NotFound
    } else if method != "POST" {
        Reply::OnlyPost
    } else if shows_token {
        Reply::Stops
    } else {
        Reply::Forbidden
    }
}

/// What a request is answered that is to change the terms of the book of a node that has one.
fn reply_on_terms(method: &str, shows_token: bool, is_busy: bool) -> Reply
    ensures { result ≡ reply_on_terms method.now shows_token is_busy }
{
    if is_read(method) {
        Reply::Terms
    } else if method != "POST" {
        Reply::ReadOrPost
    } else if !shows_token {
        Reply::Forbidden
    } else if is_busy {
        Reply::Busy
    } else {
        Reply::Changes
    }
}

/// What a request is answered at the path of the terms.
fn reply_at_terms(method: &str, shows_token: bool, change: Job) -> Reply
    ensures { result ≡ reply_at_terms method.now shows_token change }
{
    match change {
        Job::Never => Reply::NotFound,
        Job::Busy => reply_on_terms(method, shows_token, true),
        Job::Free => reply_on_terms(method, shows_token, false),
    }
}

/// What a request is answered that asks a node that has a book for an account, or what it was found to be.
fn reply_on_account(method: &str, shows_token: bool, is_busy: bool) -> Reply
    ensures { result ≡ reply_on_account method.now shows_token is_busy }
{
    if !is_read(method) && method != "POST" {
        return Reply::ReadOrPost;
    }
    if !shows_token {
        return Reply::Forbidden;
    }
    if is_read(method) {
        return Reply::Account;
    }
    if is_busy {
        return Reply::Busy;
    }
    Reply::Looks
}

/// What a request is answered at the path of accounts.
fn reply_at_account(method: &str, shows_token: bool, look: Job) -> Reply
    ensures { result ≡ reply_at_account method.now shows_token look }
{
    match look {
        Job::Never => Reply::NotFound,
        Job::Busy => reply_on_account(method, shows_token, true),
        Job::Free => reply_on_account(method, shows_token, false),
    }
}

/// What a request is answered, by its method, its path, whether it shows the node's token, and which jobs on its book the node may be
/// asked for.
pub fn reply_to(method: &str, path: &str, shows_token: bool, jobs: Jobs) -> Reply
    ensures { result ≡ reply_for method.now path.now shows_token jobs }
{
    if path == "/terms" {
        return reply_at_terms(method, shows_token, jobs.change);
    }
    if path == "/account" {
        return reply_at_account(method, shows_token, jobs.look);
    }
    match read_at(path) {
        Some(reply) => {
            if is_read(method) {
                reply
            } else {
                Reply::OnlyRead
            }
        }
        None => reply_with(method, path, shows_token),
    }
}

impl Reply {
    /// Its status (RFC 9110, section 15), where the node can do its work.
    pub fn status(self) -> StatusCode
        ensures { result ≡ status_for self }
    {
        match self {
            Reply::Page
            | Reply::Metrics
            | Reply::Json
            | Reply::Health
            | Reply::Terms
            | Reply::Account => StatusCode::OK,
            Reply::Stops | Reply::Changes | Reply::Looks => StatusCode::ACCEPTED,
            Reply::Forbidden => StatusCode::FORBIDDEN,
            Reply::NotFound => StatusCode::NOT_FOUND,
            Reply::OnlyRead | Reply::OnlyPost | Reply::ReadOrPost => {
                StatusCode::METHOD_NOT_ALLOWED
            }
            Reply::Busy => StatusCode::CONFLICT,
        }
    }

    /// Whether the node is to end.
    pub fn stops(self) -> bool
        ensures { result ≡ is_stop self }
    {
        self == Reply::Stops
    }

    /// Whether the terms of the book are to change.
    pub fn changes(self) -> bool
        ensures { result ≡ is_change self }
    {
        self == Reply::Changes
    }

    /// Whether an account is to be looked at.
    pub fn looks(self) -> bool
        ensures { result ≡ is_look self }
    {
        self == Reply::Looks
    }
}
