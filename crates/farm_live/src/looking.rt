//! Looks at accounts of the book while fronts serve, which are asked for at the status port.

use crate::charged::charge_lines;
use crate::naming::{name_of, named_in};
use crate::setting::Setting;
use book_store::RowStore;
use cc_shared::{Found, Sharing};
use cc_sweeper::{LookFault, Looks};
use cc_view::Subscription;
use farm_script::LineFault;
use farm_status::Job;
use std::alloc::Global;
use std::fmt;
use std::mem::replace;
use std::sync::Wait;
use std::thread::Threads;

/// What has become of the look at an account that was asked for last.
#[derive(Drop)]
pub enum LastLook {
    /// None was asked for yet.
    Nothing,
    /// This account is looked at.
    UnderWay {
        account: String,
    },
    /// What was found of this account, and the requests that charged it last, each on a line behind a line feed.
    Done {
        account: String,
        found: Found,
        charges: String,
    },
    /// The text names no account.
    Unread(LineFault),
    NotBegun(LookFault),
    OutOfMemory,
}

impl fmt::Display for LastLook {
    fn fmt<W: fmt::Write>(&self, f: &mut fmt::Formatter<W>) -> fmt::Result {
        match self {
            LastLook::Nothing => f.write_str("no account was asked for"),
            LastLook::UnderWay { account } => write!(f, "account {account} is looked at"),
            LastLook::Done {
                account,
                found,
                charges,
            } => {
                tell_found(f, account, *found)?;
                f.write_str(charges)
            }
            LastLook::Unread(fault) => write!(f, "no account was looked at: {fault}"),
            LastLook::NotBegun(fault) => write!(f, "no account was looked at: {fault}"),
            LastLook::OutOfMemory => f.write_str("no account was looked at: out of memory"),
        }
    }
}

/// Tells what was found of an account.
fn tell_found<W: fmt::Write>(
    f: &mut fmt::Formatter<W>,
    account: &str,
    found: Found,
) -> fmt::Result {
    match found {
        Found::Account(standing) => {
            let (balance, reserved) = (standing.balance, standing.reserved);
            write!(f, "account {account} balance {balance} reserved {reserved}")?;
            f.write_str(if standing.closed { " closed" } else { "" })?;
            write!(f, "\nsessions {}", standing.sessions)
        }
        Found::NoAccount => write!(f, "no such account: {account}"),
        Found::Closed => f.write_str("no account was looked at: the book is closed"),
    }
}

/// Who looks at accounts of the book of the fronts of a process, at one at a time.
#[derive(Drop)]
pub struct BookLooks<L: Sharing, S: RowStore> {
    looks: Looks<L, S>,
    last: LastLook,
}

impl<L, S> BookLooks<L, S>
where
    L: Sharing + Send + Sync + 'static,
    S: RowStore + Drop + Send + 'static,
{
    /// Nobody has asked for an account yet.
    pub fn new(looks: Looks<L, S>) -> Self {
        BookLooks {
            looks,
            last: LastLook::Nothing,
        }
    }

    /// Whether a look may be asked for.
    pub fn job(&self) -> Job {
        if self.looks.is_under_way() {
            Job::Busy
        } else {
            Job::Free
        }
    }

    /// What has become of the last one.
    pub fn last(&self) -> &LastLook {
        &self.last
    }

    /// Begins a look, in a thread of its own. What has become of it.
    fn begin<O: Threads + Wait + Copy + Send + 'static>(
        &mut self,
        setting: &Setting<'_, O>,
        id: Subscription,
    ) -> LastLook {
        let alloc = setting.rt.alloc();
        let Ok(account) = name_of(alloc, &id) else {
            return LastLook::OutOfMemory;
        };
        match self.looks.begin(setting.os, alloc, id) {
            Ok(()) => LastLook::UnderWay { account },
            Err(fault) => LastLook::NotBegun(fault),
        }
    }

    /// Begins a look at the account that a text names.
    pub fn ask<O: Threads + Wait + Copy + Send + 'static>(
        &mut self,
        setting: &Setting<'_, O>,
        text: &[u8],
    ) {
        self.last = match named_in(setting.rt.alloc(), text) {
            Ok(id) => self.begin(setting, id),
            Err(fault) => LastLook::Unread(fault),
        };
    }

    /// Takes in what the look that is under way has come to.
    pub fn look<O: Threads>(&mut self, os: &O, alloc: Global) {
        let Some(result) = self.looks.collect(os) else {
            return;
        };
        let asked = replace(&mut self.last, LastLook::OutOfMemory);
        let (LastLook::UnderWay { account }, Ok(look)) = (asked, result) else {
            return;
        };
        if let Ok(charges) = charge_lines(alloc, &look.last) {
            self.last = LastLook::Done {
                account,
                found: look.found,
                charges,
            };
        }
    }
}
