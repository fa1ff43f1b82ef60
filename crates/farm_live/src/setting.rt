//! What a process is started with.

use crate::Logger;
use farm_access::Access;
use farm_base::Site;
use farm_command::Process;

/// What a process is started with.
#[derive(Drop)]
pub struct Setting<'a, O> {
    /// Of it come the sockets, the threads, and the leave to wait.
    pub os: &'a O,
    /// Of it come files, standard streams and memory.
    pub rt: &'a HostRuntime,
    pub log: &'a Logger,
    pub command: &'a Process<'a>,
    pub site: &'a Site,
    /// Who may connect from where.
    pub access: &'a Access,
    /// The path of the file with the book of the fronts, if it is not kept in memory alone.
    pub book: Option<&'a str>,
    /// The path of the file with accounts beside those of the site, if its site file names one.
    pub accounts: Option<&'a str>,
}
