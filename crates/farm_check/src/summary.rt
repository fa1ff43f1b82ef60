//! What a site comes to, for somebody who reads it.

ghost use Rattle.farm_base.specs.CheckedSite.{IsChecked};

use crate::clients::push_clients;
use crate::doubts::push_doubts;
use crate::files::{Files, push_files};
use crate::lines::{Lines, identity_text};
use crate::money::push_money;
use crate::nodes::push_nodes;
use cc_book::Account;
use farm_base::Site;
use farm_terms::tariffs_of;
use std::alloc::{AllocError, Global};

/// The summary of a site with these accounts: the site, the files that it names, what it takes of clients that deviate, its nodes by kind, links, routes by
/// realm, tariffs with what they cost, accounts, and then what may look wrong, a line each that begins with `look:`.
pub fn push_summary(
    alloc: Global,
    lines: &mut Lines,
    site: &Site,
    accounts: &[Account],
    files: &Files,
) -> Result<(), AllocError>
    requires { IsChecked site.now }
{
    let tariffs = tariffs_of(alloc, site)?;
    push_site(alloc, lines, site)?;
    push_files(alloc, lines, files)?;
    push_clients(alloc, lines, site)?;
    push_nodes(alloc, lines, site)?;
    push_money(alloc, lines, site, accounts, &tariffs)?;
    push_doubts(alloc, lines, site, accounts, &tariffs)
}

fn push_site(alloc: Global, lines: &mut Lines, site: &Site) -> Result<(), AllocError> {
    let realm = identity_text(alloc, &site.realm)?;
    lines.push(format!(in alloc; "accepted: realm {realm}")?.as_str())?;
    let (validity, limit, watchdog) = (site.validity, site.limit, site.watchdog);
    let line = format!(in alloc;
        "grants are good for {validity} s; the book takes {limit} entries; the watchdog waits {watchdog} ms"
    )?;
    lines.push(line.as_str())?;
    let (workers, queue) = (site.workers, site.queue);
    let line = format!(in alloc;
        "each front works on {workers} requests at a time, and {queue} may wait"
    )?;
    lines.push(line.as_str())
}
