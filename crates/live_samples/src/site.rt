//! A site with a relay, a client and a front, for processes on this machine.

ghost use Rattle.std.specs.Prelude.{IfOk};
ghost use Rattle.farm_base.specs.CheckedSite.{IsChecked};

use anyhow::Context;
use dia_base::NodeNo;
use farm_base::Site;
use farm_site::site_of_octets;
use farm_world::relays_of;
use relay_core::Relay;
use std::alloc::Global;
use std::time::{SystemTime, UNIX_EPOCH};

/// The relay r1.example.
pub const RELAY: NodeNo = NodeNo(0);

/// The front f1.example.
pub const FRONT: NodeNo = NodeNo(2);

/// The site but for the addresses. The nodes are numbered as they stand in the file.
const SITE: &str = r#"
realm = "ocs.example"
validity = 600
currency = 978
exponent = -2
watchdog = 10000
link = [{ from = "c1.example", to = "r1.example" }, { from = "r1.example", to = "f1.example" }]
route = [{ at = "r1.example", realm = "ocs.example", app = 4, peers = ["f1.example"] }]
"#;

/// An address on this machine which another run of this program has not at the same time.
pub fn host(rt: &HostRuntime) -> anyhow::Result<String> {
    let nanos = match SystemTime::now(rt)?.duration_since(UNIX_EPOCH) {
        Ok(since) => since.subsec_nanos(),
        Err(_) => 0,
    };
    let (high, middle, low) = (
        1 + nanos / 65_536 % 254,
        1 + nanos / 256 % 254,
        1 + nanos % 254,
    );
    Ok(format!(in rt.alloc(); "127.{high}.{middle}.{low}")?)
}

/// The site, with such addresses.
pub fn site_text(rt: &HostRuntime) -> anyhow::Result<String> {
    let host = host(rt)?;
    Ok(format!(in rt.alloc();
        "{SITE}node = [\n\
        {{ name = \"r1.example\", kind = \"relay\", address = \"{host}:3868\" }},\n\
        {{ name = \"c1.example\", kind = \"client\" }},\n\
        {{ name = \"f1.example\", kind = \"front\", address = \"{host}:3869\" }},\n]\n"
    )?)
}

/// The site that a text spells.
pub fn site_of(alloc: Global, text: &str) -> anyhow::Result<Site>
    ensures { IfOk result IsChecked }
{
    Ok(site_of_octets(alloc, text.as_bytes())?)
}

/// The site, with such addresses.
pub fn site_here(rt: &HostRuntime) -> anyhow::Result<Site>
    ensures { IfOk result IsChecked }
{
    let text = site_text(rt)?;
    site_of(rt.alloc(), &text)
}

/// The relay r1.example.
pub fn relay(alloc: Global, site: &Site) -> anyhow::Result<Relay>
    requires { IsChecked site.now }
{
    let at = relays_of(alloc, site)?.pop().context("no relay")?;
    Ok(at.relay)
}
