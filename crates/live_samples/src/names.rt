//! Who comes up at a relay over TCP on this machine: nobody, where nobody listens; and where its site holds to names and where it
//! does not, a front that answers at the address of another one, and a front that connects though the site has it as the side
//! that is connected to.

ghost use Rattle.std.specs.Prelude.{IfOk};
ghost use Rattle.farm_base.specs.CheckedSite.{IsChecked};

use crate::live::{live, relay_of};
use crate::site::{host, site_of};
use dia_base::NodeNo;
use farm_access::Access;
use farm_base::Site;
use farm_endpoints::endpoint_of;
use farm_event_loop::Live;
use log::sink::Writer;
use log::{LevelFilter, Logged};
use relay_core::Relay;
use samples_given::{Fronts, fronts_of};
use std::alloc::Global;
use std::io;

/// What both sites say but for the links and the nodes, which are r1.example, f1.example and f2.example, in this order.
const HEAD: &str = r#"
realm = "ocs.example"
validity = 600
currency = 978
exponent = -2
watchdog = 10000
"#;

/// How many turns each of them has at most, of 100 milliseconds where nothing happens.
const TURNS: u32 = 100;

/// How the relay and the front meet.
#[derive(Clone, Copy)]
enum Meeting {
    /// The relay connects to f1.example, and f2.example is at that address.
    Elsewhere,
    /// The front f1.example connects to the relay, whose site has the relay connect.
    Backwards,
}

/// A meeting of a relay and a front.
#[derive(Clone, Copy)]
struct Case<'a> {
    words: &'a str,
    meeting: Meeting,
    /// What the relay's file asks for.
    strict: &'a str,
    /// What it says of f1.example besides.
    from: &'a str,
    /// The relay listens at this port, and the front at the next one.
    port: u16,
}

const CASES: [Case<'static>; 5] = [
    Case {
        words: "f2 answers, and names are not held to",
        meeting: Meeting::Elsewhere,
        strict: "",
        from: "",
        port: 3880,
    },
    Case {
        words: "f2 answers, and names are held to",
        meeting: Meeting::Elsewhere,
        strict: "strict = [\"names\"]",
        from: "",
        port: 3882,
    },
    Case {
        words: "f1 connects, and names are not held to",
        meeting: Meeting::Backwards,
        strict: "strict = []",
        from: "",
        port: 3884,
    },
    Case {
        words: "f1 connects, and names are held to",
        meeting: Meeting::Backwards,
        strict: "strict = [\"names\"]",
        from: "",
        port: 3886,
    },
    Case {
        words: "f1 connects from its own address, and names are held to",
        meeting: Meeting::Backwards,
        strict: "strict = [\"names\"]",
        from: ", from = [\"127.0.0.0/8\"]",
        port: 3888,
    },
];

/// The relay connects to f1.example, and nobody listens there.
const ALONE: Case<'static> = Case {
    words: "nobody listens",
    meeting: Meeting::Elsewhere,
    strict: "",
    from: "",
    port: 3890,
};

impl Case<'_> {
    /// The port of the front.
    fn next_port(&self) -> u32 {
        u32::from(self.port) + 1
    }

    /// The relay's file. It has the relay connect to f1.example, at the front's address or without one.
    fn relay_text(&self, alloc: Global, host: &str) -> anyhow::Result<String> {
        let (strict, from, port, next) = (self.strict, self.from, self.port, self.next_port());
        let address = match self.meeting {
            Meeting::Elsewhere => format!(in alloc; ", address = \"{host}:{next}\"")?,
            Meeting::Backwards => String::new(alloc),
        };
        Ok(format!(in alloc;
            "{HEAD}{strict}\n\
            link = [{{ from = \"r1.example\", to = \"f1.example\" }}]\n\
            node = [\n\
            {{ name = \"r1.example\", kind = \"relay\", address = \"{host}:{port}\" }},\n\
            {{ name = \"f1.example\", kind = \"front\"{address}{from} }},\n\
            {{ name = \"f2.example\", kind = \"front\" }},\n]\n"
        )?)
    }

    /// The front's file.
    fn front_text(&self, alloc: Global, host: &str) -> anyhow::Result<String> {
        let (port, next) = (self.port, self.next_port());
        let link = match self.meeting {
            Meeting::Elsewhere => "from = \"r1.example\", to = \"f2.example\"",
            Meeting::Backwards => "from = \"f1.example\", to = \"r1.example\"",
        };
        Ok(format!(in alloc;
            "{HEAD}link = [{{ {link} }}]\n\
            node = [\n\
            {{ name = \"r1.example\", kind = \"relay\", address = \"{host}:{port}\" }},\n\
            {{ name = \"f1.example\", kind = \"front\", address = \"{host}:{next}\" }},\n\
            {{ name = \"f2.example\", kind = \"front\", address = \"{host}:{next}\" }},\n]\n"
        )?)
    }

    /// The front that there is, by its number and its name.
    fn front(&self) -> (NodeNo, &'static str) {
        match self.meeting {
            Meeting::Elsewhere => (NodeNo(2), "f2.example"),
            Meeting::Backwards => (NodeNo(1), "f1.example"),
        }
    }
}

/// What one end of a meeting goes by: its site, and who may come up there.
#[derive(Drop)]
struct End {
    site: Site,
    access: Access,
}

impl End {
    /// The end of a file.
    fn read(alloc: Global, text: &str) -> anyhow::Result<End>
        ensures { IfOk result (λ end. IsChecked end.site) }
    {
        let access = Access::read(alloc, text.as_bytes())?;
        Ok(End {
            site: site_of(alloc, text)?,
            access,
        })
    }

    /// A turn of the front, of which nothing is told.
    fn front_turn(&self, rt: &HostRuntime, front: &mut Live<Fronts>) -> anyhow::Result<()> {
        let log = Logged::new(*rt, LevelFilter::Off, Writer::new(io::writer(rt)));
        Ok(front.turn(rt, &log, &self.site, &self.access)?)
    }

    /// A turn of the relay, whose warnings are printed without the address at which this run listens.
    fn relay_turn(
        &self,
        rt: &HostRuntime,
        host: &str,
        relay: &mut Live<Relay>,
    ) -> anyhow::Result<()> {
        let warnings = Writer::new(Vec::new(rt.alloc()));
        relay.turn(
            rt,
            &Logged::new(*rt, LevelFilter::Warn, &warnings),
            &self.site,
            &self.access,
        )?;
        print_without(rt, host, &warnings.into_inner())
    }
}

/// Prints a text with HOST in place of each address of this run.
fn print_without(rt: &HostRuntime, host: &str, text: &[u8]) -> anyhow::Result<()> {
    for (place, part) in str::from_utf8(text)?.split(host).enumerate() {
        if place > 0 {
            print!(rt; "HOST")?;
        }
        print!(rt; "{part}")?;
    }
    Ok(())
}

/// The two ends of a meeting.
#[derive(Clone, Copy)]
struct Ends<'a> {
    host: &'a str,
    front: &'a End,
    relay: &'a End,
}

/// The front of a site.
fn front_of(rt: &HostRuntime, site: &Site, case: Case<'_>) -> anyhow::Result<Live<Fronts>>
    requires { IsChecked site.now }
{
    let (node, name) = case.front();
    let endpoint = endpoint_of(rt.alloc(), site, node)?;
    let fronts = fronts_of(rt.alloc(), &[(node, name)])?;
    live(rt, site, fronts, endpoint)
}

/// Whether some node is up at the relay.
fn is_up(relay: &Live<Relay>) -> bool {
    let links = relay.serving.links();
    links.iter().any(|link| link.standing.peer().is_some())
}

/// The first turn of the one that is connected to, which listens from then on.
fn listen(
    rt: &HostRuntime,
    meeting: Meeting,
    ends: Ends<'_>,
    front: &mut Live<Fronts>,
    relay: &mut Live<Relay>,
) -> anyhow::Result<()> {
    match meeting {
        Meeting::Elsewhere => ends.front.front_turn(rt, front),
        Meeting::Backwards => ends.relay.relay_turn(rt, ends.host, relay),
    }
}

/// Turns of both, until the front is up at the relay, or a connection has ended.
fn meet(
    rt: &HostRuntime,
    ends: Ends<'_>,
    front: &mut Live<Fronts>,
    relay: &mut Live<Relay>,
) -> anyhow::Result<()> {
    for _ in 0..TURNS {
        ends.front.front_turn(rt, front)?;
        ends.relay.relay_turn(rt, ends.host, relay)?;
        if is_up(relay) || relay.has_lost() || front.has_lost() {
            break;
        }
    }
    Ok(())
}

/// Prints whether this front comes up at the relay.
fn print_relay(
    rt: &HostRuntime,
    case: Case<'_>,
    ends: Ends<'_>,
    front: &mut Live<Fronts>,
) -> anyhow::Result<()>
    requires { IsChecked ends.relay.now.site }
{
    let mut relay = relay_of(rt, &ends.relay.site)?;
    listen(rt, case.meeting, ends, front, &mut relay)?;
    meet(rt, ends, front, &mut relay)?;
    let (words, up) = (case.words, is_up(&relay));
    println!(rt; "{words}: up {up}")?;
    Ok(())
}

/// Prints whether the front of a case comes up at the relay.
fn print_front(rt: &HostRuntime, case: Case<'_>, ends: Ends<'_>) -> anyhow::Result<()>
    requires front { IsChecked ends.front.now.site }
    requires relay { IsChecked ends.relay.now.site }
{
    let mut front = front_of(rt, &ends.front.site, case)?;
    print_relay(rt, case, ends, &mut front)
}

/// The end of the front.
fn front_end(alloc: Global, host: &str, case: Case<'_>) -> anyhow::Result<End>
    ensures { IfOk result (λ end. IsChecked end.site) }
{
    let text = case.front_text(alloc, host)?;
    End::read(alloc, &text)
}

/// The end of the relay.
fn relay_end(alloc: Global, host: &str, case: Case<'_>) -> anyhow::Result<End>
    ensures { IfOk result (λ end. IsChecked end.site) }
{
    let text = case.relay_text(alloc, host)?;
    End::read(alloc, &text)
}

/// The same, with both ends as their files have them.
fn print_case(rt: &HostRuntime, host: &str, case: Case<'_>) -> anyhow::Result<()> {
    let front = front_end(rt.alloc(), host, case)?;
    let relay = relay_end(rt.alloc(), host, case)?;
    let ends = Ends {
        host,
        front: &front,
        relay: &relay,
    };
    print_front(rt, case, ends)
}

/// Turns of a relay alone, until a connection of its own has failed. Prints whether some node is up.
fn print_turns(rt: &HostRuntime, host: &str, end: &End) -> anyhow::Result<()>
    requires { IsChecked end.now.site }
{
    let mut relay = relay_of(rt, &end.site)?;
    for _ in 0..TURNS {
        end.relay_turn(rt, host, &mut relay)?;
        if relay.has_lost() {
            break;
        }
    }
    let (words, up) = (ALONE.words, is_up(&relay));
    println!(rt; "{words}: up {up}")?;
    Ok(())
}

/// Prints what the relay tells where nobody listens.
fn print_alone(rt: &HostRuntime, host: &str) -> anyhow::Result<()> {
    let end = relay_end(rt.alloc(), host, ALONE)?;
    print_turns(rt, host, &end)
}

/// Prints who comes up.
pub fn print_all(rt: &HostRuntime) -> anyhow::Result<()> {
    let host = host(rt)?;
    print_alone(rt, host.as_str())?;
    for case in CASES {
        print_case(rt, host.as_str(), case)?;
    }
    Ok(())
}
