//! What a fault is about: it is told on a second line.

use crate::fault::Fault;
use crate::setting::Setting;
use dia_base::{NodeKind, NodeNo};
use farm_base::Site;
use farm_command::{About, Process, Status, Task};
use farm_endpoints::{EndpointFault, Role};
use farm_terms::SiteTermsFault;
use std::alloc::AllocError;
use std::fmt;

/// A fault, and on a second line the file, the address or the names that it is about.
#[derive(Debug, Drop)]
pub struct Told {
    fault: Fault,
    about: Option<String>,
}

impl fmt::Display for Told {
    fn fmt<W: fmt::Write>(&self, f: &mut fmt::Formatter<W>) -> fmt::Result {
        let fault = &self.fault;
        match &self.about {
            Some(about) => write!(f, "{fault}\n{about}"),
            None => write!(f, "{fault}"),
        }
    }
}

impl Told {
    /// A fault that is about nothing else.
    pub fn alone(fault: Fault) -> Told {
        Told { fault, about: None }
    }

    /// A fault of the site file of a command.
    pub fn of_site_file(rt: &HostRuntime, command: &Process<'_>, fault: Fault) -> Told {
        let about = about_file(rt, Some(command.site)).unwrap_or(None);
        Told { fault, about }
    }

    /// A fault of a process.
    pub fn of<O>(setting: &Setting<'_, O>, fault: Fault) -> Told {
        let about = about(setting, &fault).unwrap_or(None);
        Told { fault, about }
    }

    /// How the program ends by it.
    pub fn status(&self) -> Status {
        self.fault.status()
    }
}

/// A file, or a book, and why it cannot be read, if it cannot.
fn line_of(rt: &HostRuntime, about: Option<About<'_>>) -> Result<Option<String>, AllocError> {
    let Some(about) = about else {
        return Ok(None);
    };
    let line = about.line(rt);
    Ok(Some(format!(in rt.alloc(); "{line}")?))
}

/// The file at a path, if there is one.
fn about_file(rt: &HostRuntime, path: Option<&str>) -> Result<Option<String>, AllocError> {
    line_of(rt, path.map(About::File))
}

/// The file of the book.
fn about_book<O>(setting: &Setting<'_, O>) -> Result<Option<String>, AllocError> {
    let site = setting.command.site;
    let about = match setting.book {
        Some(path) => Some(About::Book { path, site }),
        None => None,
    };
    line_of(setting.rt, about)
}

/// What a fault is about, if anything.
fn about<O>(setting: &Setting<'_, O>, fault: &Fault) -> Result<Option<String>, AllocError> {
    let (rt, command) = (setting.rt, setting.command);
    match fault {
        Fault::Status(_) | Fault::StatusAddress => match command.status {
            Some(address) => Ok(Some(String::from_str(rt.alloc(), address)?)),
            None => Ok(None),
        },
        Fault::TokenFile => line_of(rt, command.token.map(About::NewFile)),
        Fault::TokenSeen | Fault::NoToken => about_file(rt, command.token),
        Fault::Record(_) => line_of(rt, command.record_path.map(About::NewFile)),
        Fault::NoRecord => about_file(rt, command.record_path),
        Fault::Book(_) | Fault::Clock(_) => about_book(setting),
        Fault::Terms(SiteTermsFault::NotRead) => about_file(rt, setting.accounts),
        Fault::Endpoint(EndpointFault::UnknownName { role }) => about_name(setting, *role),
        _ => Ok(None),
    }
}

/// The name that the site does not have, and those that could stand there.
fn about_name<O>(setting: &Setting<'_, O>, role: Role) -> Result<Option<String>, AllocError> {
    let site = setting.site;
    let Some(name) = name_of(&setting.command.task, role) else {
        return Ok(None);
    };
    let mut text = format!(in setting.rt.alloc(); "{name} is none of:")?;
    for (place, node) in site.nodes.as_slice().iter().enumerate() {
        if may_stand(site, &setting.command.task, role, place, node.kind) {
            text.push_str(" ")?;
            for octet in node.name.as_slice() {
                text.push(char::from(*octet))?;
            }
        }
    }
    Ok(Some(text))
}

/// The name that the words of a task have for this role.
fn name_of<'a>(task: &Task<'a>, role: Role) -> Option<&'a str> {
    match (task, role) {
        (Task::Relay { name, .. }, Role::Name) => Some(*name),
        (Task::Send { client, .. }, Role::Client) => Some(*client),
        (Task::Send { peer, .. }, Role::Peer) => Some(*peer),
        _ => None,
    }
}

/// Whether the node at this place may be named for this role: a relay, a client, or a node that the client connects to.
fn may_stand(site: &Site, task: &Task<'_>, role: Role, place: usize, kind: NodeKind) -> bool {
    match (role, task) {
        (Role::Name, _) => kind == NodeKind::Relay,
        (Role::Client, _) => kind == NodeKind::Client,
        (Role::Peer, Task::Send { client, .. }) => {
            let links = site.links.as_slice();
            links.iter().any(|link| link.to.0 as usize == place
                && is_named(site, link.from, client))
        }
        (Role::Peer, _) => false,
    }
}

/// Whether a node has this name.
fn is_named(site: &Site, node: NodeNo, name: &str) -> bool {
    match site.nodes.as_slice().get(node.0 as usize) {
        Some(found) => found.name.as_slice() == name.as_bytes(),
        None => false,
    }
}
