//! How the log is spelled, and what it calls the process.

ghost use Rattle.farm_base.specs.CheckedSite.{IsChecked};

use dia_base::Identity;
use farm_base::Site;
use farm_command::{LogFormat, Process, Task};
use farm_endpoints::fronts_of;
use farm_log::{Format, Lines};
use std::alloc::{AllocError, Global};

/// How lines are spelled, by the words of the command.
fn format_of(format: LogFormat) -> Format {
    match format {
        LogFormat::Text => Format::Text,
        LogFormat::Logfmt => Format::Logfmt,
    }
}

/// Puts a name, which is visible ASCII, behind those before it.
fn push_name(names: &mut String, name: &Identity) -> Result<(), AllocError> {
    if !names.is_empty() {
        names.push(',')?;
    }
    for octet in name.as_slice() {
        names.push(char::from(*octet))?;
    }
    Ok(())
}

/// The names of all fronts of a site.
fn front_names(alloc: Global, site: &Site) -> Result<String, AllocError>
    requires { IsChecked site.now }
{
    let mut names = String::new(alloc);
    for front in fronts_of(alloc, site)? {
        if let Some(node) = site.nodes.as_slice().get(front.0 as usize) {
            push_name(&mut names, &node.name)?;
        }
    }
    Ok(names)
}

/// What the log calls the process: by the name of its node, or by those of its nodes.
fn label_of(alloc: Global, site: &Site, task: &Task<'_>) -> Result<String, AllocError>
    requires { IsChecked site.now }
{
    match task {
        Task::Relay { name, .. } => String::from_str(alloc, name),
        Task::Fronts { .. } => front_names(alloc, site),
        Task::Send { client, .. } => String::from_str(alloc, client),
    }
}

/// Where the lines of a process go, which carries out this command on this site.
pub fn lines_of(
    rt: &HostRuntime,
    command: &Process<'_>,
    site: &Site,
) -> Result<Lines<HostRuntime>, AllocError>
    requires { IsChecked site.now }
{
    let label = label_of(rt.alloc(), site, &command.task)?;
    Ok(Lines::new(*rt, format_of(command.log_format), label))
}
