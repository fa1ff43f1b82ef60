//! A process that sends as a client, and prints the answers.

ghost use Rattle.farm_base.specs.CheckedSite.{IsChecked};

use crate::fault::Fault;
use crate::recording::Record;
use crate::serving::{alone, end, numbering_of, parting_endpoints};
use crate::setting::Setting;
use crate::turns::{close, turn};
use dia_base::NodeNo;
use dia_message::Message;
use farm_client::{Sender, line_of, messages_of};
use farm_endpoints::{Endpoint, endpoint_of_client};
use farm_event_loop::Live;
use farm_text::{ReadFault, read_text};
use std::net::Net;
use std::rt::Clock;
use std::sync::Wait;
use std::thread::Threads;

/// The messages of standard input.
fn read_messages(rt: &HostRuntime) -> Result<Vec<Message>, Fault> {
    let text = match read_text(rt.alloc(), &mut rt.reader()) {
        Ok(text) => text,
        Err(ReadFault::OutOfMemory) => return Err(Fault::OutOfMemory),
        Err(ReadFault::Failed) => return Err(Fault::Read),
    };
    messages_of(rt.alloc(), &text).map_err(Fault::Lines)
}

/// Prints the answers from this place on; how many there are.
fn print_answers(rt: &HostRuntime, answers: &[Message], printed: usize) -> Result<usize, Fault> {
    for answer in answers.iter().skip(printed) {
        let line = line_of(rt.alloc(), answer)?;
        if rt.print(&line).is_err() {
            return Err(Fault::Write);
        }
    }
    Ok(answers.len())
}

/// Sends what standard input has, as this client to this peer, and prints the answers as they come.
pub fn send<O: Threads + Wait + Net + Clock>(
    setting: &Setting<'_, O>,
    client: &str,
    peer: &str,
) -> Result<(), Fault>
    requires { IsChecked setting.now.site.now }
{
    let (alloc, site) = (setting.rt.alloc(), setting.site);
    let endpoint = endpoint_of_client(alloc, site, client.as_bytes(), peer.as_bytes()).map_err(
        Fault::Endpoint,
    )?;
    send_from(setting, endpoint)
}

/// Sends as the client at this endpoint.
fn send_from<O: Threads + Wait + Net + Clock>(
    setting: &Setting<'_, O>,
    endpoint: Endpoint,
) -> Result<(), Fault> {
    let (number, alloc) = (endpoint.node, setting.rt.alloc());
    let messages = read_messages(setting.rt)?;
    let endpoints = parting_endpoints(setting, alone(alloc, endpoint)?)?;
    let sender = Sender::new(alloc, messages);
    let mut live = Live::new(setting.os, alloc, setting.site, sender, endpoints)?;
    live.serving.number(numbering_of(setting));
    send_recorded(setting, number, live)
}

/// Sends as a client that is not connected yet.
fn send_recorded<O: Threads + Wait + Net + Clock>(
    setting: &Setting<'_, O>,
    number: NodeNo,
    live: Live<Sender>,
) -> Result<(), Fault> {
    let mut live = live;
    live.listens_nowhere();
    let recording = Record::begin(setting, &[number], true, &mut live)?;
    send_to_end(setting, live, recording)
}

/// Sends until each request is answered. Then it ends in good order.
fn send_to_end<O: Threads + Wait + Net + Clock>(
    setting: &Setting<'_, O>,
    live: Live<Sender>,
    recording: Record,
) -> Result<(), Fault> {
    let (mut live, mut recording) = (live, recording);
    send_all(setting, &mut recording, &mut live)?;
    end(setting, recording, live);
    Ok(())
}

/// Turns of a client until each of its requests is answered, and its connection has ended in good order.
fn send_all<O: Wait + Net + Clock>(
    setting: &Setting<'_, O>,
    recording: &mut Record,
    live: &mut Live<Sender>,
) -> Result<(), Fault> {
    let mut printed = 0;
    for _ in setting.os.forever() {
        if live.serving.node().is_done() {
            return close(setting, recording, live);
        }
        if live.has_lost() {
            recording.write(setting.log, live);
            return Err(Fault::Ended);
        }
        turn(setting, recording, live)?;
        printed = print_answers(setting.rt, live.serving.node().answers(), printed)?;
    }
    Ok(())
}
