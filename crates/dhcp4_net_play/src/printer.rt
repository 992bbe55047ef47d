//! The printer of the script of a network.

ghost use Rattle.std.specs.Prelude.{◌≡◌, ◌++◌, OnOk, codes, string_bytes};
ghost use Rattle.std.specs.Fmt.{decimal};
ghost use Rattle.hex.specs.Hex.{encode_lower};
ghost use Rattle.dhcp_stream.specs.Line.{line};
ghost use Rattle.dhcp_stream.specs.Number.{address_text};
ghost use Rattle.dhcp4_net_play.specs.NetScript.{
  act_text,
  client_text,
  event_text,
  events_text,
  first_lines,
  forms_text,
  net_script_text,
  server_text,
  who_text,
};

use crate::lines::push_lines;
use dhcp_script::field::{FieldText, push_three_more};
use dhcp_script::life::printer::push_flag;
use dhcp_script::push_numbers;
use dhcp_stream::push_octets;
use dhcp4_lease::DhcpV4MessageForms;
use dhcp4_net::{NetAct, NetClient, NetEvent, NetScript, NetWho};
use dhcp4_server::ServerConfig;
use std::alloc::AllocError;

/// Puts the text of a script at the end of a text. After an error, which is out of memory, a part
/// of it may be there.
pub(crate) fn push_net_script(text: &mut String, script: &NetScript) -> Result<(), AllocError>
    ensures { OnOk result (string_bytes text.new
        ≡ string_bytes text.old ++ net_script_text script.now) }
{
    push_first_lines(text, script)?;
    push_start(text, script.start)?;
    push_events(text, script.events.as_slice())
}

// Puts the lines of events, and the last line, at the end of a text.
fn push_events(text: &mut String, events: &[NetEvent]) -> Result<(), AllocError>
    ensures { OnOk result (string_bytes text.new
        ≡ string_bytes text.old ++ events_text events.now) }
{
    push_lines(text, "at ", events)?;
    text.push_str("end\n")
}

// Puts the lines up to those of the clients at the end of a text.
fn push_first_lines(text: &mut String, script: &NetScript) -> Result<(), AllocError>
    ensures { OnOk result (string_bytes text.new
        ≡ string_bytes text.old ++ first_lines script.now) }
{
    text.push_str("net4 1\n")?;
    push_server(text, &script.server)?;
    push_lines(text, "client ", script.clients.as_slice())
}

// Puts the line of the start at the end of a text.
fn push_start(text: &mut String, start: u64) -> Result<(), AllocError>
    ensures { OnOk result (string_bytes text.new
        ≡ string_bytes text.old ++ line (codes "start " ++ decimal start)) }
{
    write!(text, "start {start}\n")
}

// Puts the line of the server at the end of a text.
fn push_server(text: &mut String, server: &ServerConfig) -> Result<(), AllocError>
    ensures { OnOk result (string_bytes text.new
        ≡ string_bytes text.old ++ line (codes "server " ++ server_text server.now)) }
{
    push_server_names(text, server)?;
    text.push_str(" ")?;
    push_three_more(text, &server.mask, &server.first, &server.count)?;
    push_server_times(text, server)
}

// Puts the start of the line of the server at the end of a text: its address and MAC address.
fn push_server_names(text: &mut String, server: &ServerConfig) -> Result<(), AllocError>
    ensures { OnOk result (string_bytes text.new ≡ string_bytes text.old
        ++ (codes "server " ++ address_text server.now.ip ++ codes " "
        ++ encode_lower server.now.mac)) }
{
    text.push_str("server ")?;
    server.ip.push_to(text)?;
    text.push_str(" ")?;
    push_octets(text, &server.mac)
}

// Puts the end of the line of the server at the end of a text: its lease time and its bound.
fn push_server_times(text: &mut String, server: &ServerConfig) -> Result<(), AllocError>
    ensures { OnOk result (string_bytes text.new ≡ string_bytes text.old
        ++ line (decimal server.now.lease_sec ++ codes " " ++ decimal server.now.bound_ms)) }
{
    let lease_sec = server.lease_sec;
    let bound_ms = server.bound_ms;
    write!(text, "{lease_sec} {bound_ms}\n")
}

/// Puts the line of a client, after `client `, at the end of a text. After an error, which is out
/// of memory, a part of it may be there.
pub(crate) fn push_client(text: &mut String, client: &NetClient) -> Result<(), AllocError>
    ensures { OnOk result (string_bytes text.new
        ≡ string_bytes text.old ++ line (client_text client.now)) }
{
    push_octets(text, &client.mac)?;
    text.push(' ')?;
    push_numbers(text, client.words.as_slice())?;
    push_forms(text, client.message_forms)
}

// Puts what the line of a client says of the forms of its messages at the end of a text, and ends
// the line.
fn push_forms(text: &mut String, forms: DhcpV4MessageForms) -> Result<(), AllocError>
    ensures { OnOk result (string_bytes text.new
        ≡ string_bytes text.old ++ line (forms_text forms)) }
{
    match forms {
        DhcpV4MessageForms::Mozim => text.push('\n'),
        DhcpV4MessageForms::Rfc2131 => text.push_str(" rfc2131\n"),
    }
}

/// Puts the line of an event, after `at `, at the end of a text. After an error, which is out of
/// memory, a part of it may be there.
pub(crate) fn push_event(text: &mut String, event: &NetEvent) -> Result<(), AllocError>
    ensures { OnOk result (string_bytes text.new
        ≡ string_bytes text.old ++ line (event_text event.now)) }
{
    let moment = event.moment;
    write!(text, "{moment} ")?;
    push_who(text, &event.who)?;
    text.push('\n')
}

// Puts whom an event is of, and what comes, at the end of a text.
fn push_who(text: &mut String, who: &NetWho) -> Result<(), AllocError>
    ensures { OnOk result (string_bytes text.new
        ≡ string_bytes text.old ++ who_text who.now) }
{
    match *who {
        NetWho::Client(client, refuse, act) => {
            write!(text, "client {client} ")?;
            push_flag(text, refuse, "refuse", "ok")?;
            text.push(' ')?;
            push_act(text, act)
        }
        NetWho::Server(packet) => write!(text, "server deliver {packet}"),
    }
}

// Puts what comes to a client at the end of a text.
fn push_act(text: &mut String, act: NetAct) -> Result<(), AllocError>
    ensures { OnOk result (string_bytes text.new
        ≡ string_bytes text.old ++ act_text act) }
{
    match act {
        NetAct::Nothing => text.push_str("none"),
        NetAct::Deliver(packet) => write!(text, "deliver {packet}"),
        NetAct::Release => text.push_str("release"),
        NetAct::CleanUp => text.push_str("cleanup"),
    }
}
