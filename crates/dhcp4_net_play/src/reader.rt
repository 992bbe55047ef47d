//! The reader of the script of a network.

ghost use Rattle.std.specs.Prelude.{◌≡◌};
ghost use Rattle.dhcp_stream.specs.TextReader.{Finds, Takes, words_in};
ghost use Rattle.dhcp4_net_play.specs.Reader.{
  act_at,
  call_in,
  client_at,
  client_event_at,
  event_at,
  forms_in,
  script_at,
  script_in,
  server_at,
  who_at,
  words_and_forms_in,
};

use crate::lines::{Line, read_lines};
use crate::printer::{push_client, push_event};
use dhcp_script::field::flag;
use dhcp_script::script::reader::at_end;
use dhcp_stream::{ReadError, TextReader, cut_field, found, words_field};
use dhcp_wire::Sequence;
use dhcp4_lease::DhcpV4MessageForms;
use dhcp4_net::{NetAct, NetClient, NetEvent, NetScript, NetWho};
use dhcp4_server::ServerConfig;
use std::alloc::{AllocError, Global};

/// Reads a script, which is the whole text. `Malformed` only if the text is not one of a script;
/// out of memory is the only other error.
#[tactic(auto, unfolding(crate::specs::Reader::script_in))]
pub(crate) fn read_whole_script(alloc: Global, text: &[u8]) -> Result<NetScript, ReadError>
    ensures { Finds result (script_in text.now) }
{
    let mut text = TextReader::new(text);
    let script = read_script(alloc, &mut text)?;
    at_end(&text, script)
}

// Reads a script from the front of a text.
#[tactic(auto, unfolding(crate::specs::Reader::script_at))]
fn read_script(alloc: Global, text: &mut TextReader) -> Result<NetScript, ReadError>
    ensures { Takes result text.new (script_at text.old) }
{
    text.tag(b"net4 1\n")?;
    let server = read_server(text)?;
    let clients = read_lines(alloc, text, b"client ", b"start ")?;
    let start = text.number(u64::MAX, b'\n')?;
    let events = read_lines(alloc, text, b"at ", b"end\n")?;
    Ok(NetScript {
        server,
        clients,
        start,
        events,
    })
}

// Reads the line of the server.
#[tactic(auto, unfolding(crate::specs::Reader::server_at))]
fn read_server(text: &mut TextReader) -> Result<ServerConfig, ReadError>
    ensures { Takes result text.new (server_at text.old) }
{
    text.tag(b"server ")?;
    Ok(ServerConfig {
        ip: text.ipv4(b' ')?,
        mac: text.mac(b' ')?,
        mask: text.ipv4(b' ')?,
        first: text.ipv4(b' ')?,
        count: text.u32(b' ')?,
        lease_sec: text.u32(b' ')?,
        bound_ms: text.number(u64::MAX, b'\n')?,
    })
}

// The line of a client.
impl Line for NetClient {
    ghost use Rattle.dhcp_stream.specs.Line.{line};
    ghost use Rattle.dhcp4_net.specs.declared.script.NetClient.{NetClient};
    ghost use Rattle.dhcp4_net_play.specs.NetScript.{client_text};
    ghost use Rattle.dhcp4_net_play.specs.Reader.{client_at};

    ghost line_at = { client_at };

    ghost line_text = { λ (client : NetClient). line (client_text client) };

    fn read(alloc: Global, text: &mut TextReader) -> Result<Self, ReadError> {
        read_client(alloc, text)
    }

    fn push_to(&self, text: &mut String) -> Result<(), AllocError> {
        push_client(text, self)
    }
}

// The line of an event.
impl Line for NetEvent {
    ghost use Rattle.dhcp_stream.specs.Line.{line};
    ghost use Rattle.dhcp4_net.specs.declared.script.NetEvent.{NetEvent};
    ghost use Rattle.dhcp4_net_play.specs.NetScript.{event_text};
    ghost use Rattle.dhcp4_net_play.specs.Reader.{event_at};

    ghost line_at = { event_at };

    ghost line_text = { λ (event : NetEvent). line (event_text event) };

    fn read(_alloc: Global, text: &mut TextReader) -> Result<Self, ReadError> {
        read_event(text)
    }

    fn push_to(&self, text: &mut String) -> Result<(), AllocError> {
        push_event(text, self)
    }
}

// Reads the line of a client, after `client `.
#[tactic(auto, unfolding(crate::specs::Reader::client_at))]
fn read_client(alloc: Global, text: &mut TextReader) -> Result<NetClient, ReadError>
    ensures { Takes result text.new (client_at text.old) }
{
    let mac = text.mac(b' ')?;
    let (words, message_forms) = words_and_forms(alloc, text.field(b'\n')?)?;
    Ok(NetClient {
        mac,
        message_forms,
        words,
    })
}

// The random words of a client and the forms of its messages, which are those of mozim where the
// field has no space; else what follows the first one says them.
#[tactic(auto, unfolding(crate::specs::Reader::words_and_forms_in))]
fn words_and_forms(
    alloc: Global,
    field: &[u8],
) -> Result<(Sequence<u32>, DhcpV4MessageForms), ReadError>
    ensures { Finds result (words_and_forms_in field.now) }
{
    let Some((before, word)) = cut_field(field, b' ') else {
        return Ok((words(alloc, field)?, DhcpV4MessageForms::Mozim));
    };
    let forms = forms(word)?;
    Ok((words(alloc, before)?, forms))
}

// The random words of a client.
fn words(alloc: Global, field: &[u8]) -> Result<Sequence<u32>, ReadError>
    ensures { Finds result (words_in field.now) }
{
    found(words_field(alloc, field))
}

// The forms of messages that the line of a client says.
fn forms(word: &[u8]) -> Result<DhcpV4MessageForms, ReadError>
    ensures { Finds result (forms_in word.now) }
{
    if word == b"rfc2131".as_slice() {
        Ok(DhcpV4MessageForms::Rfc2131)
    } else {
        Err(ReadError::Malformed)
    }
}

// Reads the line of an event, after `at `.
#[tactic(auto, unfolding(crate::specs::Reader::event_at))]
fn read_event(text: &mut TextReader) -> Result<NetEvent, ReadError>
    ensures { Takes result text.new (event_at text.old) }
{
    let moment = text.number(u64::MAX, b' ')?;
    let who = read_who(text)?;
    Ok(NetEvent { moment, who })
}

// Reads whom an event is of, and what comes, to the end of the line.
#[tactic(auto, unfolding(crate::specs::Reader::who_at))]
fn read_who(text: &mut TextReader) -> Result<NetWho, ReadError>
    ensures { Takes result text.new (who_at text.old) }
{
    if text.skip(b"server deliver ") {
        return Ok(NetWho::Server(text.u32(b'\n')?));
    }
    read_client_event(text)
}

// Reads whose client's event it is, and what comes, to the end of the line.
#[tactic(auto, unfolding(crate::specs::Reader::client_event_at))]
fn read_client_event(text: &mut TextReader) -> Result<NetWho, ReadError>
    ensures { Takes result text.new (client_event_at text.old) }
{
    text.tag(b"client ")?;
    let client = text.u32(b' ')?;
    let refuse = flag(text.field(b' ')?, b"refuse", b"ok")?;
    let act = read_act(text)?;
    Ok(NetWho::Client(client, refuse, act))
}

// Reads what comes to a client, to the end of the line.
#[tactic(auto, unfolding(crate::specs::Reader::act_at))]
fn read_act(text: &mut TextReader) -> Result<NetAct, ReadError>
    ensures { Takes result text.new (act_at text.old) }
{
    if text.skip(b"deliver ") {
        return Ok(NetAct::Deliver(text.u32(b'\n')?));
    }
    let field = text.field(b'\n')?;
    call(field).ok_or(ReadError::Malformed)
}

// What comes without a packet: `none`, `release` or `cleanup`; none for any other field.
fn call(field: &[u8]) -> Option<NetAct>
    ensures { result ≡ call_in field.now }
{
    if field == b"none".as_slice() {
        Some(NetAct::Nothing)
    } else if field == b"release".as_slice() {
        Some(NetAct::Release)
    } else if field == b"cleanup".as_slice() {
        Some(NetAct::CleanUp)
    } else {
        None
    }
}
