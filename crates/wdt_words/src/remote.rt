//! The forms of words that name another machine.
ghost use Rattle.std.specs.Result.{result_ok};
ghost use Rattle.std.specs.Prelude.{◌≡◌, map, string_bytes, IfOk};
ghost use Rattle.wdt_words.specs.Remote.{aim_at, aim_form, recv_form, send_form, IsAimed};
ghost use Rattle.wdt_words.specs.Words.{HasLimits};

use crate::command::Transfer;
use crate::misread::{Expected, Misread, wrong};
use crate::names::is_name;
use crate::numbers::number_in;
use crate::options::{Form, Options, read_options};

/// The greatest port of a first lane, so that each further lane has a port, too.
pub const MAX_PORT: u16 = 65_520;

/// A port of another machine, and options.
#[derive(Clone, Copy)]
pub struct Aim {
    pub port: u16,
    pub options: Options,
}

/// A send by the words behind its name, or the first that is wrong.
pub fn send_form(words: &[String]) -> Result<Transfer, Misread>
    ensures value { result_ok result ≡ send_form (map string_bytes words.now) }
    ensures limits { IfOk result HasLimits }
{
    match aim_form(Form::Send, Expected::Source, words) {
        Ok(Aim { port, options }) => Ok(Transfer::Send {
            port,
            lanes: options.lanes(),
            block: options.block(),
            session: options.session(),
        }),
        Err(misread) => Err(misread),
    }
}

/// A receiver by the words behind its name, or the first that is wrong.
pub fn recv_form(words: &[String]) -> Result<Transfer, Misread>
    ensures value { result_ok result ≡ recv_form (map string_bytes words.now) }
    ensures limits { IfOk result HasLimits }
{
    match aim_form(Form::Recv, Expected::Dest, words) {
        Ok(Aim { port, options }) => Ok(Transfer::Recv {
            port,
            lanes: options.lanes(),
            batch: options.batch(),
        }),
        Err(misread) => Err(misread),
    }
}

// What stands behind a folder and a host: a port, and options.
fn aim_form(form: Form, folder: Expected, words: &[String]) -> Result<Aim, Misread>
    ensures value { result_ok result ≡ aim_form form (map string_bytes words.now) }
    ensures aimed { IfOk result IsAimed }
{
    match words {
        [name, host, port, options @ ..] if is_name(name.as_str()) && is_name(host.as_str()) => {
            aim_at(form, port.as_str(), options)
        }
        [name, host] if is_name(name.as_str()) && is_name(host.as_str()) => wrong(
            0,
            Expected::Port,
        ),
        [name, more @ ..] if is_name(name.as_str()) => wrong(more.len(), Expected::Host),
        _ => wrong(words.len(), folder),
    }
}

fn aim_at(form: Form, port: &str, words: &[String]) -> Result<Aim, Misread>
    ensures value { result_ok result ≡ aim_at form port.now (map string_bytes words.now) }
    ensures aimed { IfOk result IsAimed }
{
    let Some(port) = number_in(1, u64::from(MAX_PORT), port) else {
        return wrong(words.len().saturating_add(1), Expected::Port);
    };
    match read_options(form, words) {
        Ok(options) => Ok(Aim {
            port: port as u16,
            options,
        }),
        Err(misread) => Err(misread),
    }
}
