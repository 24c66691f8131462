//! The commands as `clap` is told of them.

ghost use Rattle.std.specs.Prelude.{◌≡◌, IfOk};
ghost use Rattle.clap.specs.Simple.{app_of, with_rule};
ghost use Rattle.command_lines.specs.Commands.{agent_app, drill_app, flag, host_app, option, plain_app, required_option, serve_app, session_app, word};

use clap::{Arg, ArgAction, Command};
use std::alloc::{AllocError, Global};

// The command of this name. Its arguments don't begin with a program's name, and no option is
// `clap`'s own.
fn plain_command<'a>(alloc: Global, name: &'a str) -> Command<'a>
    ensures { app_of result ≡ plain_app name.now }
{
    Command::new(alloc, name)
        .no_binary_name(true)
        .disable_help_flag(true)
        .disable_version_flag(true)
}

// The command with one more option, which takes a value.
fn add_option<'a>(
    alloc: Global,
    command: Command<'a>,
    name: &'a str,
) -> Result<Command<'a>, AllocError>
    ensures { IfOk result
        (λ c. app_of c ≡ with_rule (app_of command.entry) (option name.entry.now)) }
{
    let option = Arg::new(alloc, name).long(name);
    command.arg(option)
}

// The command with one more option, which takes a value and has to be there.
fn add_required_option<'a>(
    alloc: Global,
    command: Command<'a>,
    name: &'a str,
) -> Result<Command<'a>, AllocError>
    ensures { IfOk result
        (λ c. app_of c ≡ with_rule (app_of command.entry) (required_option name.entry.now)) }
{
    let option = Arg::new(alloc, name).long(name).required(true);
    command.arg(option)
}

// The command with one more option, which takes no value.
fn add_flag<'a>(
    alloc: Global,
    command: Command<'a>,
    name: &'a str,
) -> Result<Command<'a>, AllocError>
    ensures { IfOk result (λ c. app_of c ≡ with_rule (app_of command.entry) (flag name.entry.now)) }
{
    let option = Arg::new(alloc, name).long(name).action(ArgAction::SetTrue);
    command.arg(option)
}

// The command with one more word, which has to be there.
fn add_word<'a>(
    alloc: Global,
    command: Command<'a>,
    name: &'a str,
) -> Result<Command<'a>, AllocError>
    ensures { IfOk result (λ c. app_of c ≡ with_rule (app_of command.entry) (word name.entry.now)) }
{
    let word = Arg::new(alloc, name).required(true);
    command.arg(word)
}

/// `session`, with its options.
pub(crate) fn session_command<'a>(alloc: Global) -> Result<Command<'a>, AllocError>
    ensures { IfOk result (λ c. app_of c ≡ session_app) }
{
    let plain = plain_command(alloc, "session");
    let with_settings = add_option(alloc, plain, "settings")?;
    let with_store = add_option(alloc, with_settings, "store")?;
    add_option(alloc, with_store, "delivery")
}

/// `serve`, which has the options of `session` too.
pub(crate) fn serve_command<'a>(alloc: Global) -> Result<Command<'a>, AllocError>
    ensures { IfOk result (λ c. app_of c ≡ serve_app) }
{
    let session = session_command(alloc)?;
    let with_listen = add_required_option(alloc, session, "listen")?;
    add_required_option(alloc, with_listen, "connections")
}

/// `drill`, with its two numbers and its option.
pub(crate) fn drill_command<'a>(alloc: Global) -> Result<Command<'a>, AllocError>
    ensures { IfOk result (λ c. app_of c ≡ drill_app) }
{
    let plain = plain_command(alloc, "drill");
    let with_start = add_word(alloc, plain, "start")?;
    let with_size = add_word(alloc, with_start, "size")?;
    add_flag(alloc, with_size, "replies")
}

// `agent`, with the server and the host alone.
fn host_command<'a>(alloc: Global) -> Result<Command<'a>, AllocError>
    ensures { IfOk result (λ c. app_of c ≡ host_app) }
{
    let plain = plain_command(alloc, "agent");
    let with_connect = add_required_option(alloc, plain, "connect")?;
    add_required_option(alloc, with_connect, "host")
}

/// `agent`, with its options.
pub(crate) fn agent_command<'a>(alloc: Global) -> Result<Command<'a>, AllocError>
    ensures { IfOk result (λ c. app_of c ≡ agent_app) }
{
    let host = host_command(alloc)?;
    let with_rounds = add_required_option(alloc, host, "rounds")?;
    add_option(alloc, with_rounds, "settings")
}
