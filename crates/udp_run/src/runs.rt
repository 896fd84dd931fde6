//! The run of a script over sockets.

ghost use Rattle.std.specs.Prelude.{◌≡◌, ◌⊎◌, true, IfOk, IfErr, MatchOption};
ghost use Rattle.std.specs.List.{list_all};
ghost use Rattle.xid.specs.declared.refusals.Refusal.TheVariants.{NoMemory};
ghost use Rattle.udp_run.specs.Commands.{is_served as is_served_of};
ghost use Rattle.udp_run.specs.Runs.{IsFirstRefused, IsServed, IsUdpRun, RefusesDevices, RefusesUdp};

use crate::opening::open;
use cluster_run::config_of_with_hash_key;
use hashing::HashKey;
use net_script::{Command, Script, Sizes, Table, Trace, line_of, read_script, write_trace};
use node_core::Config;
use protocol::Event;
use xid::{Refusal, Sequence};

/// Runs a script over sockets and gives the text of its trace: its nodes are taken up from the records in a folder, each takes datagrams
/// at a socket of its own on 127.0.0.1, and `flow` is so many rounds in which each takes one. Refused: `BadScript` with the first line
/// at fault; `BadConfig` for sizes outside the limits; `BadScript` with the first event that can't happen over sockets (the number of a
/// datagram or a notice, a tear or a replacement); then, node by node, a file that can't be opened and read (`FileFault`), bytes that hold
/// nothing that plays (`Damaged`) or a record that fails (`RecordFault`); then a socket that can't be made (`PortFault`); at the end the
/// record of a resource manager that is down and whose table can't be read, as the record fails (`RecordFault`); and `NoMemory` anywhere.
/// What was stored stays stored.
pub fn udp(rt: HostRuntime, script: &[u8], folder: &str) -> Result<Vec<u8>, Refusal>
    ensures ok { IfOk result (λ output. IsUdpRun script.now output.items) }
    ensures err { IfErr result (RefusesUdp script.now) }
{
    let alloc = rt.alloc();
    let text = script;
    let script = read_script(alloc, text)?;
    let Script {
        sizes,
        tables,
        commands,
    } = script;
    let config = config_of_with_hash_key(alloc, HashKey::draw(&rt), sizes, tables.as_slice())?;
    let commands = commands.into_vec(alloc)?;
    if let Some(at) = first_refused(&commands) {
        let Some(line) = line_of(text, 1 + tables.as_slice().len() + at) else {
            unreachable!();
        };
        return Err(Refusal::BadScript { line });
    }
    serve(rt, sizes, tables, commands, folder, &config)
}

/// Runs a script whose commands all happen over sockets.
fn serve(
    rt: HostRuntime,
    sizes: Sizes,
    tables: Sequence<Table>,
    commands: Vec<Command>,
    folder: &str,
    config: &Config,
) -> Result<Vec<u8>, Refusal>
    requires { list_all is_served_of commands.items ≡ true }
    ensures ok { IfOk result (λ output. IsServed config.now (record { sizes = sizes; tables = tables; commands = commands.items })
        output.items) }
    ensures err { IfErr result (λ e. (e ≡ NoMemory) ⊎ RefusesDevices config.now commands.items e) }
{
    let mut site = open(rt, folder, config)?;
    let entries = site.carry_out_all(commands)?;
    let finals = site.tables()?;
    let trace = Trace {
        sizes,
        tables,
        entries: Sequence::new(entries),
        finals: Sequence::new(finals),
    };
    write_trace(rt.alloc(), &trace)
}

/// Whether a command happens over sockets: datagrams and notices there have no numbers, and files can't be torn or lost.
fn is_served(command: &Command) -> bool
    ensures { result ≡ is_served_of command.now }
{
    matches!(
        command,
        Command::Do(
            Event::Ask { .. }
                | Event::Noise { .. }
                | Event::Restart { .. }
                | Event::Compact { .. }
                | Event::Raise { .. }
        ) | Command::Flow(_)
    )
}

/// The place of the first command that doesn't happen over sockets.
fn first_refused(commands: &[Command]) -> Option<usize>
    ensures { MatchOption result (list_all is_served_of commands.now ≡ true) (IsFirstRefused commands.now) }
{
    for (at, command) in commands.iter().enumerate() {
        if !is_served(command) {
            return Some(at);
        }
    }
    None
}
