//! The run of a script.

ghost use Rattle.std.specs.Prelude.{IfOk, IfErr, OnOk};
ghost use Rattle.net_script.specs.Scripts.{IsScript};
ghost use Rattle.cluster_run.specs.Runs.{IsRun, PrintsRun, PrintsRunOf, RefusesRun, StopsRun, StopsRunOf};

use crate::clusters::{config_of_with_hash_key, final_rows, opened};
use crate::happenings::carry_out_all;
use hashing::HashKey;
use net_script::{Script, read_script, write_finals, write_head, write_text};
use std::alloc::Global;
use std::io::Write;
use xid::Refusal;

/// Runs a script over a whole cluster, whose nodes have records in memory, and gives the text of its trace: that of what the commands make
/// happen where each node has a floor and no record fails of itself. What looking back gives of that trace, the specification of
/// transaction commit at each of its steps, and one serial order stand in the same clause. Refused: `BadScript` with the first line at
/// fault; else `BadConfig` for sizes outside the limits (1, 3, 5 or 7 acceptors, 1 to 4 leaders, 1 to 64 resource managers); and
/// `NoMemory`, where the run as a whole is out of memory. Where it is refused nothing is given.
pub fn run(alloc: Global, script: &[u8]) -> Result<Vec<u8>, Refusal>
    ensures ok { IfOk result (λ output. IsRun script.now output.items) }
    ensures err { IfErr result (RefusesRun script.now) }
{
    let mut output = Vec::new(alloc);
    match run_to(alloc, script, &mut output) {
        Ok(()) => Ok(output),
        // a vector refuses what is written for want of memory alone
        Err(Refusal::FileFault) => Err(Refusal::NoMemory),
        Err(refusal) => Err(refusal),
    }
}

/// Runs a script as `run` does, and prints the text on a writer, in pieces of 64 KiB, as events are done, so that no more of it is kept.
/// Refused as a run is, with nothing printed; and `NoMemory`, where memory runs out later, or as `write_text` is: then a beginning of the
/// text is printed, and nothing else.
pub fn run_to<W: Write>(alloc: Global, script: &[u8], out: &mut W) -> Result<(), Refusal>
    ensures ok { OnOk result (PrintsRun script.now (W.contents out.old) (W.contents out.new)) }
    ensures err { IfErr result (λ e. StopsRun script.now e (W.contents out.old) (W.contents out.new)) }
{
    run_to_with_hash_key(alloc, HashKey::fixed(), script, out)
}

/// The same, with names hashed under a key, which nothing that is printed depends on. Refused as `run_to` is.
pub fn run_to_with_hash_key<W: Write>(
    alloc: Global,
    key: HashKey,
    script: &[u8],
    out: &mut W,
) -> Result<(), Refusal>
    ensures ok { OnOk result (PrintsRun script.now (W.contents out.old) (W.contents out.new)) }
    ensures err { IfErr result (λ e. StopsRun script.now e (W.contents out.old) (W.contents out.new)) }
{
    let script = read_script(alloc, script)?;
    run_script(alloc, key, script, out)
}

/// Prints the text of the trace of a script. Refused: sizes outside the limits (`BadConfig`), `NoMemory`, and as `write_text` is.
fn run_script<W: Write>(
    alloc: Global,
    key: HashKey,
    script: Script,
    out: &mut W,
) -> Result<(), Refusal>
    requires { IsScript script }
    ensures ok { OnOk result (PrintsRunOf script (W.contents out.old) (W.contents out.new)) }
    ensures err { IfErr result (λ e. StopsRunOf script e (W.contents out.old) (W.contents out.new)) }
{
    let Script {
        sizes,
        tables,
        commands,
    } = script;
    let first = tables.as_slice();
    let config = config_of_with_hash_key(alloc, key, sizes, first)?;
    let mut cluster = opened(alloc, &config)?;
    let mut piece = Vec::new(alloc);
    write_head(&mut piece, sizes, first)?;
    carry_out_all(alloc, &mut cluster, &mut piece, out, commands)?;
    let finals = match final_rows(alloc, &mut cluster, config.sizes().managers) {
        Ok(finals) => finals,
        Err(refusal) => return Err(refusal),
    };
    write_finals(&mut piece, &finals)?;
    write_text(&piece, out)
}
