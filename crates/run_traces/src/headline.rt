//! What `run` prints is a trace that its readers take.
ghost use Rattle.std.specs.Prelude.{◌≡◌, ℕ, List, Option, None};
ghost use Rattle.xid.specs.declared.refusals.Refusal.{Refusal};
ghost use Rattle.xid.specs.declared.refusals.Refusal.TheVariants.{NoMemory};
ghost use Rattle.net_script.specs.declared.values.Trace.{Trace};
ghost use Rattle.net_script.specs.TraceReading.{RefusesTrace, SpellsTrace};
ghost use Rattle.audit.specs.Faults.{IsJudged};
ghost use Rattle.audit.specs.declared.faults.Fault.{Fault};
ghost use Rattle.cluster_run.specs.Runs.{IsRun};
ghost use Rattle.picture.specs.Pictures.{IsPictureOf};
ghost use Rattle.run_traces.specs.Numbers.{HasNumbers};

use audit::laws::machine_traces_are_consistent;

/// What is printed of a run spells its trace, where fewer than 2^32 datagrams were sent and notices told: each line, each last row and the
/// sizes are what a trace may have; and it spells no other. So a reader of traces, `audit_text` and `picture`, which refuse a text as that
/// reader does, refuse it for want of memory alone.
pub fn runs_are_read()
    ensures reads { (bytes output : List ℕ) (run : IsRun bytes output) → HasNumbers run → SpellsTrace output run.is.trace }
    ensures only { (bytes output : List ℕ) (run : IsRun bytes output) → HasNumbers run → (trace : Trace) → SpellsTrace output trace
        → trace ≡ run.is.trace }
    ensures refuses { (bytes output : List ℕ) (run : IsRun bytes output) → HasNumbers run → (e : Refusal) → RefusesTrace output e
        → e ≡ NoMemory }
{}

/// Of such a run `audit_text` finds nothing: its trace is consistent, and nothing else is found in the text.
pub fn runs_are_consistent()
    ensures consistent { (bytes output : List ℕ) (run : IsRun bytes output) → HasNumbers run → IsJudged output None }
    ensures only { (bytes output : List ℕ) (run : IsRun bytes output) → HasNumbers run → (found : Option Fault) → IsJudged output found
        → found ≡ None }
{
    machine_traces_are_consistent();
}

/// And it has a picture, whatever the name of its file.
pub fn runs_have_pictures()
    ensures { (bytes output : List ℕ) (run : IsRun bytes output) → HasNumbers run → (path : List ℕ)
        → (text : List ℕ) × IsPictureOf path output text }
{}
