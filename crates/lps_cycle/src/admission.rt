ghost use Rattle.std.specs.Prelude.{◌≡◌, ◌++◌, [], IfOk};
ghost use Rattle.std.specs.List.{AllByRecursion};
ghost use Rattle.lps_model.specs.Trace.{if_admitted};
ghost use Rattle.lps_facts.specs.Facts.{members};
ghost use Rattle.lps_causal.specs.Names.{IsEvent};
ghost use Rattle.lps_trial.specs.Trial.{IsLonger, IsTrial};
ghost use Rattle.lps_cycle.specs.Admission.{AreAdmitted, IsVerdictIn, MayCome};

use lps_model::Verdict;
use lps_terms::Atom;
use lps_trial::{Theory, Trial};
use sqlite_items::Items;
use std::alloc::{AllocError, Global};
use std::slice;

/// Judges an event with those admitted before it, and adds it to them where it is admitted.
fn judge(
    alloc: Global,
    theory: &Theory,
    trial: &mut Trial,
    event: &Atom,
) -> Result<Verdict, AllocError>
    requires trial { IsTrial theory.now trial.now }
    requires event { IsEvent theory.now event.now }
    ensures verdict { IfOk result (λ verdict. IsVerdictIn theory.now (members trial.old.state) trial.old.events event.now verdict) }
    ensures kept { IfOk result (λ verdict. trial.new.events ≡ trial.old.events ++ if_admitted verdict event.now) }
    ensures trial { IsTrial theory.now trial.new }
    ensures longer { IsLonger trial.old trial.new }
{
    match trial.try_events(alloc, theory, slice::from_ref(event))? {
        Some(denial) => Ok(Verdict::Rejected(denial)),
        None => Ok(Verdict::Admitted),
    }
}

/// Judges the events of a batch in order, each with those admitted before it, which are then the events of the trial.
pub(crate) fn admit(
    alloc: Global,
    theory: &Theory,
    trial: &mut Trial,
    events: &[Atom],
) -> Result<Items<Verdict>, AllocError>
    requires trial { IsTrial theory.now trial.now }
    requires anew { trial.now.events ≡ [] }
    requires events { AllByRecursion (MayCome theory.now) events.now }
    ensures admitted { IfOk result (λ verdicts. AreAdmitted theory.now (members trial.old.state) events.now verdicts trial.new.events) }
    ensures trial { IsTrial theory.now trial.new }
    ensures longer { IsLonger trial.old trial.new }
{
    let mut verdicts = Vec::with_capacity(alloc, events.len())?;
    for event in events {
        let verdict = judge(alloc, theory, trial, event)?;
        verdicts.push(verdict)?;
    }
    Ok(Items::from_vec(verdicts))
}
