//! What comes of a recording in groups. The function does nothing: its contract is the law.

ghost use Rattle.std.specs.Prelude.{◌≡◌, ◌++◌, ℕ, List, map};
ghost use Rattle.trace_record.specs.declared.event.Event.{Event};
ghost use Rattle.asan_check.specs.declared.report.Fault.{Fault};
ghost use Rattle.asan_check.specs.Traces as trace;
ghost use Rattle.asan_laws.specs.Runs.{Step, faults_in};
ghost use Rattle.asan_plan.specs.Groups.{RecordsInGroups, group_numbers, HasReportsOfRun};

/// A recorder that leaves out only what is good in the run, and records each other event after what
/// states there what it finds in the run, in a history of its own or in one that has stated it
/// already, has the run's reports: the same faults, in the same order, and each on the same event.
pub fn a_recording_in_groups_has_the_reports_of_the_run()
    ensures reports { (bound : ℕ) (before : List Event) (past : List Step)
        (recorded : List Event) (run : List Step)
        (way : RecordsInGroups bound before past recorded run) →
        HasReportsOfRun bound (group_numbers way) before past recorded run }
    ensures faults { (bound : ℕ) (before : List Event) (past : List Step)
        (recorded : List Event) (run : List Step) →
        RecordsInGroups bound before past recorded run → (added : List Fault)
        × (map (λ r. r.fault) (trace.verdicts_of bound recorded)
        ≡ map (λ r. r.fault) (trace.verdicts_of bound before) ++ added)
        × (faults_in run ≡ faults_in past ++ added) }
{}
