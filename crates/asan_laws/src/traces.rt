//! What the verdicts on a trace come to, whose history may begin anew: those on its histories. Each
//! function does nothing: its contract is the law.

ghost use Rattle.std.specs.Prelude.{◌≡◌, ◌+◌, ◌∷◌, ◌++◌, ℕ, List, map, length};
ghost use Rattle.std.specs.List.{flat_map};
ghost use Rattle.trace_record.specs.declared.event.Event.{Event};
ghost use Rattle.trace_record.specs.declared.event.Event.TheVariants as event;
ghost use Rattle.asan_check.specs.Verdicts.{fault_of, verdicts_of};
ghost use Rattle.asan_check.specs.Traces as trace;
ghost use Rattle.asan_laws.specs.Thinning.{faults_of};
ghost use Rattle.asan_laws.specs.Traces.{IsOneHistory, AreHistories, with_histories, numbered_on};

/// A trace of one history, which never begins anew, has the verdicts of that history, and the same
/// is wrong with an event after it.
pub fn a_trace_of_one_history_is_that_history()
    ensures verdicts { (bound : ℕ) (past : List Event) → IsOneHistory past →
        trace.verdicts_of bound past ≡ verdicts_of bound past }
    ensures fault { (bound : ℕ) (past : List Event) (e : Event) → IsOneHistory past →
        trace.fault_of bound past e ≡ fault_of bound past e }
{}

/// A history that begins anew is judged by itself: its reports follow those of the trace before it,
/// and are numbered on. What is wrong with the next event is wrong with it in this history,
/// whatever the trace was before.
pub fn a_history_that_begins_anew_is_judged_by_itself()
    ensures verdicts { (bound : ℕ) (past history : List Event) → IsOneHistory history →
        trace.verdicts_of bound (history ++ event.Anew ∷ past)
        ≡ trace.verdicts_of bound past
        ++ map (numbered_on (length past + 1)) (verdicts_of bound history) }
    ensures fault { (bound : ℕ) (past history : List Event) (e : Event) → IsOneHistory history →
        trace.fault_of bound (history ++ event.Anew ∷ past) e ≡ fault_of bound history e }
{}

/// So what is wrong in a trace of several histories is what is wrong in each of them, in their
/// order. With the law on segments of a lean recording, such a trace has the faults of the run.
pub fn a_trace_has_the_faults_of_its_histories()
    ensures { (bound : ℕ) (past : List Event) (histories : List (List Event)) →
        AreHistories histories →
        map (λ r. r.fault) (trace.verdicts_of bound (with_histories past histories))
        ≡ map (λ r. r.fault) (trace.verdicts_of bound past)
        ++ flat_map (faults_of bound) histories }
{}
