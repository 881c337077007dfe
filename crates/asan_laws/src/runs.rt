//! Runs that hold each freed block as long as they like: the run with one quarantine is as its
//! history says, and what a run says of a block that it holds. Each function does nothing: its
//! contract is the law.

ghost use Rattle.std.specs.Prelude.{◌≡◌, ◌+◌, ◌∷◌, ◌++◌, ℕ, List, Some, Contains, false, Bool};
ghost use Rattle.std.specs.Prelude.{IsTrue, []};
ghost use Rattle.std.specs.List.{list_any};
ghost use Rattle.trace_record.specs.declared.event.Event.{Event};
ghost use Rattle.trace_record.specs.declared.event.Event.TheVariants as event;
ghost use Rattle.trace_record.specs.declared.event.Access.{Access};
ghost use Rattle.trace_record.specs.declared.event.Place.{Place};
ghost use Rattle.trace_record.specs.declared.event.Region.{Region};
ghost use Rattle.shadow_map.specs.States.{AreMarks, code_of};
ghost use Rattle.shadow_map.specs.Granules.{block_byte};
ghost use Rattle.heap_book.specs.Spans.{Extent, meets, starts_at};
ghost use Rattle.asan_check.specs.declared.report.Class.TheVariants as class;
ghost use Rattle.asan_check.specs.declared.report.Fault.TheVariants as fault;
ghost use Rattle.asan_check.specs.Codes.{Freed};
ghost use Rattle.asan_check.specs.History.{block_of, live, held, marks};
ghost use Rattle.asan_check.specs.Verdicts.{fault_of, verdicts_of, is_access};
ghost use Rattle.asan_laws.specs.Laws.{since_malloc, since_free, NoPoisonShares, NoUnpoisonShares};
ghost use Rattle.asan_laws.specs.Laws.{StartsWithin, access_event};
ghost use Rattle.asan_laws.specs.Snapshots.{is_shade};
ghost use Rattle.asan_laws.specs.Runs.{Step, Does, Releases, events_of, live_in, held_in};
ghost use Rattle.asan_laws.specs.Runs.{admits_in, marks_in, shadow_in};
ghost use Rattle.asan_laws.specs.Runs.{fault_in, verdicts_in, since_malloc_in, since_free_in};
ghost use Rattle.asan_laws.specs.Runs.{with_quarantine, without_release};
ghost use Rattle.asan_laws.specs.LeanRecording.{EachHeldFits, RecordsLeanly, lean_numbers};
ghost use Rattle.asan_laws.specs.LeanRecording.{freed_byte, released_byte, shaded_byte};

/// The run that does the events of a history with one quarantine, a queue of `bound` bytes, is as
/// the history says: it has the same events, blocks and marks, the same is wrong with an event
/// after it, and the verdicts on it are the same. Each block that it holds fits into the queue. A
/// lean recording of it as it has done an event is one of it after the releases that follow, too,
/// with the same numbers.
pub fn a_run_with_one_quarantine_is_as_its_history()
    ensures events { (bound : ℕ) (past : List Event) →
        events_of (with_quarantine bound past) ≡ past }
    ensures blocks { (bound : ℕ) (past : List Event) →
        (live_in (with_quarantine bound past) ≡ live bound past)
        × (held_in (with_quarantine bound past) ≡ held bound past) }
    ensures marks { (bound : ℕ) (past : List Event) →
        marks_in (with_quarantine bound past) ≡ marks bound past }
    ensures since { (bound : ℕ) (past : List Event) (block : Extent) →
        (since_malloc_in (with_quarantine bound past) block ≡ since_malloc bound past block)
        × (since_free_in (with_quarantine bound past) block ≡ since_free bound past block) }
    ensures fault { (bound : ℕ) (past : List Event) (e : Event) →
        fault_in (with_quarantine bound past) e ≡ fault_of bound past e }
    ensures verdicts { (bound : ℕ) (past : List Event) →
        verdicts_in (with_quarantine bound past) ≡ verdicts_of bound past }
    ensures fits { (bound : ℕ) (past : List Event) →
        EachHeldFits bound (with_quarantine bound past) }
    ensures recorded { (bound : ℕ) (first : List Event) (past : List Step)
        (recorded run : List Event) (e : Event)
        (way : RecordsLeanly bound first past recorded (Does e ∷ with_quarantine bound run)) →
        (on : RecordsLeanly bound first past recorded (with_quarantine bound (e ∷ run)))
        × (lean_numbers on ≡ lean_numbers way) }
{}

/// What a run says of a block that it holds: a second free of it is a double free, its memory is
/// not handed out again, and an access that starts at its bytes is a use after free, as long as no
/// poison and no unpoison since its free shares a granule with the access's first byte.
pub fn a_run_reports_what_comes_to_a_held_block()
    ensures double_free { (run : List Step) (block : Extent) (p : Place) →
        Contains (held_in run) block → p.at ≡ block.at →
        fault_in run (event.Free p) ≡ Some (fault.DoubleFree p.at) }
    ensures not_handed_out { (run : List Step) (block : Extent) (r : Region) →
        Contains (held_in run) block → IsTrue (meets (block_of r) block) →
        admits_in run (block_of r) ≡ false }
    ensures use_after_free { (run : List Step) (block : Extent) (is_store : Bool)
        (access : Access) →
        Contains (held_in run) block → StartsWithin block access →
        NoPoisonShares (since_free_in run block) access.at (access.at + 1) →
        NoUnpoisonShares (since_free_in run block) access.at (access.at + 1) →
        fault_in run (access_event is_store access)
        ≡ Some (fault.Access is_store access.width access.at access.at class.HeapUseAfterFree
        (code_of Freed)) }
{}

/// What each step of a run makes of a granule's shadow byte. So a recorder whose own shadow does as
/// these say has the run's. The marks of a run are such as calls may make, so that its shadow bytes
/// say what those of a history do.
pub fn a_shadow_can_follow_a_run()
    ensures malloc { (run : List Step) (r : Region) (granule : ℕ) →
        IsTrue (admits_in run (block_of r)) →
        shadow_in (Does (event.Malloc r) ∷ run) granule
        ≡ block_byte r.at r.size granule (shadow_in run granule) }
    ensures free { (run : List Step) (p : Place) (b : Extent) (granule : ℕ) →
        Contains (live_in run) b → b.at ≡ p.at →
        shadow_in (Does (event.Free p) ∷ run) granule
        ≡ freed_byte b granule (shadow_in run granule) }
    ensures release { (run : List Step) (b : Extent) (granule : ℕ) → Contains (held_in run) b →
        shadow_in (Releases b.at ∷ run) granule
        ≡ released_byte (b ∷ []) granule (shadow_in run granule) }
    ensures shade { (run : List Step) (e : Event) (granule : ℕ) → IsTrue (is_shade e) →
        shadow_in (Does e ∷ run) granule ≡ shaded_byte e granule (shadow_in run granule) }
    ensures access { (run : List Step) (e : Event) (granule : ℕ) → IsTrue (is_access e) →
        shadow_in (Does e ∷ run) granule ≡ shadow_in run granule }
    ensures refused { (run : List Step) (r : Region) (granule : ℕ) →
        admits_in run (block_of r) ≡ false →
        shadow_in (Does (event.Malloc r) ∷ run) granule ≡ shadow_in run granule }
    ensures bad_free { (run : List Step) (p : Place) (granule : ℕ) →
        list_any (starts_at p.at) (live_in run) ≡ false →
        shadow_in (Does (event.Free p) ∷ run) granule ≡ shadow_in run granule }
    ensures none_released { (run : List Step) (at granule : ℕ) →
        list_any (starts_at at) (held_in run) ≡ false →
        shadow_in (Releases at ∷ run) granule ≡ shadow_in run granule }
    ensures marks { (run : List Step) → AreMarks (marks_in run) }
{}

/// A run that releases nothing holds each block that it ever freed, so all of that is reported of
/// it, however long ago the free was.
pub fn a_run_that_releases_nothing_forgets_no_block()
    ensures { (before later : List Event) (block : Extent) (p : Place) →
        Contains (live_in (without_release before)) block → p.at ≡ block.at →
        Contains (held_in (without_release (later ++ event.Free p ∷ before))) block }
{}
