//! What a recorder may leave out of a run, and what it may put in, so that the same is reported of
//! the recording as of the run. Each function does nothing: its contract is the law.

ghost use Rattle.std.specs.Prelude.{◌≡◌, ◌+◌, ◌++◌, ℕ, Bool, List, []};
ghost use Rattle.std.specs.Prelude.{Contains, reverse, map};
ghost use Rattle.std.specs.List.{AllPairs, AllZip};
ghost use Rattle.std.specs.Option.{option_map};
ghost use Rattle.trace_record.specs.declared.event.Event.{Event};
ghost use Rattle.trace_record.specs.declared.event.Access.{Access};
ghost use Rattle.heap_book.specs.Spans.{Extent};
ghost use Rattle.asan_units.specs.Units.{granule_of};
ghost use Rattle.asan_check.specs.declared.report.Fault.{Fault};
ghost use Rattle.asan_check.specs.Verdicts.{fault_of, verdicts, verdicts_of};
ghost use Rattle.asan_laws.specs.Laws.{access_event};
ghost use Rattle.asan_laws.specs.Thinning.{faults_of, faults_on};
ghost use Rattle.asan_laws.specs.Snapshots.{IsSnapshot};
ghost use Rattle.asan_laws.specs.Recording.{HaveBlocksBut, HaveSameBlocks, IsSameAt, FindsTheSame};
ghost use Rattle.asan_laws.specs.Recording.{FindsAsMany, Records, numbers_in_both, IsBefore};
ghost use Rattle.asan_laws.specs.Recording.{HasNumber, FindAllBytes, without_class};
ghost use Rattle.asan_laws.specs.Recording.{IsSameInDetail, IsSameButForCut, IsReportedOfOne};
ghost use Rattle.asan_laws.specs.Recording.{AreReportedAlike, IsSnapshotBut, NoMallocMeets, Detail};

/// What is wrong with a load or a store depends on the shadow bytes of two granules alone: that of
/// its first byte and the next one. The second plays a part only if the access is bad and says its
/// class.
pub fn an_access_looks_at_two_granules()
    ensures two { (bound : ℕ) (one other : List Event) (is_store : Bool) (access : Access) →
        IsSameAt bound one other (granule_of access.at) →
        IsSameAt bound one other (granule_of access.at + 1) →
        fault_of bound one (access_event is_store access)
        ≡ fault_of bound other (access_event is_store access) }
    ensures found { (bound : ℕ) (one other : List Event) (is_store : Bool) (access : Access) →
        FindsTheSame bound one other access →
        fault_of bound one (access_event is_store access)
        ≡ fault_of bound other (access_event is_store access) }
{}

/// Where as many bytes of the granule of its first byte are addressable, a load or a store is as
/// good or as bad, but for the class and the shadow byte.
pub fn an_access_is_as_bad_but_for_its_class()
    ensures { (bound : ℕ) (one other : List Event) (is_store : Bool) (access : Access) →
        FindsAsMany bound one other access →
        option_map without_class (fault_of bound one (access_event is_store access))
        ≡ option_map without_class (fault_of bound other (access_event is_store access)) }
{}

/// Each event that is recorded stands in the recording and in the run, by its number in each. These
/// pairs of numbers rise together: what comes later in the recording comes later in the run.
pub fn what_is_recorded_has_a_number_in_both()
    ensures event { (bound : ℕ) (first past recorded run : List Event)
        (way : Records bound first past recorded run) (in_recording in_run : ℕ) (detail : Detail) →
        Contains (numbers_in_both way) (in_recording, in_run, detail) → (event : Event)
        × HasNumber recorded event in_recording × HasNumber run event in_run }
    ensures order { (bound : ℕ) (first past recorded run : List Event)
        (way : Records bound first past recorded run) → AllPairs IsBefore (numbers_in_both way) }
{}

/// What is wrong in a recording is what is wrong in the run: the same faults in the same order, and
/// each report on the same event. The recording may begin late, with events that leave the blocks
/// that the run has by then. If it begins with the run, all reports are the same but for numbers. A
/// report on an access that finds only as many addressable bytes as in the run is the same but for
/// its class and shadow byte, and all others stay the same.
pub fn a_recording_has_the_faults_of_the_run()
    ensures faults { (bound : ℕ) (first past recorded run : List Event) →
        HaveSameBlocks bound first past →
        (way : Records bound first past recorded run) → FindAllBytes (numbers_in_both way) →
        (added : List Fault)
        × (faults_of bound recorded ≡ faults_of bound first ++ added)
        × (faults_of bound run ≡ faults_of bound past ++ added) }
    ensures reports { (bound : ℕ) (first past recorded run : List Event) →
        HaveSameBlocks bound first past →
        (way : Records bound first past recorded run) →
        AreReportedAlike bound (numbers_in_both way) IsSameInDetail first past recorded run }
    ensures classes { (bound : ℕ) (first past recorded run : List Event) →
        HaveSameBlocks bound first past →
        Records bound first past recorded run →
        (added : List Fault)
        × (map without_class (faults_of bound recorded)
        ≡ map without_class (faults_of bound first) ++ added)
        × (map without_class (faults_of bound run)
        ≡ map without_class (faults_of bound past) ++ added) }
    ensures whole { (bound : ℕ) (recorded run : List Event)
        (way : Records bound [] [] (reverse recorded) (reverse run)) →
        (FindAllBytes (numbers_in_both way) → faults_on bound recorded ≡ faults_on bound run)
        × AllZip (IsReportedOfOne (numbers_in_both way) IsSameInDetail)
        (verdicts bound recorded) (verdicts bound run) }
{}

/// A segment that begins with what the run has left has the same live and held blocks, but for
/// the held ones that it leaves out, and nothing is wrong in its beginning. Poisons and unpoisons
/// may stand anywhere in that.
pub fn a_segment_begins_with_the_blocks_of_the_run()
    ensures blocks { (bound : ℕ) (cut : List Extent) (snapshot past : List Event) →
        IsSnapshotBut bound cut snapshot past → HaveBlocksBut bound cut snapshot past }
    ensures quiet { (bound : ℕ) (cut : List Extent) (snapshot past : List Event) →
        IsSnapshotBut bound cut snapshot past → verdicts_of bound snapshot ≡ [] }
    ensures snapshot { (bound : ℕ) (snapshot past : List Event) →
        IsSnapshot bound snapshot past → IsSnapshotBut bound [] snapshot past }
{}

/// A segment that leaves out the oldest held blocks has the reports of the run from there on, where
/// a second free of one of these may be a bad free in place of a double free. Until it is released,
/// no malloc of the run may meet such a block: there it would be bad in the run alone.
pub fn a_segment_may_leave_out_the_oldest_held_blocks()
    ensures { (bound : ℕ) (cut : List Extent) (snapshot past recorded run : List Event) →
        IsSnapshotBut bound cut snapshot past → NoMallocMeets bound cut past run →
        (way : Records bound snapshot past recorded run) →
        AreReportedAlike bound (numbers_in_both way) (IsSameButForCut cut)
        snapshot past recorded run }
{}
