//! What a recorder may do that leaves out good mallocs and frees too, and states a block only when
//! a fault comes near it, so that the same is reported of the recording as of the run. Each
//! function does nothing: its contract is the law.

ghost use Rattle.std.specs.Prelude.{◌≡◌, ◌+◌, ◌<◌, ◌≤◌, ◌∷◌, ◌++◌, ℕ, List, [], IsTrue, false};
ghost use Rattle.std.specs.Prelude.{◌||◌, Contains, IsPermutation, reverse, map, sum_by};
ghost use Rattle.std.specs.List.{AllPairs, AllZip, list_any, flat_map};
ghost use Rattle.trace_record.specs.declared.event.Event.{Event};
ghost use Rattle.trace_record.specs.declared.event.Event.TheVariants as event;
ghost use Rattle.trace_record.specs.declared.event.Access.{Access};
ghost use Rattle.trace_record.specs.declared.event.Place.{Place};
ghost use Rattle.trace_record.specs.declared.event.Region.{Region};
ghost use Rattle.trace_record.specs.declared.shade.Shade.{Shade};
ghost use Rattle.trace_record.specs.Shades.{shade_size, shade_kind};
ghost use Rattle.shadow_map.specs.States.{HeapRedzone, code_of};
ghost use Rattle.shadow_map.specs.Granules.{block_byte, front_of};
ghost use Rattle.heap_book.specs.Spans.{Extent, IsPlaced, span_bytes, meets, held_of, starts_at};
ghost use Rattle.asan_units.specs.Units.{first_byte, granule_size};
ghost use Rattle.asan_check.specs.declared.report.Fault.{Fault};
ghost use Rattle.asan_check.specs.declared.report.Report.{Report};
ghost use Rattle.asan_check.specs.Codes.{code_of_kind};
ghost use Rattle.asan_check.specs.History.{block_of, live, held, admits};
ghost use Rattle.asan_check.specs.Verdicts.{fault_of, is_access, verdicts, verdicts_of};
ghost use Rattle.asan_laws.specs.Thinning.{faults_of, faults_on};
ghost use Rattle.asan_laws.specs.Snapshots.{is_shade, NoneShares, LiesInSpan, LiesInBytes};
ghost use Rattle.asan_laws.specs.Recording.{HaveSameBlocks, IsSameAt, Records, numbers_in_both};
ghost use Rattle.asan_laws.specs.Recording.{HasNumber, IsBefore, FindAllBytes, IsReportedOfOne};
ghost use Rattle.asan_laws.specs.Recording.{IsSameInDetail, without_class, is_of_block};
ghost use Rattle.asan_laws.specs.Recording.{Detail, shadow_bytes};
ghost use Rattle.asan_laws.specs.Runs.{Step, Does, events_of, live_in, held_in, shadow_in};
ghost use Rattle.asan_laws.specs.Runs.{fault_in, faults_in, verdicts_in};
ghost use Rattle.asan_laws.specs.Runs.{since_malloc_in, since_free_in};
ghost use Rattle.asan_laws.specs.Runs.{with_quarantine, IsShownIn};
ghost use Rattle.asan_laws.specs.LeanRecording.{EachHeldFits, FindsInRun, IsAsInRun};
ghost use Rattle.asan_laws.specs.LeanRecording.{AreReportedInRun};
ghost use Rattle.asan_laws.specs.LeanRecording.{RecordsLeanly, lean_numbers, RecordsInSegments};
ghost use Rattle.asan_laws.specs.LeanRecording.{segment_numbers};
ghost use Rattle.asan_laws.specs.LeanRecording.{FindsItsBlock, shadow_after, freed_byte};
ghost use Rattle.asan_laws.specs.LeanRecording.{released_byte, shaded_byte, IsShown};
ghost use Rattle.asan_laws.specs.LeanRecording.{IsShownForAccess};

/// What is wrong in a lean recording is what is wrong in the run: the same faults in the same
/// order, and each report on the same event, whenever the run releases its blocks. The recording
/// may begin at any time, with any events. If it begins with the run, all reports are the same but
/// for numbers. A report on an access that finds only as many addressable bytes as in the run is
/// the same but for its class and shadow byte, and all others stay the same.
pub fn a_lean_recording_has_the_faults_of_the_run()
    ensures faults { (bound : ℕ) (first : List Event) (past : List Step) (recorded : List Event)
        (run : List Step) →
        (way : RecordsLeanly bound first past recorded run) → FindAllBytes (lean_numbers way) →
        (added : List Fault)
        × (faults_of bound recorded ≡ faults_of bound first ++ added)
        × (faults_in run ≡ faults_in past ++ added) }
    ensures reports { (bound : ℕ) (first : List Event) (past : List Step) (recorded : List Event)
        (run : List Step) →
        (way : RecordsLeanly bound first past recorded run) →
        AreReportedInRun bound (lean_numbers way) IsSameInDetail first past recorded run }
    ensures classes { (bound : ℕ) (first : List Event) (past : List Step) (recorded : List Event)
        (run : List Step) →
        RecordsLeanly bound first past recorded run →
        (added : List Fault)
        × (map without_class (faults_of bound recorded)
        ≡ map without_class (faults_of bound first) ++ added)
        × (map without_class (faults_in run) ≡ map without_class (faults_in past) ++ added) }
    ensures whole { (bound : ℕ) (recorded : List Event) (run : List Step)
        (way : RecordsLeanly bound [] [] (reverse recorded) (reverse run)) →
        (FindAllBytes (lean_numbers way) → faults_on bound recorded ≡ faults_in (reverse run))
        × AllZip (IsReportedOfOne (lean_numbers way) IsSameInDetail)
        (verdicts bound recorded) (verdicts_in (reverse run)) }
{}

/// Each event that a lean recording has in common with its run stands in both, by its number in
/// each. These pairs of numbers rise together: what comes later in the recording comes later in the
/// run.
pub fn what_is_recorded_leanly_has_a_number_in_both()
    ensures event { (bound : ℕ) (first : List Event) (past : List Step)
        (recorded : List Event) (run : List Step)
        (way : RecordsLeanly bound first past recorded run)
        (in_recording in_run : ℕ) (detail : Detail) →
        Contains (lean_numbers way) (in_recording, in_run, detail) → (event : Event)
        × HasNumber recorded event in_recording × HasNumber (events_of run) event in_run }
    ensures order { (bound : ℕ) (first : List Event) (past : List Step)
        (recorded : List Event) (run : List Step)
        (way : RecordsLeanly bound first past recorded run) →
        AllPairs IsBefore (lean_numbers way) }
{}

/// What is wrong in a run is what was wrong in its past when its first segment began, and then what
/// is wrong in its segments, one after the other, and each report is on the same event. Each begins
/// with an empty book, or with any events in which nothing is wrong. A report on an access that
/// finds only as many addressable bytes as in the run is the same but for its class and shadow
/// byte, and all others stay the same.
pub fn lean_segments_have_the_faults_of_the_run()
    ensures faults { (bound : ℕ) (past : List Step) (segments : List (List Event))
        (run : List Step) →
        (way : RecordsInSegments bound past segments run) →
        FindAllBytes (segment_numbers way) →
        faults_in run ≡ faults_in past ++ flat_map (faults_of bound) segments }
    ensures reports { (bound : ℕ) (past : List Step) (segments : List (List Event))
        (run : List Step) →
        (way : RecordsInSegments bound past segments run) →
        (added : List Report) × (verdicts_in run ≡ verdicts_in past ++ added)
        × AllZip (IsReportedOfOne (segment_numbers way) IsSameInDetail)
        (flat_map (verdicts_of bound) segments) added }
    ensures classes { (bound : ℕ) (past : List Step) (segments : List (List Event))
        (run : List Step) →
        RecordsInSegments bound past segments run →
        map without_class (faults_in run)
        ≡ map without_class (faults_in past)
        ++ map without_class (flat_map (faults_of bound) segments) }
{}

/// In a new segment each load, store, malloc and free can be recorded, whatever the run has done,
/// as long as each block that it holds fits into the quarantine of the recording: there are events
/// to put in after which it finds what it finds in the run. So a recorder never has to give up.
pub fn each_event_can_be_recorded_in_a_new_segment()
    ensures { (bound : ℕ) (run : List Step) → EachHeldFits bound run →
        (e : Event) → IsTrue (is_access e || is_of_block e) →
        (stated : List Event)
        × (way : RecordsLeanly bound [] run (e ∷ stated) (Does e ∷ run))
        × FindAllBytes (lean_numbers way) }
{}

/// A recording with each malloc and free is a lean one too, of the run with one quarantine, if it
/// has the same blocks as the run when it begins, and with the same numbers. So a process may go
/// over from full to lean recording at any time, and back at a new segment that begins with the
/// blocks of the run.
pub fn a_full_recording_is_a_lean_one()
    ensures { (bound : ℕ) (first past recorded run : List Event) →
        HaveSameBlocks bound first past →
        (way : Records bound first past recorded run) →
        (leanly : RecordsLeanly bound first (with_quarantine bound past) recorded
        (with_quarantine bound run)) × (lean_numbers leanly ≡ numbers_in_both way) }
{}

/// What a recorder has to note to know the book of its recording. A malloc that is put in adds its
/// block to the live ones. A free that is put in moves one of these behind the held ones, and then
/// the oldest held ones leave until the rest is within the bound. No other event changes the book.
/// A block that is placed and meets none of the book may be put in.
pub fn a_recorder_can_keep_the_book()
    ensures admitted { (bound : ℕ) (recorded : List Event) (b : Extent) → IsPlaced b →
        ((other : Extent) → Contains (live bound recorded ++ held bound recorded) other →
        meets b other ≡ false) → IsTrue (admits bound recorded b) }
    ensures malloc { (bound : ℕ) (recorded : List Event) (r : Region) →
        IsTrue (admits bound recorded (block_of r)) →
        (live bound (event.Malloc r ∷ recorded) ≡ live bound recorded ++ block_of r ∷ [])
        × (held bound (event.Malloc r ∷ recorded) ≡ held bound recorded) }
    ensures free { (bound : ℕ) (recorded : List Event) (p : Place) (b : Extent) →
        Contains (live bound recorded) b → b.at ≡ p.at →
        IsPermutation (b ∷ live bound (event.Free p ∷ recorded)) (live bound recorded)
        × (held bound (event.Free p ∷ recorded) ≡ held_of bound (held bound recorded ++ b ∷ [])) }
    ensures fits { (bound : ℕ) (helds : List Extent) → sum_by span_bytes helds ≤ bound →
        held_of bound helds ≡ helds }
    ensures refused { (bound : ℕ) (recorded : List Event) (r : Region) →
        admits bound recorded (block_of r) ≡ false →
        (live bound (event.Malloc r ∷ recorded) ≡ live bound recorded)
        × (held bound (event.Malloc r ∷ recorded) ≡ held bound recorded) }
    ensures bad_free { (bound : ℕ) (recorded : List Event) (p : Place) →
        list_any (starts_at p.at) (live bound recorded) ≡ false →
        (live bound (event.Free p ∷ recorded) ≡ live bound recorded)
        × (held bound (event.Free p ∷ recorded) ≡ held bound recorded) }
    ensures others { (bound : ℕ) (recorded : List Event) (e : Event) → is_of_block e ≡ false →
        (live bound (e ∷ recorded) ≡ live bound recorded)
        × (held bound (e ∷ recorded) ≡ held bound recorded) }
{}

/// What is wrong with a malloc or a free depends on little of the book: on whether the block is
/// admitted, and on which blocks start at the address.
pub fn a_free_looks_at_its_address()
    ensures { (bound : ℕ) (recorded : List Event) (run : List Step) (e : Event) →
        FindsItsBlock bound recorded run e → fault_of bound recorded e ≡ fault_in run e }
{}

/// What each event makes of a granule's shadow byte, after any history. A recorder that keeps a
/// shadow of its recording by these rules knows at each access whether the granules that it looks
/// at have the shadow bytes of the run. What a free releases are the held blocks that leave in
/// front, and the freed one itself if it is larger than the bound.
pub fn a_recorder_can_keep_the_shadow()
    ensures malloc { (bound : ℕ) (recorded : List Event) (r : Region) (granule : ℕ) →
        IsTrue (admits bound recorded (block_of r)) →
        shadow_after bound (event.Malloc r ∷ recorded) granule
        ≡ block_byte r.at r.size granule (shadow_after bound recorded granule) }
    ensures free { (bound : ℕ) (recorded : List Event) (p : Place) (b : Extent)
        (released : List Extent) (granule : ℕ) →
        Contains (live bound recorded) b → b.at ≡ p.at →
        released ++ held bound (event.Free p ∷ recorded) ≡ held bound recorded ++ b ∷ [] →
        shadow_after bound (event.Free p ∷ recorded) granule
        ≡ released_byte released granule
        (freed_byte b granule (shadow_after bound recorded granule)) }
    ensures shade { (bound : ℕ) (recorded : List Event) (e : Event) (granule : ℕ) →
        IsTrue (is_shade e) →
        shadow_after bound (e ∷ recorded) granule
        ≡ shaded_byte e granule (shadow_after bound recorded granule) }
    ensures access { (bound : ℕ) (recorded : List Event) (e : Event) (granule : ℕ) →
        IsTrue (is_access e) →
        shadow_after bound (e ∷ recorded) granule ≡ shadow_after bound recorded granule }
    ensures refused { (bound : ℕ) (recorded : List Event) (r : Region) (granule : ℕ) →
        admits bound recorded (block_of r) ≡ false →
        shadow_after bound (event.Malloc r ∷ recorded) granule
        ≡ shadow_after bound recorded granule }
    ensures bad_free { (bound : ℕ) (recorded : List Event) (p : Place) (granule : ℕ) →
        list_any (starts_at p.at) (live bound recorded) ≡ false →
        shadow_after bound (event.Free p ∷ recorded) granule
        ≡ shadow_after bound recorded granule }
{}

/// What a poison or an unpoison can state of a granule. Whatever stood there, a poison that takes
/// it in wholly gives the code of its kind, and such an unpoison gives 0. If too many of its bytes
/// are addressable, a poison of the last ones is enough, and if too few are, an unpoison of the
/// first ones. One that shares no granule with it leaves it as it is.
pub fn a_poison_can_state_a_granule()
    ensures whole { (bound : ℕ) (recorded : List Event) (s : Shade) (granule : ℕ) →
        s.at ≤ first_byte granule → first_byte granule + granule_size ≤ s.at + shade_size s →
        shadow_after bound (event.Poison s ∷ recorded) granule ≡ code_of_kind (shade_kind s) }
    ensures good { (bound : ℕ) (recorded : List Event) (r : Region) (granule : ℕ) →
        r.at ≤ first_byte granule → first_byte granule + granule_size ≤ r.at + r.size →
        shadow_after bound (event.Unpoison r ∷ recorded) granule ≡ 0 }
    ensures fewer { (bound : ℕ) (recorded : List Event) (s : Shade) (granule count : ℕ) →
        0 < count → s.at ≡ first_byte granule + count →
        first_byte granule + granule_size ≤ s.at + shade_size s →
        count < front_of (shadow_after bound recorded granule) →
        shadow_after bound (event.Poison s ∷ recorded) granule ≡ count }
    ensures more { (bound : ℕ) (recorded : List Event) (r : Region) (granule count : ℕ) →
        count < granule_size → r.at ≤ first_byte granule →
        r.at + r.size ≡ first_byte granule + count →
        front_of (shadow_after bound recorded granule) < count →
        shadow_after bound (event.Unpoison r ∷ recorded) granule ≡ count }
    ensures beside { (bound : ℕ) (recorded : List Event) (e : Event) (granule : ℕ) →
        IsTrue (is_shade e) → NoneShares (e ∷ []) granule →
        shadow_after bound (e ∷ recorded) granule ≡ shadow_after bound recorded granule }
{}

/// What stands in a granule says its shadow byte, in a history as in a run: a live or a held block,
/// poison, or nothing that was ever marked. So a recorder that keeps no shadow of its recording can
/// look at its book, and an access finds the same if what the book shows is what the run has.
pub fn what_stands_in_a_granule_says_its_shadow_byte()
    ensures byte { (bound : ℕ) (past : List Event) (granule shadow : ℕ) →
        IsShown bound past granule shadow → shadow_after bound past granule ≡ shadow }
    ensures same { (bound : ℕ) (recorded run : List Event) (granule shadow : ℕ) →
        IsShown bound recorded granule shadow → IsShown bound run granule shadow →
        IsSameAt bound recorded run granule }
    ensures in_run { (run : List Step) (granule shadow : ℕ) →
        IsShownIn run granule shadow → shadow_in run granule ≡ shadow }
    ensures as_in_run { (bound : ℕ) (recorded : List Event) (run : List Step)
        (granule shadow : ℕ) →
        IsShown bound recorded granule shadow → IsShownIn run granule shadow →
        IsAsInRun bound recorded run granule }
    ensures finds { (bound : ℕ) (recorded : List Event) (run : List Step) (access : Access) →
        IsShownForAccess bound recorded run access →
        FindsInRun bound shadow_bytes recorded run access }
{}

/// A block that is stated looks at once as in the run. It was live there, and a malloc of it is put
/// in; it was held there, and a malloc and a free are put in, if it fits into the quarantine of the
/// recording; or some memory is redzone there, as what was released, and a malloc is put in that
/// has a redzone in that place, as one of no bytes. Poison that comes near it in the run is stated
/// after it.
pub fn a_stated_block_looks_as_in_the_run()
    ensures live { (bound : ℕ) (recorded : List Event) (run : List Step) (r : Region)
        (granule : ℕ) →
        IsTrue (admits bound recorded (block_of r)) → Contains (live_in run) (block_of r) →
        LiesInSpan (block_of r) granule →
        NoneShares (since_malloc_in run (block_of r)) granule →
        IsAsInRun bound (event.Malloc r ∷ recorded) run granule }
    ensures held { (bound : ℕ) (recorded : List Event) (run : List Step) (r : Region) (p : Place)
        (granule : ℕ) →
        IsTrue (admits bound recorded (block_of r)) → span_bytes (block_of r) ≤ bound →
        Contains (held_in run) (block_of r) →
        p.at ≡ r.at → LiesInBytes (block_of r) granule →
        NoneShares (since_free_in run (block_of r)) granule →
        IsAsInRun bound (event.Free p ∷ event.Malloc r ∷ recorded) run granule }
    ensures around_held { (bound : ℕ) (recorded : List Event) (run : List Step) (r : Region)
        (p : Place) (granule : ℕ) →
        IsTrue (admits bound recorded (block_of r)) → span_bytes (block_of r) ≤ bound →
        Contains (held_in run) (block_of r) →
        p.at ≡ r.at → LiesInSpan (block_of r) granule → ¬ LiesInBytes (block_of r) granule →
        NoneShares (since_malloc_in run (block_of r)) granule →
        IsAsInRun bound (event.Free p ∷ event.Malloc r ∷ recorded) run granule }
    ensures redzone { (bound : ℕ) (recorded : List Event) (run : List Step) (r : Region)
        (granule : ℕ) →
        IsTrue (admits bound recorded (block_of r)) → LiesInSpan (block_of r) granule →
        ¬ LiesInBytes (block_of r) granule →
        shadow_in run granule ≡ code_of HeapRedzone →
        IsAsInRun bound (event.Malloc r ∷ recorded) run granule }
{}
