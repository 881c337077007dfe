//! What the definitions of histories and verdicts come to, in the words of somebody who reads the
//! reports. Each function does nothing: its contract is the law.

ghost use Rattle.std.specs.Prelude.{◌≡◌, ◌↔◌, ◌+◌, ◌∷◌, ◌++◌, ℕ, Bool, IsTrue, List, Some, None};
ghost use Rattle.std.specs.Prelude.{Contains, IsPermutation, option_to_list, reverse, map};
ghost use Rattle.std.specs.Prelude.{length, ◌≤◌, ◌⊎◌, []};
ghost use Rattle.std.specs.List.{IsDistinct, list_all};
ghost use Rattle.trace_record.specs.declared.event.Event.{Event};
ghost use Rattle.trace_record.specs.declared.event.Access.{Access};
ghost use Rattle.trace_record.specs.declared.shade.Shade.{Shade};
ghost use Rattle.trace_record.specs.declared.event.Event.TheVariants as event;
ghost use Rattle.trace_record.specs.Shades.{shade_size, shade_kind};
ghost use Rattle.shadow_map.specs.States.{Mark, AreMarks, code_of, state_of, lift};
ghost use Rattle.heap_book.specs.Spans.{Extent, span_from, span_to, meets};
ghost use Rattle.asan_units.specs.Units.{granule_of, granule_size, first_byte};
ghost use Rattle.asan_check.specs.declared.report.Class.{Class};
ghost use Rattle.asan_check.specs.declared.report.Class.TheVariants as class;
ghost use Rattle.asan_check.specs.declared.report.Fault.TheVariants as fault;
ghost use Rattle.asan_check.specs.declared.report.Report.{Report};
ghost use Rattle.asan_check.specs.Codes.{Freed, class_of_code, code_of_kind};
ghost use Rattle.asan_check.specs.History.{live, held, marks};
ghost use Rattle.asan_check.specs.Verdicts.{access_fault, fault_of, verdict, verdicts, verdicts_of};
ghost use Rattle.asan_laws.specs.Classes.{IsTrueOf};
ghost use Rattle.shadow_map.specs.Causes.{deciding_granule};
ghost use Rattle.asan_laws.specs.Thinning.{LeaveTheSame, LeavesOut, IsSublist, faults_of};
ghost use Rattle.asan_laws.specs.Snapshots.{StandTheSame, IsSnapshot, IsAsLaid, NoneShares};
ghost use Rattle.asan_laws.specs.Snapshots.{later_by, is_shade};
ghost use Rattle.asan_check.specs.declared.report.Fault.{Fault};
ghost use Rattle.asan_laws.specs.Laws.{SharesByte, IsReportedAmong};
ghost use Rattle.asan_laws.specs.Laws.{since_malloc, since_free, IsLiveSince, IsHeldSince};
ghost use Rattle.asan_laws.specs.Laws.{NoPoisonShares, NoUnpoisonShares};
ghost use Rattle.asan_laws.specs.Laws.{access_event, LiesInside, StartsAround, StartsWithin};
ghost use Rattle.asan_laws.specs.Laws.{first_byte_report, shadow_around, IsPoisonedSince};

/// The spans of live and held blocks never meet, after any history and with any bound on the
/// quarantine.
pub fn spans_never_meet()
    ensures { (bound : ℕ) (past : List Event) →
        IsDistinct meets (live bound past ++ held bound past) }
{}

/// Two blocks meet exactly where their spans share a byte.
pub fn blocks_meet_where_spans_share_a_byte()
    ensures { (one other : Extent) → IsTrue (meets one other) ↔ SharesByte one other }
{}

/// A block is live exactly where the history has a malloc that was admitted for it, and no free at
/// its address since; the events since are those that the other laws name.
pub fn live_since_its_malloc()
    ensures found { (bound : ℕ) (past : List Event) (block : Extent) →
        Contains (live bound past) block →
        IsLiveSince bound past block (since_malloc bound past block) }
    ensures only { (bound : ℕ) (past : List Event) (block : Extent) (since : List Event) →
        IsLiveSince bound past block since →
        Contains (live bound past) block × (since ≡ since_malloc bound past block) }
{}

/// A block is held exactly where the history has a free of it while it was live, and it was held
/// ever since; the events since are those that the other laws name.
pub fn held_since_its_free()
    ensures found { (bound : ℕ) (past : List Event) (block : Extent) →
        Contains (held bound past) block →
        IsHeldSince bound past block (since_free bound past block) }
    ensures only { (bound : ℕ) (past : List Event) (block : Extent) (since : List Event) →
        IsHeldSince bound past block since →
        Contains (held bound past) block × (since ≡ since_free bound past block) }
{}

/// A load or a store that lies inside a live block is not reported, as long as no poison, of
/// whatever kind, since the block's malloc shares a granule with the access's first byte.
pub fn quiet_inside_live_block()
    ensures { (bound : ℕ) (past : List Event) (block : Extent) (is_store : Bool) (access : Access) →
        Contains (live bound past) block →
        LiesInside block access →
        NoPoisonShares (since_malloc bound past block) access.at (access.at + 1) →
        verdict bound past (access_event is_store access) ≡ None }
{}

/// A load or a store that starts in the span of a live block, but before or past the block's bytes,
/// is reported at its first byte, as long as no poison and no unpoison since the block's malloc
/// shares a granule with that byte; and as a heap buffer overflow, as long as none shares a granule
/// with the span.
pub fn overflow_is_reported()
    ensures reported { (bound : ℕ) (past : List Event) (block : Extent) (is_store : Bool)
        (access : Access) →
        Contains (live bound past) block →
        StartsAround block access →
        NoPoisonShares (since_malloc bound past block) access.at (access.at + 1) →
        NoUnpoisonShares (since_malloc bound past block) access.at (access.at + 1) →
        (said : Class) × (verdict bound past (access_event is_store access)
        ≡ Some (first_byte_report past is_store access said (shadow_around block access.at))) }
    ensures overflow { (bound : ℕ) (past : List Event) (block : Extent) (is_store : Bool)
        (access : Access) →
        Contains (live bound past) block →
        StartsAround block access →
        NoPoisonShares (since_malloc bound past block) (span_from block) (span_to block) →
        NoUnpoisonShares (since_malloc bound past block) (span_from block) (span_to block) →
        verdict bound past (access_event is_store access)
        ≡ Some (first_byte_report past is_store access class.HeapBufferOverflow
        (shadow_around block access.at)) }
{}

/// A load or a store that starts at the bytes of a held block, or at those that round its size up,
/// is reported as a use after free whose bad byte is the first one, as long as no poison and no
/// unpoison since the block's free shares a granule with that byte.
pub fn use_after_free_is_reported()
    ensures { (bound : ℕ) (past : List Event) (block : Extent) (is_store : Bool) (access : Access) →
        Contains (held bound past) block →
        StartsWithin block access →
        NoPoisonShares (since_free bound past block) access.at (access.at + 1) →
        NoUnpoisonShares (since_free bound past block) access.at (access.at + 1) →
        verdict bound past (access_event is_store access)
        ≡ Some (first_byte_report past is_store access class.HeapUseAfterFree (code_of Freed)) }
{}

/// A load or a store that starts in a granule that lies wholly in the region of a poison is
/// reported at its first byte, with the class and the shadow byte of the poison's kind, as long as
/// no mark that was laid after the poison's covers a byte of the granule.
pub fn poison_is_reported()
    ensures { (bound : ℕ) (past : List Event) (poison : Shade) (is_store : Bool) (access : Access) →
        IsPoisonedSince bound past poison (granule_of access.at) →
        verdict bound past (access_event is_store access)
        ≡ Some (first_byte_report past is_store access
        (class_of_code (code_of_kind (shade_kind poison))) (code_of_kind (shade_kind poison))) }
{}

/// The class of a report on a load or a store is true of the byte that decides, after every
/// history: a heap buffer overflow is in a redzone, of a live block, of a held one, or of what was
/// released; a use after free is at the bytes of a held block, or at those that round its size up;
/// and a class of poison is of a byte that a poison of its kind covers last.
pub fn the_class_of_a_report_is_true()
    ensures { (bound : ℕ) (past : List Event) (is_store : Bool) (access : Access)
        (bad : ℕ) (said : Class) (shadow : ℕ) →
        access_fault (state_of (marks bound past)) is_store access
        ≡ Some (fault.Access is_store access.width access.at bad said shadow) →
        IsTrueOf bound past
        (first_byte (deciding_granule (state_of (marks bound past)) access.at)) said }
{}

/// Every mark of a history, with whatever bound on the quarantine, is one that a call may make. So
/// the laws on bytes after such marks hold after every history.
pub fn marks_of_a_history_are_marks()
    ensures { (bound : ℕ) (past : List Event) → AreMarks (marks bound past) }
{}

/// Later events only add marks to those of a history, the newest first.
pub fn marks_are_only_added()
    ensures { (bound : ℕ) (past since : List Event) → (laid : List Mark)
        × (marks bound (since ++ past) ≡ laid ++ marks bound past) }
{}

/// The reports on some events are the verdicts on each of them, in their order: first those on the
/// events before it, then the verdict on it, if it is a report, and then those on the events after
/// it.
pub fn each_event_has_its_verdict()
    ensures { (bound : ℕ) (before after : List Event) (event : Event) → (later : List Report)
        × (verdicts bound (before ++ event ∷ after)
        ≡ (verdicts bound before ++ option_to_list (verdict bound (reverse before) event))
        ++ later) }
{}

/// A report is one of the reports on some events exactly where one of these events has it as its
/// verdict after the events before it.
pub fn reports_are_verdicts()
    ensures { (bound : ℕ) (events : List Event) (report : Report) →
        Contains (verdicts bound events) report ↔ IsReportedAmong bound events report }
{}

/// Loads and stores leave no trace: whichever of them are left out of a history, its marks, its
/// live blocks and its held blocks are the same, and so is what is wrong with an event after it. So
/// a load or a store that is recorded twice has the same fault twice.
pub fn accesses_leave_no_trace()
    ensures trace { (bound : ℕ) (thin full : List Event) → LeavesOut thin full →
        LeaveTheSame bound thin full }
    ensures verdict { (bound : ℕ) (thin full : List Event) (event : Event) →
        LeavesOut thin full → fault_of bound thin event ≡ fault_of bound full event }
{}

/// After two histories that stand the same, the same is wrong with an event, or nothing is, and
/// they stand the same again after it. Histories that leave the same stand the same. So do
/// histories after which each byte has the same state, if the live blocks are the same, in whatever
/// order, and the held ones too, in the same order.
pub fn the_same_stands_again()
    ensures verdict { (bound : ℕ) (one other : List Event) (event : Event) →
        StandTheSame bound one other → fault_of bound one event ≡ fault_of bound other event }
    ensures again { (bound : ℕ) (one other : List Event) (event : Event) →
        StandTheSame bound one other → StandTheSame bound (event ∷ one) (event ∷ other) }
    ensures left { (bound : ℕ) (one other : List Event) →
        LeaveTheSame bound one other → StandTheSame bound one other }
    ensures states { (bound : ℕ) (one other : List Event) →
        ((byte : ℕ) → state_of (marks bound one) byte ≡ state_of (marks bound other) byte) →
        IsPermutation (live bound one) (live bound other) → held bound one ≡ held bound other →
        StandTheSame bound one other }
{}

/// After two histories that stand the same, any later events bring the same faults, and the same
/// reports but for their numbers: to the number that a report has among the later events alone, the
/// count of the events before these is added.
pub fn later_reports_are_the_same()
    ensures faults { (bound : ℕ) (one other later : List Event) → StandTheSame bound one other →
        (added : List Fault)
        × (faults_of bound (later ++ one) ≡ faults_of bound one ++ added)
        × (faults_of bound (later ++ other) ≡ faults_of bound other ++ added) }
    ensures reports { (bound : ℕ) (one other later : List Event) →
        StandTheSame bound (reverse one) (reverse other) →
        (added : List Report)
        × (verdicts bound (one ++ later)
        ≡ verdicts bound one ++ map (later_by (length one)) added)
        × (verdicts bound (other ++ later)
        ≡ verdicts bound other ++ map (later_by (length other)) added) }
{}

/// A snapshot of a history lays out its live and its held blocks, and then come poisons and
/// unpoisons alone. It has the same blocks, live and held, and nothing is wrong in it. It stands
/// the same if each granule has the same shadow byte. A granule has that of itself if the history
/// left in it what its blocks alone leave, and no poison and no unpoison of the snapshot touches
/// it. Where a poison takes in a granule wholly, and none after it touches it, the shadow byte is
/// the code of the poison's kind.
pub fn what_is_in_a_snapshot_stands_the_same()
    ensures live { (bound : ℕ) (snapshot past : List Event) → IsSnapshot bound snapshot past →
        IsPermutation (live bound snapshot) (live bound past) }
    ensures held { (bound : ℕ) (snapshot past : List Event) → IsSnapshot bound snapshot past →
        held bound snapshot ≡ held bound past }
    ensures quiet { (bound : ℕ) (snapshot past : List Event) → IsSnapshot bound snapshot past →
        verdicts_of bound snapshot ≡ [] }
    ensures stands { (bound : ℕ) (snapshot past : List Event)
        (is : IsSnapshot bound snapshot past) →
        ((granule : ℕ) →
        (IsAsLaid bound past granule × NoneShares is.shades granule)
        ⊎ (lift (state_of (marks bound snapshot)) granule
        ≡ lift (state_of (marks bound past)) granule)) →
        StandTheSame bound snapshot past }
    ensures poisoned { (bound : ℕ) (laid later : List Event) (poison : Shade) (granule : ℕ) →
        IsTrue (list_all is_shade later) → NoneShares later granule →
        poison.at ≤ first_byte granule →
        first_byte granule + granule_size ≤ poison.at + shade_size poison →
        lift (state_of (marks bound (later ++ event.Poison poison ∷ laid))) granule
        ≡ code_of_kind (shade_kind poison) }
{}

/// Leaving out loads and stores invents nothing: whichever are left out, the faults of what is left
/// of a history are, in their order, some of those of the history.
pub fn thinning_invents_nothing()
    ensures { (bound : ℕ) (thin full : List Event) → LeavesOut thin full →
        IsSublist (faults_of bound thin) (faults_of bound full) }
{}
