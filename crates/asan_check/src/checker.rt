//! The checker, which keeps the blocks and the shadow of a process and takes in its events.
ghost use Rattle.std.specs.Prelude.{◌≡◌, ℕ, ◌+◌, ◌<◌, ◌≤◌, ◌^◌, ◌↔◌, List, [], ◌∷◌, ◌++◌, IfOk};
ghost use Rattle.std.specs.Prelude.{IsErr, IsTrue, IsSome, OnOk, OnErr, true, false};
ghost use Rattle.std.specs.Prelude.{not, length, take, reverse, None, Some, option_to_list};
ghost use Rattle.std.specs.Prelude.{MatchOption, slice_get};
ghost use Rattle.asan_units.specs.Units.{address_end, largest_quarantine};
ghost use Rattle.trace_record.specs.declared.event.Event.{Event as AnEvent};
ghost use Rattle.trace_record.specs.declared.event.Event.TheVariants as event;
ghost use Rattle.trace_record.specs.declared.event.Place.{Place as APlace};
ghost use Rattle.trace_record.specs.Shades.{shade_size};
ghost use Rattle.shadow_map.specs.Readers.{shadow_of};
ghost use Rattle.shadow_map.specs.States.{is_addressable, state_of, least_unaddressable};
ghost use Rattle.shadow_map.specs.States.{bad_byte_of};
ghost use Rattle.asan_check.specs.History.{marks};
ghost use Rattle.asan_check.specs.Verdicts.{access_fault, malloc_fault, free_fault};
ghost use Rattle.asan_check.specs.Verdicts.{is_access, marks_none};
ghost use Rattle.asan_check.specs.Traces.{since_anew, fault_of, verdict};

use crate::NoMemory;
use crate::codes::{FREED, class_by, poison_code};
use crate::fetched::Fetched;
use crate::report::{Fault, Report};
use asan_units::{GRANULE, REDZONE};
use heap_book::{Admit, Block, Book, Bound, Freed, MAX_FETCHED};
use shadow_map::{HEAP_REDZONE, Shadow, ShadowReader};
use std::alloc::{Allocator, Global};
use thiserror::Error;
use trace_record::{Access, Event, Place, Region, Shade};

/// How many loads and stores are checked before a reader of the shadow is made, which gains nothing
/// for fewer.
const FEW: usize = 2;

/// There was no memory for this event or for an earlier one.
#[derive(Clone, Copy, Debug, PartialEq, Eq, Error)]
#[error("there was no memory to check an event")]
pub struct Failed;

/// Checks the events of one process, one after another, and keeps the reports on the bad ones.
///
/// A bad event doesn't end the check: the next one meets the memory as the events before the bad
/// one left it. Addresses and sizes are in bytes. They are those of the traced process, whose
/// memory is never touched.
#[derive(Drop)]
pub struct Checker<A: Allocator + Copy = Global> {
    /// What each byte of the process is: addressable, or why not.
    shadow: Shadow<A>,
    /// Its live blocks, and those in quarantine.
    book: Book<A>,
    /// The reports on the events so far.
    reports: Vec<Report, A>,
    /// How many events these were.
    checked: u64,
    /// Whether there was no memory for one more. Shadow and book are then not looked at any more.
    failed: bool,
    /// What of the shadow was read ahead.
    fetched: Fetched,
}

impl<A: Allocator + Copy> Checker<A> {
    ghost use Rattle.asan_check.specs.Freeing.{IsFreeing};
    ghost use Rattle.asan_check.specs.Standing.{KeepsTally, ShowsHistory, ShowsTrace, Stands};
    ghost use Rattle.asan_check.specs.Standing.{FailedAt};
    ghost use Rattle.asan_check.specs.Standing.{AreQuiet};
    ghost use Rattle.asan_check.specs.Standing.{has_failed, checked_of, reports_of, bound_of};
    ghost use Rattle.asan_check.specs.Standing.{report_room, StopsForAReason};

    /// A checker that has checked no event, and whose quarantine holds spans of at most `bound`
    /// bytes together. Takes no memory.
    ///
    /// # Errors
    ///
    /// `Bound` exactly if the bound is over 2^40.
    pub fn new(alloc: A, bound: u64) -> Result<Checker<A>, Bound>
        ensures stands { IfOk result (λ checker. Stands bound checker []) }
        ensures refused { IsErr result ↔ (largest_quarantine < bound) }
    {
        let book = Book::new(alloc, bound)?;
        Ok(Checker {
            shadow: Shadow::new(alloc),
            book,
            reports: Vec::new(alloc),
            checked: 0,
            failed: false,
            fetched: Fetched::new(),
        })
    }

    /// Checks the next event, which is one of less than 2^64, and answers the report on it if it is
    /// a bad one. A bad event adds its report to [`reports`](Checker::reports), and changes nothing
    /// else.
    ///
    /// # Errors
    ///
    /// `Failed` where a growth was refused, in this call or in an earlier one. From then on every
    /// step answers `Failed`, and the reports and the count stay as they were before the first
    /// refused event. An event that lays no mark and that nothing is wrong with needs no memory:
    /// such a step fails only after an earlier one. An event that something is wrong with needs
    /// memory only for its report, if there is no room for one more in the memory at hand.
    #[inline]
    pub fn step(&mut self, event: &Event) -> Result<Option<Report>, Failed>
        requires room { checked_of self.old + 1 < 2 ^ 64 }
        ensures checked { IfOk result (λ report. (bound : ℕ) (past : List AnEvent) →
            Stands bound self.old past →
            (report ≡ verdict bound past event.now) × Stands bound self.new (event.now ∷ past)) }
        ensures failed { OnErr result ((bound : ℕ) (past : List AnEvent) →
            Stands bound self.old past →
            FailedAt bound self.new (event.now ∷ past) × (checked_of self.new ≡ length past)) }
        ensures spared { OnErr result ((bound : ℕ) (past : List AnEvent) →
            Stands bound self.old past →
            marks_none event.now ≡ true → IsSome (fault_of bound past event.now)) }
        ensures full { OnErr result ((bound : ℕ) (past : List AnEvent) →
            Stands bound self.old past →
            IsSome (fault_of bound past event.now) →
            report_room self.old ≤ length (reports_of self.old)) }
        ensures count { OnOk result (checked_of self.new ≡ checked_of self.old + 1) }
        ensures kept { OnErr result ((has_failed self.new ≡ true)
            × (checked_of self.new ≡ checked_of self.old)
            × (reports_of self.new ≡ reports_of self.old)) }
        ensures stays { has_failed self.old ≡ true → IsErr result × (self.new ≡ self.old) }
        ensures bound { bound_of self.new ≡ bound_of self.old }
    {
        if self.failed {
            return Err(Failed);
        }
        let before = self.reports.len();
        match self.check(event) {
            Ok(()) => {}
            Err(NoMemory) => {
                self.failed = true;
                return Err(Failed);
            }
        }
        self.checked += 1;
        Ok(self.report_after(before))
    }

    /// The report after so many others, if there is one.
    #[inline]
    fn report_after(&self, before: usize) -> Option<Report>
        ensures { result ≡ slice_get (reports_of self.now) before }
    {
        let report = self.reports.get(before);
        report.copied()
    }

    /// Reads what the checker keeps of the blocks that the events to come free or let go, and the
    /// shadow of the first load or store between two mallocs or frees, so that the processor has it
    /// at hand when they are stepped. Changes nothing.
    #[inline(never)]
    pub fn fetch(&mut self, events: &[Event])
        ensures { self.new ≡ self.old }
    {
        let mut frees = [0; MAX_FETCHED];
        let mut count = 0;
        let mut first = None;
        for event in events {
            match event {
                Event::Load(access) | Event::Store(access) => first = first.or(Some(access.at())),
                Event::Malloc(_) => self.fetch_shadow(first.take()),
                Event::Free(place) => {
                    if count < MAX_FETCHED {
                        frees[count] = place.at();
                        count += 1;
                    }
                    self.fetch_shadow(first.take());
                }
                _ => {}
            }
        }
        self.book.fetch(&frees[..count]);
    }

    /// Reads the shadow byte of an address.
    #[inline]
    fn fetch_shadow(&mut self, at: Option<u64>)
        ensures { self.new ≡ self.old }
    {
        if let Some(at) = at {
            self.fetched.mix(self.shadow.value(at / GRANULE));
        }
    }

    /// Checks the loads and stores without a bad byte that the events begin with, as
    /// [`step`](Checker::step) would, and answers how many they are. Once a step has failed, it
    /// checks none. With those checked before, the events are fewer than 2^64.
    #[inline]
    pub fn pass(&mut self, events: &[Event]) -> usize
        requires room { checked_of self.old + length events.now < 2 ^ 64 }
        ensures most { result ≤ length events.now }
        ensures stands { (bound : ℕ) (past : List AnEvent) → Stands bound self.old past →
            Stands bound self.new (reverse (take result events.now) ++ past) }
        ensures stays { has_failed self.old ≡ true → (result ≡ 0) × (self.new ≡ self.old) }
        ensures count { checked_of self.new ≡ checked_of self.old + result }
        ensures kept { reports_of self.new ≡ reports_of self.old }
        ensures bound { bound_of self.new ≡ bound_of self.old }
        ensures stops { (bound : ℕ) (past : List AnEvent) → Stands bound self.old past →
            StopsForAReason bound past events.now result }
    {
        if begin_with_access(events) {
            self.pass_row(events)
        } else {
            0
        }
    }

    /// How many events it has checked: those that were stepped without `Failed`.
    pub fn checked(&self) -> u64
        ensures { result ≡ checked_of self.now }
    {
        self.checked
    }

    /// The reports on the events that it has checked, in their order.
    pub fn reports(&self) -> &[Report]
        ensures { result.now ≡ reports_of self.now }
    {
        &self.reports
    }

    /// The reports on the events that it has checked, in their order, for the caller to keep. Takes
    /// no memory.
    pub fn into_reports(self) -> Vec<Report, A>
        ensures { result.items ≡ reports_of self }
    {
        self.reports
    }

    /// Whether a load of the byte at `at` would be reported, or `None` once a step has failed. A
    /// byte at 2^47 or past it never is. Takes no memory.
    pub fn is_poisoned(&self, at: u64) -> Option<bool>
        ensures stands { (bound : ℕ) (past : List AnEvent) → Stands bound self.now past →
            result ≡ Some (not (is_addressable (state_of (marks bound (since_anew past)) at))) }
        ensures failed { has_failed self.now ≡ true → result ≡ None }
    {
        Some(self.shadow()?.is_poisoned(at))
    }

    /// The address of the first of `size` bytes from `at` on that is not addressable, if there is
    /// one, or `None` once a step has failed. The bytes end at most at 2^47. Takes no memory.
    pub fn first_poisoned(&self, at: u64, size: u64) -> Option<Option<u64>>
        requires { at + size ≤ address_end }
        ensures stands { (bound : ℕ) (past : List AnEvent) → Stands bound self.now past →
            result ≡ Some (least_unaddressable (state_of (marks bound (since_anew past))) at size) }
        ensures failed { has_failed self.now ≡ true → result ≡ None }
    {
        Some(self.shadow()?.first_poisoned(at, size))
    }

    /// The shadow, or `None` once a step has failed.
    fn shadow(&self) -> Option<&Shadow<A>>
        ensures { MatchOption result (has_failed self.now ≡ true)
            (λ shadow. (has_failed self.now ≡ false) × (shadow.now ≡ self.now.shadow)) }
    {
        if self.failed {
            None
        } else {
            Some(&self.shadow)
        }
    }

    /// Does what [`pass`](Checker::pass) does, whatever the first event is.
    #[inline(never)]
    fn pass_row(&mut self, events: &[Event]) -> usize
        requires room { checked_of self.old + length events.now < 2 ^ 64 }
        ensures most { result ≤ length events.now }
        ensures stands { (bound : ℕ) (past : List AnEvent) → Stands bound self.old past →
            Stands bound self.new (reverse (take result events.now) ++ past) }
        ensures stays { has_failed self.old ≡ true → (result ≡ 0) × (self.new ≡ self.old) }
        ensures count { checked_of self.new ≡ checked_of self.old + result }
        ensures kept { reports_of self.new ≡ reports_of self.old }
        ensures bound { bound_of self.new ≡ bound_of self.old }
        ensures stops { (bound : ℕ) (past : List AnEvent) → Stands bound self.old past →
            StopsForAReason bound past events.now result }
    {
        if self.failed {
            return 0;
        }
        let count = self.count_good(events);
        self.checked += count as u64;
        count
    }

    /// How many loads and stores that aren't bad the events begin with. They change nothing.
    fn count_good(&self, events: &[Event]) -> usize
        ensures most { result ≤ length events.now }
        ensures quiet { AreQuiet self.now events.now result }
        ensures stops { (bound : ℕ) (past : List AnEvent) → ShowsTrace bound self.now past →
            StopsForAReason bound past events.now result }
    {
        let few = events.len().min(FEW);
        let mut count = 0;
        while count < few && self.is_good(&events[count]) {
            count += 1;
        }
        if count < FEW {
            count
        } else {
            self.count_more_good(events, count)
        }
    }

    /// The same, by a reader of the shadow, if so many of the events are known to be such.
    #[inline(never)]
    fn count_more_good(&self, events: &[Event], known: usize) -> usize
        requires within { known ≤ length events.now }
        requires known { AreQuiet self.now events.now known }
        ensures most { result ≤ length events.now }
        ensures quiet { AreQuiet self.now events.now result }
        ensures stops { (bound : ℕ) (past : List AnEvent) → ShowsTrace bound self.now past →
            StopsForAReason bound past events.now result }
    {
        let mut shadow = self.shadow.reader();
        let mut count = known;
        while count < events.len() && self.is_good_access(&mut shadow, &events[count]) {
            count += 1;
        }
        count
    }

    /// Whether an event is a load or a store that isn't bad. Most are, and they change nothing.
    #[inline(always)]
    fn is_good(&self, event: &Event) -> bool
        ensures good { IsTrue result → (bound : ℕ) (past : List AnEvent) →
            ShowsTrace bound self.now past →
            (fault_of bound past event.now ≡ None)
            × ShowsTrace bound self.now (event.now ∷ past) }
        ensures bad { result ≡ false → (bound : ℕ) (past : List AnEvent) →
            ShowsTrace bound self.now past →
            is_access event.now ≡ true → IsSome (fault_of bound past event.now) }
    {
        match event {
            Event::Load(access) | Event::Store(access) => {
                self.shadow.bad_byte(access.at(), access.width()).is_none()
            }
            _ => false,
        }
    }

    /// The same, by a reader of the checker's shadow.
    #[inline(always)]
    fn is_good_access(&self, shadow: &mut ShadowReader<'_, A>, event: &Event) -> bool
        requires reads { shadow_of shadow.old ≡ self.now.shadow }
        ensures still_reads { shadow_of shadow.new ≡ self.now.shadow }
        ensures good { IsTrue result → (bound : ℕ) (past : List AnEvent) →
            ShowsTrace bound self.now past →
            (fault_of bound past event.now ≡ None)
            × ShowsTrace bound self.now (event.now ∷ past) }
        ensures bad { result ≡ false → (bound : ℕ) (past : List AnEvent) →
            ShowsTrace bound self.now past →
            is_access event.now ≡ true → IsSome (fault_of bound past event.now) }
    {
        match event {
            Event::Load(access) | Event::Store(access) => {
                shadow.bad_byte(access.at(), access.width()).is_none()
            }
            _ => false,
        }
    }

    /// Applies an event, and keeps the report on it if it is a bad one.
    #[inline(never)]
    fn check(&mut self, event: &Event) -> Result<(), NoMemory>
        requires room { checked_of self.old + 1 < 2 ^ 64 }
        ensures ok { OnOk result ((bound : ℕ) (past : List AnEvent) → Stands bound self.old past →
            ShowsTrace bound self.new (event.now ∷ past)
            × (reports_of self.new
            ≡ reports_of self.old ++ option_to_list (verdict bound past event.now))) }
        ensures err { OnErr result (reports_of self.new ≡ reports_of self.old) }
        ensures spared { OnErr result ((bound : ℕ) (past : List AnEvent) →
            Stands bound self.old past →
            marks_none event.now ≡ true → IsSome (fault_of bound past event.now)) }
        ensures full { OnErr result ((bound : ℕ) (past : List AnEvent) →
            Stands bound self.old past →
            IsSome (fault_of bound past event.now) →
            report_room self.old ≤ length (reports_of self.old)) }
        ensures others { (checked_of self.new ≡ checked_of self.old)
            × (has_failed self.new ≡ has_failed self.old)
            × (bound_of self.new ≡ bound_of self.old) }
    {
        let Some(fault) = self.apply(event)? else {
            return Ok(());
        };
        let report = Report {
            number: self.checked + 1,
            fault,
        };
        self.reports.push(report)?;
        Ok(())
    }

    /// Applies an event to the blocks and to the shadow, and answers what is wrong with it.
    fn apply(&mut self, event: &Event) -> Result<Option<Fault>, NoMemory>
        ensures ok { IfOk result (λ fault. (bound : ℕ) (past : List AnEvent) →
            ShowsTrace bound self.old past →
            (fault ≡ fault_of bound past event.now)
            × ShowsTrace bound self.new (event.now ∷ past)) }
        ensures spared { OnErr result (marks_none event.now ≡ false) }
        ensures good { OnErr result ((bound : ℕ) (past : List AnEvent) →
            ShowsTrace bound self.old past → fault_of bound past event.now ≡ None) }
        ensures tally { KeepsTally self.old self.new }
    {
        match event {
            Event::Load(access) => Ok(self.access_fault(false, access)),
            Event::Store(access) => Ok(self.access_fault(true, access)),
            Event::Malloc(region) => self.malloc(region),
            Event::Free(place) => self.free(place),
            Event::Poison(shade) => {
                self.poison(shade)?;
                Ok(None)
            }
            Event::Unpoison(region) => {
                self.shadow.unpoison(region.at(), region.size())?;
                Ok(None)
            }
            Event::Anew => {
                self.shadow.clear();
                self.book.clear();
                Ok(None)
            }
        }
    }

    /// What is wrong with a load or a store.
    fn access_fault(&self, store: bool, access: &Access) -> Option<Fault>
        ensures { (bound : ℕ) (past : List AnEvent) → ShowsHistory bound self.now past →
            result ≡ access_fault (state_of (marks bound past)) store access.now }
    {
        let bad = self.shadow.bad_byte(access.at(), access.width())?;
        Some(self.bad_access(store, access, bad))
    }

    /// What is wrong with a load or a store that has this bad byte.
    fn bad_access(&self, store: bool, access: &Access, bad: u64) -> Fault
        ensures { (bound : ℕ) (past : List AnEvent) → ShowsHistory bound self.now past →
            bad_byte_of (state_of (marks bound past)) access.now.at access.now.width ≡ Some bad →
            access_fault (state_of (marks bound past)) store access.now ≡ Some result }
    {
        let cause = self.shadow.cause(access.at());
        Fault::Access {
            store,
            width: access.width(),
            at: access.at(),
            bad,
            class: class_by(cause.deciding),
            shadow: cause.own,
        }
    }

    /// Applies a malloc, and answers what is wrong with it.
    fn malloc(&mut self, region: &Region) -> Result<Option<Fault>, NoMemory>
        ensures ok { IfOk result (λ fault. (bound : ℕ) (past : List AnEvent) →
            ShowsHistory bound self.old past →
            (fault ≡ malloc_fault bound past region.now.at region.now.size)
            × ShowsHistory bound self.new (event.Malloc region.now ∷ past)) }
        ensures spared { OnErr result (0 < region.now.at) }
        ensures good { OnErr result ((bound : ℕ) (past : List AnEvent) →
            ShowsHistory bound self.old past →
            malloc_fault bound past region.now.at region.now.size ≡ None) }
        ensures tally { KeepsTally self.old self.new }
    {
        match self.book.admit(region.at(), region.size())? {
            Admit::Ignored => Ok(None),
            Admit::Admitted(block) => {
                self.shadow.block(block.at(), block.size())?;
                Ok(None)
            }
            Admit::Refused => Ok(Some(Fault::BadMalloc {
                at: region.at(),
                size: region.size(),
            })),
        }
    }

    /// Applies a free, and answers what is wrong with it.
    fn free(&mut self, place: &Place) -> Result<Option<Fault>, NoMemory>
        ensures ok { IfOk result (λ fault. (bound : ℕ) (past : List AnEvent) →
            ShowsHistory bound self.old past →
            (fault ≡ free_fault bound past place.now.at)
            × ShowsHistory bound self.new (event.Free place.now ∷ past)) }
        ensures spared { OnErr result (0 < place.now.at) }
        ensures good { OnErr result ((bound : ℕ) (past : List AnEvent) →
            ShowsHistory bound self.old past → free_fault bound past place.now.at ≡ None) }
        ensures tally { KeepsTally self.old self.new }
    {
        let at = place.at();
        match self.book.free(at)? {
            Freed::Ignored => Ok(None),
            Freed::Held(block) => {
                self.hold(&block)?;
                Ok(None)
            }
            Freed::Twice => Ok(Some(Fault::DoubleFree { at })),
            Freed::Stranger => Ok(Some(Fault::BadFree { at })),
        }
    }

    /// Applies a poison.
    fn poison(&mut self, shade: &Shade) -> Result<(), NoMemory>
        ensures ok { OnOk result ((bound : ℕ) (past : List AnEvent) →
            ShowsHistory bound self.old past →
            ShowsHistory bound self.new (event.Poison shade.now ∷ past)) }
        ensures spared { OnErr result (0 < shade_size shade.now) }
        ensures tally { KeepsTally self.old self.new }
    {
        let code = poison_code(shade.kind());
        self.shadow.poison(shade.at(), shade.size(), code)
    }

    /// Marks the granules of a block that has joined the quarantine as freed, and then releases the
    /// oldest blocks past the quarantine's bound: their whole spans become redzone.
    fn hold(&mut self, block: &Block) -> Result<(), NoMemory>
        ensures ok { OnOk result ((bound : ℕ) (past : List AnEvent) (p : APlace) →
            IsFreeing bound self.old past p block.now →
            ShowsHistory bound self.new (event.Free p ∷ past)) }
        ensures tally { KeepsTally self.old self.new }
    {
        self.shadow.mark(block.at(), block.to() - REDZONE, FREED)?;
        while let Some(oldest) = self.book.evict() {
            self.shadow.mark(oldest.from(), oldest.to(), HEAP_REDZONE)?;
        }
        Ok(())
    }
}

/// Whether the first of some events is a load or a store.
#[inline]
fn begin_with_access(events: &[Event]) -> bool
    ensures { result ≡ false → (first : AnEvent) (others : List AnEvent) →
        events.now ≡ first ∷ others → is_access first ≡ false }
{
    match events.first() {
        Some(event) => is_access(event),
        None => false,
    }
}

/// Whether an event is a load or a store.
#[inline]
fn is_access(event: &Event) -> bool
    ensures { result ≡ is_access event.now }
{
    matches!(event, Event::Load(_) | Event::Store(_))
}
