//! What a recorder states before a bad access or a bad free, in a history of its own, so that the
//! collector finds there what the process has found.

ghost use Rattle.std.specs.Prelude.{◌≡◌, ◌+◌, ◌≤◌, ◌<◌, ℕ, Bool, true, false, List, [], IfSome};
ghost use Rattle.std.specs.Prelude.{IsTrue, Some};
ghost use Rattle.trace_record.specs.declared.event.Access.{Access};
ghost use Rattle.trace_record.specs.declared.event.Place.{Place as APlace};
ghost use Rattle.trace_record.specs.declared.event.Event.TheVariants as event;
ghost use Rattle.trace_record.specs.Kinds.{kind_number};
ghost use Rattle.trace_record.specs.Shades.{shade_size, shade_kind};
ghost use Rattle.shadow_map.specs.Granules.{front_of};
ghost use Rattle.asan_units.specs.Units.{granule_count, granule_of, first_byte};
ghost use Rattle.heap_book.specs.Spans.{IsPlaced};
ghost use Rattle.asan_check.specs.History.{block_of};
ghost use Rattle.asan_check.specs.Verdicts.{fault_of, verdicts_of};
ghost use Rattle.asan_laws.specs.Laws.{access_event};
ghost use Rattle.asan_laws.specs.Runs.{Step, fault_in};
ghost use Rattle.asan_laws.specs.Traces.{IsOneHistory};
ghost use Rattle.asan_plan.specs.Saying.{as_recorded, is_of_heap, kind_of_byte, left_by};
ghost use Rattle.asan_plan.specs.Saying.{Fits, FitsIfFound, IsSeen, IsFoundFreed, said_events};
ghost use Rattle.asan_plan.specs.Saying.{least_bound, HasLeft, IsStatedOf, IsFit, BringsThere};

use asan_shades::left_byte;
use asan_units::{ADDRESS_END, GRANULE, REDZONE, round_up};
use trace_record::{Kind, Place, Region, Shade};

/// The shadow byte of a redzone of a block.
const HEAP_REDZONE: u8 = 0xfa;
/// That of freed memory.
const FREED: u8 = 0xfd;
/// That of what a user has poisoned.
const USER_POISON: u8 = 0xf7;
/// Those of redzones on the stack and beside globals.
const STACK_REDZONE: u8 = 0xf2;

const GLOBAL_REDZONE: u8 = 0xf9;

/// A block that was found, and whether it was freed: then the process holds it still.
#[derive(Clone, Copy)]
pub struct Around {
    pub region: Region,
    pub is_held: bool,
}

/// What is stated of a block.
#[derive(Clone, Copy)]
pub enum Stated {
    Nothing,
    /// A malloc of it.
    Live(Region),
    /// A malloc of it, and a free.
    Held(Region, Place),
}

/// What is stated of bytes.
#[derive(Clone, Copy)]
pub enum Shading {
    Nothing,
    Poison(Shade),
    Unpoison(Region),
}

/// What is stated: first of a block, and then of bytes.
#[derive(Clone, Copy)]
pub struct Said {
    pub block: Stated,
    pub shading: Shading,
}

/// A shadow byte as the collector has it.
fn recorded(shadow: u8) -> u8
    ensures { result ≡ as_recorded shadow }
{
    match shadow {
        0..8 | HEAP_REDZONE | FREED | STACK_REDZONE | GLOBAL_REDZONE => shadow,
        _ => USER_POISON,
    }
}

/// The number of the kind of poison that a shadow byte is of.
fn kind_of(shadow: u8) -> u8
    ensures { result ≡ kind_number (kind_of_byte shadow) }
{
    match shadow {
        STACK_REDZONE => 1,
        GLOBAL_REDZONE => 2,
        _ => 0,
    }
}

/// How many first bytes of a granule are addressable, by its shadow byte.
fn front(shadow: u8) -> u8
    ensures { result ≡ front_of shadow }
{
    match shadow {
        0 => 8,
        1..8 => shadow,
        _ => 0,
    }
}

/// Whether a block has room for its redzones, and starts at a granule.
fn is_placed(region: &Region) -> bool
    ensures placed { result ≡ true → IsPlaced (block_of region.now) }
    ensures all { IsPlaced (block_of region.now) → result ≡ true }
{
    let at = region.at();
    at.is_multiple_of(GRANULE)
        && at >= REDZONE
        && at + round_up(region.size()) + REDZONE <= ADDRESS_END
}

/// Whether a block has left this byte in a granule.
fn has_left(found: &Around, granule: u64, shadow: u8) -> bool
    requires { granule < granule_count }
    ensures placed { result ≡ true → IsPlaced (block_of found.now.region) }
    ensures left { result ≡ true →
        left_by (block_of found.now.region) found.now.is_held granule ≡ shadow }
    ensures all { HasLeft found.now granule shadow → result ≡ true }
{
    let region = &found.region;
    is_placed(region) && left_byte(region.at(), region.size(), found.is_held, 0, granule) == shadow
}

/// A block that leaves this byte in a granule: it lies there, or has no bytes and its first redzone
/// there.
fn made_up(granule: u64, shadow: u8) -> Around
    requires low { 4 ≤ granule }
    requires high { granule + 9 ≤ granule_count }
    requires heap { is_of_heap shadow ≡ true }
    ensures placed { IsPlaced (block_of result.region) }
    ensures left { left_by (block_of result.region) result.is_held granule ≡ shadow }
    ensures fits { (bound : ℕ) → least_bound ≤ bound → Fits bound result }
{
    let at = granule * GRANULE;
    if shadow == FREED {
        Around {
            region: Region::new(at, GRANULE).unwrap(),
            is_held: true,
        }
    } else {
        Around {
            region: Region::new(at + REDZONE, 0).unwrap(),
            is_held: false,
        }
    }
}

/// The block that was found, if it has left this byte in a granule, or one that is made up.
fn block_with(granule: u64, shadow: u8, found: Option<Around>) -> Around
    requires low { 4 ≤ granule }
    requires high { granule + 9 ≤ granule_count }
    requires heap { is_of_heap shadow ≡ true }
    ensures placed { IsPlaced (block_of result.region) }
    ensures left { left_by (block_of result.region) result.is_held granule ≡ shadow }
    ensures fits { (bound : ℕ) → least_bound ≤ bound → FitsIfFound bound found →
        Fits bound result }
    ensures own { (b : Around) → found ≡ Some b → HasLeft b granule shadow → result ≡ b }
{
    match found {
        Some(found) => {
            if has_left(&found, granule, shadow) {
                found
            } else {
                made_up(granule, shadow)
            }
        }
        None => made_up(granule, shadow),
    }
}

/// What states a block.
fn state(found: &Around) -> Stated
    requires { IsPlaced (block_of found.now.region) }
    ensures { IsStatedOf found.now result }
{
    if found.is_held {
        Stated::Held(found.region, Place::new(found.region.at()).unwrap())
    } else {
        Stated::Live(found.region)
    }
}

/// What makes as many of a granule's first bytes addressable.
fn fit(granule: u64, had: u8, has: u8) -> Shading
    requires granule { granule + 2 ≤ granule_count }
    requires most { has ≤ 8 }
    requires had { had ≤ 8 }
    ensures { IsFit granule had has result }
{
    let at = granule * GRANULE;
    if has < had {
        let size = GRANULE - u64::from(has);
        Shading::Poison(Shade::new(at + u64::from(has), size, 0).unwrap())
    } else if had < has {
        Shading::Unpoison(Region::new(at, u64::from(has)).unwrap())
    } else {
        Shading::Nothing
    }
}

/// Poison from a place of a granule on, up to another granule, of the kind of this shadow byte.
fn poison(granule: u64, from: u8, to: u64, shadow: u8) -> Shade
    requires granule { granule + 2 ≤ granule_count }
    requires order { first_byte granule + from ≤ first_byte to }
    requires to { to ≤ granule + 2 }
    ensures at { result.at ≡ first_byte granule + from }
    ensures end { result.at + shade_size result ≡ first_byte to }
    ensures kind { shade_kind result ≡ kind_of_byte shadow }
{
    let at = granule * GRANULE + u64::from(from);
    Shade::new(at, to * GRANULE - at, kind_of(shadow)).unwrap()
}

/// Whether a shadow byte comes from a block.
fn is_of_heap(shadow: u8) -> bool
    ensures { result ≡ is_of_heap shadow }
{
    shadow == HEAP_REDZONE || shadow == FREED
}

/// States a granule without an addressable byte.
fn say_here(granule: u64, here: u8, found: Option<Around>) -> Said
    requires low { 4 ≤ granule }
    requires high { granule + 9 ≤ granule_count }
    requires recorded { as_recorded here ≡ here }
    requires none { front_of here ≡ 0 }
    ensures brings { (bound : ℕ) → least_bound ≤ bound → FitsIfFound bound found → (next : ℕ) →
        BringsThere bound granule here next (said_events result) }
    ensures own { (b : Around) → found ≡ Some b → IsTrue (is_of_heap here) →
        HasLeft b granule here → IsStatedOf b result.block }
{
    if is_of_heap(here) {
        Said {
            block: state(&block_with(granule, here, found)),
            shading: Shading::Nothing,
        }
    } else {
        Said {
            block: Stated::Nothing,
            shading: Shading::Poison(poison(granule, 0, granule + 1, here)),
        }
    }
}

/// States a granule with addressable bytes and the next one, which a block has left.
fn say_by_block(granule: u64, here: u8, next: u8, found: Option<Around>) -> Said
    requires low { 4 ≤ granule }
    requires high { granule + 10 ≤ granule_count }
    requires some { 0 < front_of here }
    requires heap { is_of_heap next ≡ true }
    ensures brings { (bound : ℕ) → least_bound ≤ bound → FitsIfFound bound found →
        BringsThere bound granule here next (said_events result) }
    ensures own { (b : Around) → found ≡ Some b → HasLeft b (granule + 1) next →
        IsStatedOf b result.block }
{
    let block = block_with(granule + 1, next, found);
    let region = &block.region;
    let had = left_byte(region.at(), region.size(), block.is_held, 0, granule);
    Said {
        block: state(&block),
        shading: fit(granule, front(had), front(here)),
    }
}

/// The same, where no block has left the next one.
fn say_by_poison(granule: u64, here: u8, next: u8) -> Said
    requires high { granule + 2 ≤ granule_count }
    requires some { 0 < front_of here }
    requires recorded { as_recorded next ≡ next }
    requires other { is_of_heap next ≡ false }
    ensures { (bound : ℕ) → BringsThere bound granule here next (said_events result) }
{
    let to = if front(next) > 0 {
        granule + 1
    } else {
        granule + 2
    };
    Said {
        block: Stated::Nothing,
        shading: Shading::Poison(poison(granule, front(here), to, next)),
    }
}

/// What has to be stated before a bad access, so that it finds in a history of its own what it
/// finds in the run: by the shadow bytes of the granule of its first byte and of the next one, and
/// by the block that was found there, if there was one. A block that has not left the byte that
/// says the class is passed over: another one is made up. So the statement is right whatever was
/// found.
pub fn say_access(granule: u64, here: u8, next: u8, found: Option<Around>) -> Said
    requires low { 4 ≤ granule }
    requires high { granule + 10 ≤ granule_count }
    ensures brings { (bound : ℕ) → least_bound ≤ bound → FitsIfFound bound found →
        BringsThere bound granule (as_recorded here) (as_recorded next) (said_events result) }
    ensures access { (bound : ℕ) (run : List Step) (is_store : Bool) (access : Access) →
        least_bound ≤ bound → FitsIfFound bound found → granule_of access.at ≡ granule →
        IsSeen run granule (as_recorded here) (as_recorded next) →
        fault_of bound (said_events result) (access_event is_store access)
        ≡ fault_in run (access_event is_store access) }
    ensures own { (b : Around) → found ≡ Some b → front_of here ≡ 0 →
        IsTrue (is_of_heap here) → HasLeft b granule here → IsStatedOf b result.block }
    ensures own_next { (b : Around) → found ≡ Some b → 0 < front_of here →
        IsTrue (is_of_heap next) → HasLeft b (granule + 1) next → IsStatedOf b result.block }
{
    let here = recorded(here);
    let next = recorded(next);
    if front(here) == 0 {
        say_here(granule, here, found)
    } else if is_of_heap(next) {
        say_by_block(granule, here, next, found)
    } else {
        say_by_poison(granule, here, next)
    }
}

/// What has to be stated before a bad free: of the block that starts there and that the process has
/// freed, if there is one.
pub fn say_free(found: Option<Around>) -> Said
    requires { IfSome found (λ b. IsPlaced (block_of b.region)) }
    ensures quiet { (bound : ℕ) → FitsIfFound bound found →
        IsOneHistory (said_events result) × (verdicts_of bound (said_events result) ≡ []) }
    ensures free { (bound : ℕ) (run : List Step) (place : APlace) → FitsIfFound bound found →
        IsFoundFreed run place.at found →
        fault_of bound (said_events result) (event.Free place)
        ≡ fault_in run (event.Free place) }
{
    Said {
        block: match found {
            Some(found) => state(&found),
            None => Stated::Nothing,
        },
        shading: Shading::Nothing,
    }
}
