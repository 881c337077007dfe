//! The rules of the seven events, plain and slow: the list of events is kept, and each answer is
//! worked out from those that came since the last `Anew`.
use asan_check::{Class, Fault, NoMemory, Report};
use std::alloc::Global;
use trace_record::{Access, Event, Kind};

/// How many bytes a redzone has.
const REDZONE: u64 = 32;

/// The first address past those of a process.
const ADDRESS_END: u64 = 1 << 47;

/// What a byte is.
#[derive(Clone, Copy, PartialEq, Eq)]
pub enum State {
    Addressable,
    HeapRedzone,
    Freed,
    UserPoison,
    StackRedzone,
    GlobalRedzone,
}

/// A block that was admitted.
#[derive(Clone, Copy, PartialEq, Eq)]
struct Block {
    at: u64,
    size: u64,
    /// The place of its malloc among the events.
    place: usize,
}

/// What an event does to bytes.
#[derive(Clone, Copy)]
pub enum Mark {
    Fill { from: u64, to: u64, state: State },
    Block { at: u64, size: u64 },
    Poison { at: u64, end: u64, state: State },
    Unpoison { at: u64, end: u64 },
}

/// The events of a process so far, oldest first, and the bound on its quarantine.
#[derive(Drop)]
pub struct Model {
    pub alloc: Global,
    pub bound: u64,
    pub events: Vec<Event>,
}

/// Whether an address is from one up to another.
fn lies_in(from: u64, to: u64, at: u64) -> bool {
    from <= at && at < to
}

/// A size rounded up to whole granules.
fn round_up(size: u64) -> u64 {
    size.saturating_add(7) / 8 * 8
}

/// The address of the first byte of a block's span.
fn span_from(at: u64) -> u64 {
    at.saturating_sub(REDZONE)
}

/// The first address past a block's span.
fn span_to(at: u64, size: u64) -> u64 {
    at.saturating_add(round_up(size)).saturating_add(REDZONE)
}

impl Block {
    fn meets(&self, other: &Block) -> bool {
        span_from(self.at) < span_to(other.at, other.size)
            && span_from(other.at) < span_to(self.at, self.size)
    }

    /// How many bytes its span has.
    fn span_bytes(&self) -> u64 {
        round_up(self.size).saturating_add(2 * REDZONE)
    }

    /// The mark that makes its span a redzone.
    fn released(&self) -> Mark {
        Mark::Fill {
            from: span_from(self.at),
            to: span_to(self.at, self.size),
            state: State::HeapRedzone,
        }
    }

    /// The mark that makes its bytes freed memory, and with them those that round its size up.
    fn freed(&self) -> Mark {
        Mark::Fill {
            from: self.at,
            to: self.at.saturating_add(round_up(self.size)),
            state: State::Freed,
        }
    }
}

/// Whether an event is a free at an address.
fn is_free_at(event: &Event, at: u64) -> bool {
    matches!(event, Event::Free(place) if place.at() == at)
}

/// The place of the first free of a block after its malloc.
fn first_free(past: &[Event], block: &Block) -> Option<usize> {
    for (place, event) in past.iter().enumerate() {
        if place > block.place && is_free_at(event, block.at) {
            return Some(place);
        }
    }
    None
}

/// The events after the last `Anew`.
fn since_anew(events: &[Event]) -> &[Event] {
    let mut since = events;
    for (place, event) in events.iter().enumerate() {
        if matches!(event, Event::Anew) {
            since = events.get(place.saturating_add(1)..).unwrap_or_default();
        }
    }
    since
}

impl Model {
    /// Of the admitted blocks, those that were live after some events.
    fn live(&self, past: &[Event], admitted: &[Block]) -> Result<Vec<Block>, NoMemory> {
        let mut live = Vec::new(self.alloc);
        for block in admitted {
            if block.place < past.len() && first_free(past, block).is_none() {
                live.push(*block)?;
            }
        }
        Ok(live)
    }

    /// Of the admitted blocks, those that were freed in some events, in the order of their first
    /// frees.
    fn freed(&self, past: &[Event], admitted: &[Block]) -> Result<Vec<Block>, NoMemory> {
        let mut freed = Vec::new(self.alloc);
        for (place, event) in past.iter().enumerate() {
            for block in admitted {
                if is_free_at(event, block.at) && first_free(past, block) == Some(place) {
                    freed.push(*block)?;
                }
            }
        }
        Ok(freed)
    }

    /// Of the admitted blocks, those that were held after some events: their spans, with those of
    /// all that were freed later, are within the bound.
    fn held(&self, past: &[Event], admitted: &[Block]) -> Result<Vec<Block>, NoMemory> {
        let freed = self.freed(past, admitted)?;
        let mut held = Vec::new(self.alloc);
        for (place, block) in freed.iter().enumerate() {
            let mut bytes = 0u64;
            for later in freed.iter().skip(place) {
                bytes = bytes.saturating_add(later.span_bytes());
            }
            if bytes <= self.bound {
                held.push(*block)?;
            }
        }
        Ok(held)
    }

    /// Whether a block is admitted after some events.
    fn admits(&self, past: &[Event], admitted: &[Block], block: &Block) -> Result<bool, NoMemory> {
        let live = self.live(past, admitted)?;
        let held = self.held(past, admitted)?;
        Ok(
            block.at % 8 == 0
                && block.at >= REDZONE
                && span_to(block.at, block.size) <= ADDRESS_END
                && !live.iter().any(|other| block.meets(other))
                && !held.iter().any(|other| block.meets(other)),
        )
    }

    /// The blocks that were admitted in some events, oldest first.
    fn admitted(&self, past: &[Event]) -> Result<Vec<Block>, NoMemory> {
        let mut admitted = Vec::new(self.alloc);
        for (place, event) in past.iter().enumerate() {
            if let Event::Malloc(region) = event {
                let block = Block {
                    at: region.at(),
                    size: region.size(),
                    place,
                };
                let before = past.get(..place).unwrap_or_default();
                if self.admits(before, &admitted, &block)? {
                    admitted.push(block)?;
                }
            }
        }
        Ok(admitted)
    }

    /// The marks of the events, oldest first.
    pub fn marks(&self) -> Result<Vec<Mark>, NoMemory> {
        let past = since_anew(&self.events);
        let admitted = self.admitted(past)?;
        let mut marks = Vec::new(self.alloc);
        for (place, event) in past.iter().enumerate() {
            match event {
                Event::Load(_) | Event::Store(_) | Event::Anew => {}
                Event::Malloc(region) => {
                    if admitted.iter().any(|block| block.place == place) {
                        marks.push(Mark::Block {
                            at: region.at(),
                            size: region.size(),
                        })?;
                    }
                }
                Event::Free(free) => {
                    self.mark_free(past, place, free.at(), &admitted, &mut marks)?
                }
                Event::Poison(shade) => marks.push(Mark::Poison {
                    at: shade.at(),
                    end: shade.at().saturating_add(shade.size()),
                    state: match shade.kind() {
                        Kind::User => State::UserPoison,
                        Kind::Stack => State::StackRedzone,
                        Kind::Global => State::GlobalRedzone,
                    },
                })?,
                Event::Unpoison(region) => marks.push(Mark::Unpoison {
                    at: region.at(),
                    end: region.at().saturating_add(region.size()),
                })?,
            }
        }
        Ok(marks)
    }

    /// The marks of the free at a place of some events: the freed bytes, and then the span of each
    /// block that is no longer held.
    fn mark_free(
        &self,
        past: &[Event],
        place: usize,
        at: u64,
        admitted: &[Block],
        marks: &mut Vec<Mark>,
    ) -> Result<(), NoMemory> {
        let before = past.get(..place).unwrap_or_default();
        let after = past.get(..=place).unwrap_or_default();
        let live = self.live(before, admitted)?;
        let Some(freed) = live.iter().find(|block| block.at == at) else {
            return Ok(());
        };
        marks.push(freed.freed())?;
        let held = self.held(after, admitted)?;
        for block in &self.held(before, admitted)? {
            if !held.contains(block) {
                marks.push(block.released())?;
            }
        }
        if !held.contains(freed) {
            marks.push(freed.released())?;
        }
        Ok(())
    }

    /// What is wrong with an event after those so far.
    fn fault(&self, event: &Event) -> Result<Option<Fault>, NoMemory> {
        let past = since_anew(&self.events);
        match event {
            Event::Load(access) => Ok(access_fault(&self.marks()?, false, access)),
            Event::Store(access) => Ok(access_fault(&self.marks()?, true, access)),
            Event::Malloc(region) => {
                let (at, size) = (region.at(), region.size());
                let place = past.len();
                let block = Block { at, size, place };
                if at == 0 || self.admits(past, &self.admitted(past)?, &block)? {
                    return Ok(None);
                }
                Ok(Some(Fault::BadMalloc { at, size }))
            }
            Event::Free(free) => {
                let at = free.at();
                let admitted = self.admitted(past)?;
                let live = self.live(past, &admitted)?;
                if at == 0 || live.iter().any(|block| block.at == at) {
                    return Ok(None);
                }
                let held = self.held(past, &admitted)?;
                if held.iter().any(|block| block.at == at) {
                    return Ok(Some(Fault::DoubleFree { at }));
                }
                Ok(Some(Fault::BadFree { at }))
            }
            Event::Poison(_) | Event::Unpoison(_) | Event::Anew => Ok(None),
        }
    }

    /// The verdict on the next event, which then joins the others.
    pub fn step(&mut self, event: Event) -> Result<Option<Report>, NoMemory> {
        let fault = self.fault(&event)?;
        self.events.push(event)?;
        let number = self.events.len() as u64;
        Ok(fault.map(|fault| Report { number, fault }))
    }
}

/// The states of the eight bytes from an address on, after some marks: what the last mark that
/// covers each gives to it.
fn granule_states(marks: &[Mark], first: u64) -> [State; 8] {
    let mut states = [State::Addressable; 8];
    for mark in marks {
        let before = states;
        for (place, state) in states.iter_mut().enumerate() {
            *state = given(mark, &before, first, place).unwrap_or(*state);
        }
    }
    states
}

/// What a mark gives to a byte, by its place in the granule whose first address and whose states
/// before the mark are these, or `None` where it doesn't cover it.
fn given(mark: &Mark, before: &[State; 8], first: u64, place: usize) -> Option<State> {
    let address = |place: usize| first.saturating_add(place as u64);
    let byte = address(place);
    match *mark {
        Mark::Fill { from, to, state } => lies_in(from, to, byte).then_some(state),
        Mark::Block { at, size } => {
            if lies_in(at, at.saturating_add(size), byte) {
                Some(State::Addressable)
            } else if lies_in(span_from(at), span_to(at, size), byte) {
                Some(State::HeapRedzone)
            } else {
                None
            }
        }
        Mark::Poison {
            at,
            end,
            state: poison,
        } => {
            let is_whole = at <= first && address(8) <= end;
            let is_addressable = before.get(place) == Some(&State::Addressable);
            let none_past_it = before.iter().enumerate().all(|(other, state)| address(other) < end
                || *state != State::Addressable);
            let covers = is_whole || lies_in(at, end, byte) && is_addressable && none_past_it;
            covers.then_some(poison)
        }
        Mark::Unpoison { at, end } => (place..8)
            .any(|later| lies_in(at, end, address(later)))
            .then_some(State::Addressable),
    }
}

/// The state of a byte after some marks.
pub fn state_of(marks: &[Mark], at: u64) -> State {
    let states = granule_states(marks, at / 8 * 8);
    states[(at % 8) as usize]
}

/// The shadow byte of a granule's states.
fn shadow_byte(states: &[State; 8]) -> u8 {
    let front = states
        .iter()
        .take_while(|state| **state == State::Addressable)
        .count();
    match (front, states[0]) {
        (8, _) => 0,
        (0, State::HeapRedzone) => 0xfa,
        (0, State::Freed) => 0xfd,
        (0, State::UserPoison) => 0xf7,
        (0, State::StackRedzone) => 0xf2,
        (0, State::GlobalRedzone) => 0xf9,
        _ => front as u8,
    }
}

/// What is wrong with a load or a store after some marks.
fn access_fault(marks: &[Mark], store: bool, access: &Access) -> Option<Fault> {
    let (at, width) = (access.at(), access.width());
    let granule = at / 8;
    let end = at.saturating_add(width as u64);
    let bad = (at..end).find(|byte| {
        byte / 8 == granule && state_of(marks, *byte) != State::Addressable
    })?;
    let states = granule_states(marks, granule * 8);
    let deciding = if states.contains(&State::Addressable) {
        granule + 1
    } else {
        granule
    };
    Some(Fault::Access {
        store,
        width,
        at,
        bad,
        class: match state_of(marks, deciding.saturating_mul(8)) {
            State::Addressable => Class::UnknownCrash,
            State::HeapRedzone => Class::HeapBufferOverflow,
            State::Freed => Class::HeapUseAfterFree,
            State::UserPoison => Class::UseAfterPoison,
            State::StackRedzone => Class::StackBufferOverflow,
            State::GlobalRedzone => Class::GlobalBufferOverflow,
        },
        shadow: shadow_byte(&states),
    })
}
