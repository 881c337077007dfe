//! Laws of the format. Each is a function that does nothing: its contract is the law.

ghost use Rattle.std.specs.Prelude.{◌≡◌, ◌≢◌, ◌+◌, ◌*◌, ◌<◌, ◌≤◌, ◌++◌};
ghost use Rattle.std.specs.Prelude.{ℕ, IsTrue, List, Option, Some, Result, length, take};
ghost use Rattle.trace_record.specs.declared.event.Event.{Event};
ghost use Rattle.trace_record.specs.declared.event.Event.TheVariants as event;
ghost use Rattle.trace_record.specs.declared.end.End.{End};
ghost use Rattle.trace_record.specs.declared.end.Fate.{Fate};
ghost use Rattle.trace_record.specs.declared.end.Fate.TheVariants as fate;
ghost use Rattle.trace_record.specs.declared.end.Flaw.{Flaw};
ghost use Rattle.trace_record.specs.declared.decoder.Out.{Out};
ghost use Rattle.trace_record.specs.declared.decoder.Out.TheVariants as out;
ghost use Rattle.trace_record.specs.declared.version.Version.{Version};
ghost use Rattle.trace_record.specs.declared.version.Version.TheVariants as version;
ghost use Rattle.trace_record.specs.Standing.{Standing, Answers};
ghost use Rattle.trace_record.specs.Spelling.{header, spelling, spellings, spells_in, AllSpellIn};
ghost use Rattle.trace_record.specs.Stream.{IsDecided, IsDecidedFate, IsOpen, Spells, version_of};
ghost use Rattle.trace_record.specs.Reading.{AreBytes, IsWholeRecord, Reads, Says};

/// Version 3 has a spelling for every event, and version 2 for every one but `Anew`.
pub fn every_event_spells_in_version_3()
    ensures all { (e : Event) → IsTrue (spells_in version.Three e) }
    ensures version_2 { (e : Event) → e ≢ event.Anew → IsTrue (spells_in version.Two e) }
{}

/// In a version that both events spell in, no event's spelling begins another's: the event that
/// bytes begin with is known from them, and where it ends.
pub fn spellings_are_prefix_free()
    ensures { (v : Version) (e f : Event) (x y : List ℕ) →
        IsTrue (spells_in v e) → IsTrue (spells_in v f) →
        spelling v e ++ x ≡ spelling v f ++ y → (e ≡ f) × (x ≡ y) }
{}

/// A whole record is the spelling of one event, or it has one first flaw.
pub fn whole_records_say_one_thing()
    ensures something { (v : Version) (part : List ℕ) → IsWholeRecord v part →
        (said : Result Event Flaw) × Says v part said }
    ensures one_thing { (v : Version) (part : List ℕ) (said other : Result Event Flaw) →
        Says v part said → Says v part other → said ≡ other }
{}

/// Every text has one reading under a limit: it is open, with one list of events, or it is decided,
/// with one list of events and one fate, and never both.
pub fn texts_have_one_reading()
    ensures some { (limit : ℕ) (text : List ℕ) → AreBytes text →
        (events : List Event) × (decided : Option Fate) × Reads limit text events decided }
    ensures one { (limit : ℕ) (text : List ℕ)
        (events others : List Event) (decided other : Option Fate) →
        Reads limit text events decided → Reads limit text others other →
        (events ≡ others) × (decided ≡ other) }
{}

/// An open text is no longer than the header and the longest records that the limit allows: those
/// of a malloc in version 1, and those of a poison from version 2 on. So one byte more decides
/// every text.
pub fn open_texts_are_short()
    ensures short { (limit : ℕ) (text : List ℕ) (events : List Event) →
        IsOpen limit text events → length text ≤ 18 * limit + 8 }
    ensures short_in_version_1 { (limit : ℕ) (text : List ℕ) (events : List Event) →
        version_of text ≡ Some version.One →
        IsOpen limit text events → length text ≤ 17 * limit + 8 }
    ensures decided { (limit : ℕ) (text : List ℕ) → AreBytes text →
        18 * limit + 8 < length text →
        (events : List Event) × (decided : Fate) × IsDecided limit text events decided }
{}

/// What is decided for a text is decided, with the same events and fate, whatever follows it.
pub fn decisions_stand()
    ensures decided { (limit : ℕ) (text more : List ℕ) (events : List Event) (decided : Fate) →
        IsDecided limit text events decided → IsDecided limit (text ++ more) events decided }
    ensures end { (limit : ℕ) (text more : List ℕ) (events : List Event) (end : End) →
        Spells limit text events end → IsDecidedFate end.fate →
        Spells limit (text ++ more) events end }
{}

/// The events of a text are the first events of each text that begins with it.
pub fn events_stand()
    ensures { (limit : ℕ) (text more : List ℕ)
        (events longer : List Event) (decided other : Option Fate) →
        Reads limit text events decided → Reads limit (text ++ more) longer other →
        (later : List Event) × (longer ≡ events ++ later) }
{}

/// A text spells one end, of one list of events, where no read failed.
pub fn texts_spell_one_end()
    ensures { (limit : ℕ) (text : List ℕ) (events others : List Event) (end other : End) →
        Spells limit text events end → Spells limit text others other →
        end.fate ≢ fate.ReadFailed → other.fate ≢ fate.ReadFailed →
        (events ≡ others) × (end ≡ other) }
{}

/// A decoder that stands after the header of a version and whole records, fewer than its limit,
/// answers to an event's bytes in that version with this event, and uses all of them.
pub fn encoded_events_are_read()
    ensures { (v : Version) (new : Standing) (events : List Event) (event : Event)
        (used : ℕ) (answer : Out) → AllSpellIn v events → IsTrue (spells_in v event) →
        length events < new.limit → used ≤ length (spelling v event) →
        (answer ≡ out.Need → used ≡ length (spelling v event)) →
        Answers new ((header v ++ spellings v events) ++ take used (spelling v event)) events answer
        → (answer ≡ out.Got event) × (used ≡ length (spelling v event)) }
{}
