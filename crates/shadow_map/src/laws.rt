//! Laws of the definitions that the contracts of this crate cite. The functions do nothing: each is
//! there for its contract.
ghost use Rattle.shadow_map.specs.Laws.{AddressableBytesLead, AllPastTheEndIsAddressable};
ghost use Rattle.shadow_map.specs.Laws.{BadByteOfAnAccess, FirstUnaddressableOfARegion};
ghost use Rattle.shadow_map.specs.Laws.{PoisonOfAGranule, ShadowByteOfAGranule};
ghost use Rattle.shadow_map.specs.Laws.{ShadowCheckFindsTheBadByte, UnpoisonOfAGranule};

/// In every granule the addressable bytes come first.
pub fn addressable_bytes_lead()
    ensures { AddressableBytesLead }
{}

/// A shadow byte is 0 exactly where all bytes of its granule are addressable, k from 1 to 7 exactly
/// where the first k are and no others, and negative as a signed number exactly where none is; then
/// it is the code of the first byte's state.
pub fn shadow_byte_of_a_granule()
    ensures { ShadowByteOfAGranule }
{}

/// The first unaddressable byte of a region is what its name says: all bytes of the region before
/// it are addressable, and it is not.
pub fn first_unaddressable_of_a_region()
    ensures { FirstUnaddressableOfARegion }
{}

/// The bad byte of an access is the first of its bytes in the granule of its first byte that is not
/// addressable.
pub fn bad_byte_of_an_access()
    ensures { BadByteOfAnAccess }
{}

/// The check of an access by one shadow byte reports it exactly where it has a bad byte.
pub fn shadow_check_finds_the_bad_byte()
    ensures { ShadowCheckFindsTheBadByte }
{}

/// Every byte at 2^47 or past it is addressable.
pub fn all_past_the_end_is_addressable()
    ensures { AllPastTheEndIsAddressable }
{}

/// What a poison makes of a granule. Of a part from its byte `from` up to its byte `to`: a whole
/// granule gets the poison's code; else, where the part takes in the last addressable byte, the
/// bytes before `from` stay addressable and no others, and if none of those is, the
/// granule gets the code too; else nothing changes.
pub fn poison_of_a_granule()
    ensures { PoisonOfAGranule }
{}

/// What an unpoison makes of a granule: all bytes before the end of the part become addressable.
pub fn unpoison_of_a_granule()
    ensures { UnpoisonOfAGranule }
{}
