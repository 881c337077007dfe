//! The pieces that a line is made of.
ghost use Rattle.std.specs.Prelude.{◌≡◌, ◌≤◌, ◌++◌, decimal, length};
ghost use Rattle.asan_check.specs.Appending.{AppendsPiece};
ghost use Rattle.asan_check.specs.Lines.{address_text, class_text, flaw_text, kind_text};
ghost use Rattle.asan_check.specs.Lines.{shadow_text};

use super::hex::push_hex;
use crate::{Class, NoMemory};
use itoa::Buffer;
use std::alloc::Allocator;
use trace_record::Flaw;

/// The digits of an address; one of 2^48 or more has more.
const ADDRESS_DIGITS: usize = 12;

/// The digits of a shadow byte.
const SHADOW_DIGITS: usize = 2;

/// Appends a label, and then a word.
pub fn push_words<A: Allocator>(
    label: &str,
    word: &str,
    text: &mut String<A>,
) -> Result<(), NoMemory>
    ensures { AppendsPiece (label.now ++ word.now) text.old text.new result }
{
    text.push_str(label)?;
    text.push_str(word)
}

/// Appends a label, and then a number in decimal digits.
pub fn push_number<A: Allocator>(
    label: &str,
    number: u64,
    text: &mut String<A>,
) -> Result<(), NoMemory>
    ensures appends { AppendsPiece (label.now ++ decimal number) text.old text.new result }
    ensures short { length (decimal number) ≤ 20 }
{
    push_words(label, Buffer::new().format(number), text)
}

/// Appends a label, and then an address.
pub fn push_address<A: Allocator>(
    label: &str,
    address: u64,
    text: &mut String<A>,
) -> Result<(), NoMemory>
    ensures appends { AppendsPiece (label.now ++ address_text address) text.old text.new result }
    ensures short { length (address_text address) ≤ 16 }
{
    push_hex(label, address, ADDRESS_DIGITS, text)
}

/// Appends a label, and then a shadow byte.
pub fn push_shadow<A: Allocator>(
    label: &str,
    shadow: u8,
    text: &mut String<A>,
) -> Result<(), NoMemory>
    ensures appends { AppendsPiece (label.now ++ shadow_text shadow) text.old text.new result }
    ensures short { length (shadow_text shadow) ≤ 16 }
{
    push_hex(label, u64::from(shadow), SHADOW_DIGITS, text)
}

/// The word for a store or a load.
pub fn kind_word(store: bool) -> &'static str
    ensures word { result.now ≡ kind_text store }
    ensures short { length (kind_text store) ≤ 7 }
{
    if store { " store " } else { " load " }
}

/// The word for a class.
pub fn class_word(class: Class) -> &'static str
    ensures word { result.now ≡ class_text class }
    ensures short { length (class_text class) ≤ 22 }
{
    match class {
        Class::HeapBufferOverflow => "heap-buffer-overflow",
        Class::HeapUseAfterFree => "heap-use-after-free",
        Class::UseAfterPoison => "use-after-poison",
        Class::StackBufferOverflow => "stack-buffer-overflow",
        Class::GlobalBufferOverflow => "global-buffer-overflow",
        Class::UnknownCrash => "unknown-crash",
    }
}

/// The word for a flaw.
pub fn flaw_word(flaw: Flaw) -> &'static str
    ensures word { result.now ≡ flaw_text flaw }
    ensures short { length (flaw_text flaw) ≤ 6 }
{
    match flaw {
        Flaw::Header => "header",
        Flaw::Code => "code",
        Flaw::Width => "width",
        Flaw::Size => "size",
        Flaw::Range => "range",
        Flaw::Kind => "kind",
    }
}
