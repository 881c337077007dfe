//! The codes that the checker marks memory by, and the class that each stands for.
ghost use Rattle.std.specs.Prelude.{◌≡◌};
ghost use Rattle.shadow_map.specs.States.{IsCode};
ghost use Rattle.asan_check.specs.Codes.{class_of_code, code_of_kind};

use crate::report::Class;
use shadow_map::HEAP_REDZONE;
use trace_record::Kind;

/// The shadow byte of a granule whose bytes were freed.
pub const FREED: u8 = 0xfd;

/// The shadow byte of a granule whose bytes the user has poisoned.
const USER_POISON: u8 = 0xf7;

/// The shadow byte of a granule whose bytes are a redzone of a variable on the stack.
const STACK_REDZONE: u8 = 0xf2;

/// The shadow byte of a granule whose bytes are a redzone of a global.
const GLOBAL_REDZONE: u8 = 0xf9;

/// The shadow byte of poison of a kind.
pub fn poison_code(kind: Kind) -> u8
    ensures code { IsCode result }
    ensures kind { result ≡ code_of_kind kind }
{
    match kind {
        Kind::User => USER_POISON,
        Kind::Stack => STACK_REDZONE,
        Kind::Global => GLOBAL_REDZONE,
    }
}

/// The class that a shadow byte stands for.
pub fn class_by(shadow: u8) -> Class
    ensures { result ≡ class_of_code shadow }
{
    match shadow {
        HEAP_REDZONE => Class::HeapBufferOverflow,
        FREED => Class::HeapUseAfterFree,
        USER_POISON => Class::UseAfterPoison,
        STACK_REDZONE => Class::StackBufferOverflow,
        GLOBAL_REDZONE => Class::GlobalBufferOverflow,
        _ => Class::UnknownCrash,
    }
}
