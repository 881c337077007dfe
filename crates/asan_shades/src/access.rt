//! The check of an access.

ghost use Rattle.std.specs.Prelude.{◌≡◌, ◌≤◌};
ghost use Rattle.shadow_map.specs.Checks.{check_reports};

/// Whether an access is bad, by the shadow byte of the granule of its first byte.
pub fn is_bad(shadow: u8, at: u64, width: u8) -> bool
    requires width { width ≤ 8 }
    ensures { result ≡ check_reports shadow at width }
{
    shadow != 0 && (width == 8 || shadow >= 0x80 || shadow < (at % 8) as u8 + width)
}
