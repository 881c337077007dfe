//! Whether to say what became of each file.

ghost use Rattle.std.specs.Prelude.{◌≡◌, IsTrue, false};
ghost use Rattle.asan_inputs.specs.Verbose.{is_verbose as is_verbose_of};

/// Whether `--verbose` is one of the words, and was found to be a flag.
///
/// A flag that was found is always one of the words, but not each such word is a flag: after `--`
/// it is the name of a file.
pub fn is_verbose(words: &[String], is_flag: bool) -> bool
    ensures verbose { IsTrue (is_verbose_of words.now) → result ≡ is_flag }
    ensures quiet { is_verbose_of words.now ≡ false → result ≡ false }
{
    is_among(words) && is_flag
}

/// Whether `--verbose` is one of the words.
fn is_among(words: &[String]) -> bool
    ensures { result ≡ is_verbose_of words.now }
{
    words.iter().any(|word| word.as_str() == "--verbose")
}
