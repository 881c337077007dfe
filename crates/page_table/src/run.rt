//! A run of granules that get one byte.
ghost use Rattle.std.specs.Prelude.{◌≡◌, ◌<◌, ◌^◌};
ghost use Rattle.page_table.specs.Runs.{length_of};

/// Some granules side by side, and the byte that each of them gets.
#[derive(Clone, Copy, Debug, PartialEq, Eq)]
pub struct Run {
    /// How many granules.
    pub length: u64,

    /// Their byte.
    pub byte: u8,
}

/// How many granules the runs have together.
pub fn total_length(runs: &[Run]) -> u64
    requires { length_of runs.now < 2 ^ 64 }
    ensures { result ≡ length_of runs.now }
{
    let mut total = 0;
    for run in runs {
        total += run.length;
    }
    total
}
