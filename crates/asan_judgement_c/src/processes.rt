//! The status of a run.

use asan_judgement::{Answer, Process, Run, Said, Statuses, status_of};

/// The most processes that a run here has.
const MOST: usize = 4;

/// What is asked, as run/tests/judged.c has it.
#[repr(C)]
#[derive(Clone, Copy)]
pub struct Asked {
    pub command: u8,
    pub said: u8,
    pub is_empty: bool,
    pub is_cut_short: bool,
    pub reports: u8,
    pub incomplete: u8,
    pub nothing: u8,
}

/// The words in the order of run/status.h.
fn said_of(number: u8) -> Said {
    match number {
        0 => Said::Clean,
        1 => Said::Counts,
        2 => Said::Incomplete,
        _ => Said::Nothing,
    }
}

/// A process is the number of its answer, and 256 times that of its reports.
fn process_of(number: u32) -> Process {
    let answer = match number & 255 {
        0 => Answer::Complete,
        1 => Answer::UpToThere,
        2 => Answer::BeforeMain,
        3 => Answer::Unchecked,
        _ => Answer::Incomplete,
    };
    Process {
        answer,
        reports: u64::from(number >> 8),
    }
}

/// The status of a run of at most four processes.
#[unsafe(no_mangle)]
pub extern "C" fn asan_judgement_status(processes: &[u32], asked: &Asked) -> u8 {
    let count = processes.len().min(MOST);
    let mut list = [process_of(0); MOST];
    for i in 0..count {
        list[i] = process_of(processes[i]);
    }
    let run = Run {
        command: asked.command,
        said: said_of(asked.said),
        is_empty: asked.is_empty,
        is_cut_short: asked.is_cut_short,
    };
    let statuses = Statuses {
        reports: asked.reports,
        incomplete: asked.incomplete,
        nothing: asked.nothing,
    };
    status_of(&list[..count], &run, &statuses)
}
