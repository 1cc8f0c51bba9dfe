//! Tests of a run of the reflector over threads (`m17_reflect`): how a run is wired, how groups of jobs are launched, how the
//! jobs come apart and what is left is said, and whole runs with devices that wait for one another, or that fail; of the board
//! of a run (`m17_board`, `m17_board_run`); and of what the threads of a large reflector share: marks and queues beyond the
//! first 4,096, which the tests of `m17_lane` and `m17_sender` don't come to. They name public items alone, and this crate has
//! no items of its own: it stands apart so that the bodies below are not proved once more for their tests.
#![tactic(auto)]

#[cfg(test)]
mod bench;
#[cfg(test)]
mod beside_tests;
#[cfg(test)]
mod board_bench;
#[cfg(test)]
mod board_book_tests;
#[cfg(test)]
mod board_run_tests;
#[cfg(test)]
mod board_tests;
#[cfg(test)]
mod faults_tests;
#[cfg(test)]
mod glance_tests;
#[cfg(test)]
mod launch_tests;
#[cfg(test)]
mod limit_tests;
#[cfg(test)]
mod made_tests;
#[cfg(test)]
mod mark_tests;
#[cfg(test)]
mod meeting;
#[cfg(test)]
mod most_tests;
#[cfg(test)]
mod part_tests;
#[cfg(test)]
mod queue_tests;
#[cfg(test)]
mod rest_tests;
#[cfg(test)]
mod run_tests;
#[cfg(test)]
mod thread_tests_bench;
#[cfg(test)]
mod watch_tests;
#[cfg(test)]
mod wiring_tests;
