//! The tests of devices (`m17_streams`, `m17_port_memory`, `m17_disk`, `m17_net`) and of what stands between threads (`m17_crew`,
//! `m17_roll`, `m17_lane`), in a crate of their own so that the proofs of the bodies are not made twice. They show what no
//! clause says: what sockets, clocks and files that fail make of an ear, a mouth and a book, and those of the system; that a
//! book whose thread hangs holds nobody, and that its end comes; that jobs are done once, and seats share one roll; and of
//! lanes that calls go through, that sleepers are woken and none is woken in vain, and that an item is dropped once. They name
//! public items alone, and this crate has no items of its own.
#![tactic(auto)]

#[cfg(test)]
mod bench;
#[cfg(test)]
mod buffers_tests;
#[cfg(test)]
mod crew_tests;
#[cfg(test)]
mod disk_bench;
#[cfg(test)]
mod disk_tests;
#[cfg(test)]
mod doze_tests;
#[cfg(test)]
mod ear_tests;
#[cfg(test)]
mod grid_tests;
#[cfg(test)]
mod lane_tests;
#[cfg(test)]
mod mark_tests;
#[cfg(test)]
mod memory_tests;
#[cfg(test)]
mod net_bench;
#[cfg(test)]
mod net_tests;
#[cfg(test)]
mod port_memory_tests;
#[cfg(test)]
mod roll_tests;
#[cfg(test)]
mod rows_tests;
#[cfg(test)]
mod system_tests;
#[cfg(test)]
mod waking_tests;
