//! The tests of modules and links: the floor, the parrot, the module and the directory. They show what no command prints:
//! which items a module gives, to whom and in which order, beside a plain program that looks its definition up anew at every
//! step, over lists that come of numbers and through worked evenings; what a directory posts, and how it is full. Which
//! verdicts a floor and a link give is in `conformance/`, over `judge`, `replay` and `check`.
//! They call what is public alone, so that the four crates are proved once, and not again with their tests.
//! It promises nothing, and no crate stands on it.
#![tactic(auto)]

#[cfg(test)]
mod directory_tests;
#[cfg(test)]
mod floor_list_tests;
#[cfg(test)]
mod module_list_tests;
#[cfg(test)]
mod module_tests;
#[cfg(test)]
mod parrot_tests;
#[cfg(test)]
mod plain_echo;
#[cfg(test)]
mod room_tests;
#[cfg(test)]
mod seen;
