//! Rules of callsigns: who may connect to a module, who may listen, and who may speak. It
//! promises that `take_rules`, of the program's input, and `read_rules`, of any source, take
//! exactly the texts of rules, each to its end, and name the first refused line and its first
//! refused part of every other; that `allowed` answers by the first rule that fits; that a `Gate`,
//! an ear over another one, tells what the other one tells but for what is denied, in place of
//! which nothing is heard; and, in `laws`, that no event which a link (`m17_directory`) routes
//! behind a gate is a Join or a Packet that is denied. That a link hears what its gate tells is
//! left to `m17_serve`. A callsign in a packet is what its sender wrote there.
#![tactic(auto)]

mod asked;
mod failure;
mod gate;
pub mod laws;
mod letters;
mod line;
mod link_rules;
mod nowhere;
mod pattern;
mod quick;
mod reading;
mod refusal;
mod rule;
mod rules;
mod taking;

pub use asked::Asked;
pub use failure::{RulesFailure, RulesReason};
pub use gate::{Gate, GateLabel};
pub use letters::Letters;
pub use link_rules::LinkRules;
pub use quick::QuickRules;
pub use reading::read_rules;
pub use refusal::{Reason, RulesRefusal};
pub use rule::{Act, Kind, Pattern, Rule};
pub use rules::{Rules, allowed};
pub use taking::take_rules;
