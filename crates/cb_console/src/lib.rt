//! The settings of a play and of a run, what the program prints about a play and a draw, and the
//! statuses with which they end.
//!
//! [`read_config`] reads the settings, which are TOML; a [`ConfigFault`] says what is wrong with
//! them. A [`Key`] is a setting's name. [`run_settings`] reads settings under which workers can
//! run, and [`print_refusal`] prints why any others are refused. [`Escaped`] shows a text so that
//! it stays one line.
//!
//! [`play_to`] plays a schedule's text under a configuration's text and prints what became of each
//! event, in two steps: [`read_and_play`], then [`print_outcome`]. [`draw_to`] prints a drawn
//! schedule.
#![tactic(auto)]

mod config;
mod drawn;
mod escaped;
mod output;
mod play;
mod running;
mod statuses;

pub use config::{Config, ConfigFault, Key, read_config};
pub use drawn::{draw_to, name_of as call_name, put_event, put_events};
pub use escaped::Escaped;
pub use output::{only_byte, put_entries, put_lives_entries, put_verdict, put_word};
pub use play::{Play, ReadFault, play_to, print_fault, print_outcome, read_and_play};
pub use running::{RunFault, print_refusal, run_settings};
pub use statuses::{DONE, NO_MEMORY, NOT_SERIAL, WRONG_INPUT};
