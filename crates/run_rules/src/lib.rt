//! The rules of a run: its state, a turn, an edge, where it ends, its report and its status. They speak of the
//! meanings of slices, and of no code. The laws say in a run's own words what the definitions of `specs/` come to.
#![tactic(auto)]

mod drive;
mod end;
mod laws;
mod limits;
mod status;

pub use drive::Drive;
pub use end::End;
pub use laws::drives::{drives_fit, no_drive_changes_nothing, one_more_drive, one_more_is_given};
pub use laws::edges::{edge_begins_the_next_cycle, edge_ends_at_the_last_cycle, edge_finishes};
pub use laws::nets::{
    bits_are_put_in_order, driving_gives_each_net_its_bit, driving_puts_bits,
    linked_nets_are_there, net_names_are_apart, net_numbers_are_apart, undriven_nets_are_x,
};
pub use laws::runs::{ended_stays, every_run_ends, one_final};
pub use laws::sources::{every_program_ends, one_end_of_a_testbench};
pub use laws::statuses::each_status_has_its_own_number;
pub use laws::turns::{spent_by_turns, text_has_a_limit, turn_of_the_first_ready, within_limits};
pub use limits::Limits;
pub use status::Status;
