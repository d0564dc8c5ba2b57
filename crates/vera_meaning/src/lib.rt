//! The meaning of typed trees: what a slice of a thread asks, puts, prints, and how it ends. The laws say in the
//! language's own words what the definitions of `specs/` come to.
#![tactic(auto)]

mod laws;

pub use laws::conditions::condition_holds_at_one;
pub use laws::driving::{block_drives_what_its_statements_drive, drives_fit_their_signals};
pub use laws::expressions::{
    evaluation_only_asks, literal_is_its_bits, operators_group_from_the_left,
    signal_is_asked_for_its_sample, variable_is_asked_once,
};
pub use laws::slices::{
    bounds_do_not_count, items_in_order, larger_budget_changes_spent_slices_alone,
    nothing_to_do_ends,
};
pub use laws::statements::{
    assignment_puts_its_value, block_is_its_statements, drive_is_due_in_its_cycle,
    edge_waits_for_one, printf_prints_its_text,
};
pub use laws::while_loops::{loop_begins_with_its_test, loop_goes_on_while_its_condition_holds};
