//! Each public call once.

use grammar_laws::{
    Fault, Why, example_at_the_end_of_depth, example_depth_is_the_least, example_has_one_tree,
    example_is_read_exactly, example_lines, example_loop_goes_on,
    example_refusals_exclude_each_other, example_refuses_exactly, example_shares_beginnings,
};
use std::alloc::AllocError;

#[test]
fn laws_are_called() {
    example_at_the_end_of_depth();
    example_depth_is_the_least();
    example_has_one_tree();
    example_is_read_exactly();
    example_lines();
    example_loop_goes_on();
    example_refusals_exclude_each_other();
    example_refuses_exactly();
    example_shares_beginnings();
}

#[test]
fn want_of_memory_is_no_stop(rt: HostRuntime) {
    let fault = Fault::from(AllocError);
    assert!(rt; fault == Fault::NoMemory);
    assert!(rt; fault != Fault::Stop(Why::Syntax, 0));
}
