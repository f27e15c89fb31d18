use mj_laws::{
    commands_grow, cuts_change_nothing, lists_are_lawful, nobody_waits_for_a_queued_service,
    notes_are_told, notes_come_with_a_failure, nothing_is_kept_without_a_store, numbers_and_lanes,
    one_request_at_a_time, replies_reach_their_asker, stores_go_on, tickets_are_conserved,
    tickets_wait_for_the_store,
};
use mj_machine::{
    Lengths, a_run_is_its_front_and_its_rest, steps_are_the_run, the_worked_runs,
    the_worked_runs_with_a_store, worked_runs_in_steps,
};
use std::test::Fail;

#[test]
fn lengths_are_taken_in_the_order_in_which_they_came(rt: HostRuntime) -> Result<(), Fail> {
    let mut lengths = Lengths::new(rt.alloc());
    lengths.push(64)?;
    lengths.push(30)?;
    assert!(rt; lengths.len() == 2);
    assert!(rt; lengths.total() == 94);
    lengths.pop();
    assert!(rt; lengths.total() == 30);
    assert!(rt; !lengths.is_empty());
    lengths.pop();
    lengths.pop();
    assert!(rt; lengths.is_empty());
    Ok(())
}

#[test]
fn laws_and_worked_runs_can_be_called() {
    the_worked_runs();
    the_worked_runs_with_a_store();
    worked_runs_in_steps();
    a_run_is_its_front_and_its_rest();
    steps_are_the_run();
    replies_reach_their_asker();
    one_request_at_a_time();
    nobody_waits_for_a_queued_service();
    numbers_and_lanes();
    cuts_change_nothing();
    nothing_is_kept_without_a_store();
    tickets_are_conserved();
    tickets_wait_for_the_store();
    commands_grow();
    stores_go_on();
    lists_are_lawful();
    notes_are_told();
    notes_come_with_a_failure();
}
