use super::text::{are_same, form_of, frames_of};
use mj_base::{Frames, NoMemory};
use mj_worker_cmd::{
    Order, WorkerCmd, orders_are_one_to_one, read_order, read_worker,
    worker_commands_are_one_to_one, write_order, write_worker,
};
use std::alloc::Global;
use std::test::Fail;

/// Each command behind its form.
const COMMANDS: &str = "\
0.1 led: |MDPW01|\x01|echo
0.1 led: |MDPW01|\x03|C\0\0\0\0\0\0\0\x03||a
0.1 led: |MDPW01|\x04
0.1 led: |MDPW01|\x05
0.2 led: |MDPW02|\x01|echo
0.2 led: |MDPW02|\x03||
0.2 led: |MDPW02|\x04|C|||
0.2 led: |MDPW02|\x05
0.2 led: |MDPW02|\x06
0.2: MDPW02|\x01|echo
0.2: MDPW02|\x03|C||a
0.2: MDPW02|\x04|C|
0.2: MDPW02|\x05
0.2: MDPW02|\x06
";

fn is_command(alloc: Global, cmd: &WorkerCmd, message: &Frames) -> Result<bool, NoMemory> {
    Ok(cmd.is_writable() && are_same(&write_worker(alloc, cmd)?, message))
}

fn is_command_again(alloc: Global, row: &str) -> Result<bool, NoMemory> {
    let (form, text) = row.split_once(": ").unwrap_or((row, ""));
    let message = frames_of(alloc, text)?;
    match read_worker(alloc, &message)? {
        Some(cmd) => {
            Ok(form_of(cmd.version, cmd.lead) == form && is_command(alloc, &cmd, &message)?)
        }
        None => Ok(false),
    }
}

#[test]
fn each_command_of_a_worker_is_read_and_written_again(rt: HostRuntime) -> Result<(), Fail> {
    for row in COMMANDS.lines() {
        assert!(rt; is_command_again(rt.alloc(), row)?, "{row}");
    }
    Ok(())
}

/// Each order behind its form.
const ORDERS: &str = "\
0.1 led: |MDPW01|\x02|C\0\0\0\0\0\0\0\x03||a
0.1 led: |MDPW01|\x04
0.1 led: |MDPW01|\x05
0.2 led: |MDPW02|\x02||
0.2 led: |MDPW02|\x05
0.2 led: |MDPW02|\x06
0.2: MDPW02|\x02|C|||a
0.2: MDPW02|\x05
0.2: MDPW02|\x06
";

fn is_order(alloc: Global, order: &Order, message: &Frames) -> Result<bool, NoMemory> {
    Ok(order.is_writable() && are_same(&write_order(alloc, order)?, message))
}

fn is_order_again(alloc: Global, row: &str) -> Result<bool, NoMemory> {
    let (form, text) = row.split_once(": ").unwrap_or((row, ""));
    let message = frames_of(alloc, text)?;
    match read_order(alloc, &message)? {
        Some(order) => {
            Ok(form_of(order.version, order.lead) == form && is_order(alloc, &order, &message)?)
        }
        None => Ok(false),
    }
}

#[test]
fn each_order_is_read_and_written_again(rt: HostRuntime) -> Result<(), Fail> {
    for row in ORDERS.lines() {
        assert!(rt; is_order_again(rt.alloc(), row)?, "{row}");
    }
    Ok(())
}

const NO_COMMANDS: &str = "\
|MDPW01
|MDPW01|\x01
|MDPW01|\x01|echo|
|MDPW01|\x01|\x7f
|MDPW01|\x02|C
|MDPW01|\x03|C
|MDPW01|\x03|C|a
|MDPW01|\x04|
|MDPW01|\x05|
|MDPW01|\x06
MDPW01|\x04
MDPW02
MDPW02|\x04
MDPW02|\x05|
MDPW02|\x07
";

fn is_refused(alloc: Global, message: &Frames) -> Result<bool, NoMemory> {
    Ok(read_worker(alloc, message)?.is_none() && read_order(alloc, message)?.is_none())
}

#[test]
fn lists_of_no_row_are_refused(rt: HostRuntime) -> Result<(), Fail> {
    assert!(rt; is_refused(rt.alloc(), &Frames::new(rt.alloc()))?);
    for row in NO_COMMANDS.lines() {
        assert!(rt;
            is_refused(rt.alloc(), &frames_of(rt.alloc(), row)?)?,
            "{row}"
        );
    }
    Ok(())
}

#[test]
fn laws_can_be_called() {
    worker_commands_are_one_to_one();
    orders_are_one_to_one();
}
