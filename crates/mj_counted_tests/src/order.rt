ghost use Rattle.std.specs.Prelude.{◌≡◌, ◌<◌, false};
ghost use Rattle.mj_counted.specs.Pairs.{has_pair};

use mj_counted::{Order, Steps, key_for};
use std::alloc::Global;
use std::marker::Brand;
use std::sync::ledger::{Blank, Ledger};
use std::test::Fail;

/// Whether four pairs are kept in order, with one of them taken out.
fn keeps_order<L: Ledger>(alloc: Global, blank: Blank) -> Result<bool, Fail>
    requires name { blank.name ≡ L.name }
    requires parts { (blank.parts ≡ L.parts) × (0 < L.parts) }
{
    let mut steps = Steps::<L>::new(blank);
    let mut order = Order::new(alloc);
    order.reserve(4)?;
    order.insert((7, 1), &mut steps)?;
    order.insert((3, 9), &mut steps)?;
    order.insert((7, 0), &mut steps)?;
    order.insert((5, 2), &mut steps)?;
    let was_there = order.remove((5, 2), &mut steps);
    let was_missing = order.remove((5, 3), &mut steps);
    Ok(
        was_there
            && !was_missing
            && order.get(0, &mut steps) == Some((3, 9))
            && order.get(1, &mut steps) == Some((7, 0))
            && order.get(3, &mut steps).is_none()
            && order.find((7, 1), &mut steps) == 2
            && key_for(&order, 7, &mut steps) == Some(0)
            && key_for(&order, 5, &mut steps).is_none(),
    )
}

#[test]
fn pairs_stand_in_rising_order(rt: HostRuntime) -> Result<(), Fail> {
    assert!(rt; keeps_order::<Brand>(rt.alloc(), Blank::new(1))?);
    Ok(())
}
