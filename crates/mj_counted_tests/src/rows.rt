ghost use Rattle.std.specs.Prelude.{◌≡◌, ◌<◌};

use mj_counted::{Rows, Steps};
use std::alloc::Global;
use std::marker::Brand;
use std::sync::ledger::{Blank, Ledger};
use std::test::Fail;

/// Whether three rows are found again, changed and taken out.
fn keeps_rows<L: Ledger>(alloc: Global, blank: Blank) -> Result<bool, Fail>
    requires name { blank.name ≡ L.name }
    requires parts { (blank.parts ≡ L.parts) × (0 < L.parts) }
{
    let mut steps = Steps::<L>::new(blank);
    let mut rows = Rows::new(alloc);
    rows.reserve(2)?;
    let first = rows.insert(10_u64, &mut steps)?;
    let second = rows.insert(20_u64, &mut steps)?;
    if let Some(value) = rows.get_mut(second, &mut steps) {
        *value = 21;
    }
    let taken = rows.take(first, &mut steps);
    let gone = rows.take(first, &mut steps);
    let left = rows.get(second, &mut steps).copied();
    Ok(taken == Some(10) && gone.is_none() && left == Some(21))
}

#[test]
fn rows_are_found_by_their_keys(rt: HostRuntime) -> Result<(), Fail> {
    assert!(rt; keeps_rows::<Brand>(rt.alloc(), Blank::new(1))?);
    Ok(())
}
