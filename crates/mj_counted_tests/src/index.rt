ghost use Rattle.std.specs.Prelude.{◌≡◌, ◌<◌};

use mj_base::Name;
use mj_counted::{Index, Steps};
use std::alloc::Global;
use std::marker::Brand;
use std::sync::ledger::{Blank, Ledger};
use std::test::Fail;

/// Whether two names have their keys, until one is taken out.
fn keeps_names<L: Ledger>(alloc: Global, blank: Blank) -> Result<bool, Fail>
    requires name { blank.name ≡ L.name }
    requires parts { (blank.parts ≡ L.parts) × (0 < L.parts) }
{
    let mut steps = Steps::<L>::new(blank);
    let mut index = Index::new(alloc);
    let echo = Name::of(b"echo").ok_or("no name")?;
    let clock = Name::of(b"clock").ok_or("no name")?;
    index.insert(&echo, 4, &mut steps)?;
    index.insert(&clock, 2, &mut steps)?;
    let taken = index.remove(&echo, &mut steps);
    Ok(
        taken == Some(4)
            && index.get(&echo, &mut steps).is_none()
            && index.get(&clock, &mut steps) == Some(2),
    )
}

#[test]
fn names_have_their_keys(rt: HostRuntime) -> Result<(), Fail> {
    assert!(rt; keeps_names::<Brand>(rt.alloc(), Blank::new(1))?);
    Ok(())
}
