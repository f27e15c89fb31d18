use super::tests::{disk_of, link_of, run, run_over, shipped, whole_copy};
use mj_base::Octets;
use std::alloc::Global;
use std::sync::Wait;
use std::test::Fail;

/// Whatever the byte is at which the link ends, the next one brings the rest.
#[test]
fn the_link_ends_at_each_byte(rt: HostRuntime) -> Result<(), Fail> {
    let alloc = rt.alloc();
    let all = shipped(alloc)?;
    let whole = whole_copy(alloc)?;
    for cut in 1..all.len() {
        let front = all.as_slice().split_at(cut).0;
        let pieces = [front, b"".as_slice(), all.as_slice()];
        let made = run(&rt, rt.alloc(), "f follow a", false, b"", &pieces)?;
        assert!(rt; made.status == 0, "{cut}");
        assert!(rt; made.file.as_slice() == whole.as_slice(), "{cut}");
    }
    Ok(())
}

/// Whether a file of these bytes is followed to the end.
fn ends_whole<R: Wait>(rt: &R, alloc: Global, file: &[u8]) -> Result<bool, Fail> {
    let all = shipped(alloc)?;
    let made = run(rt, alloc, "f follow a", false, file, &[all.as_slice()])?;
    Ok(made.status == 0 && made.printed.as_slice() == b"done 3\n".as_slice())
}

/// From each call on the disk fails; whatever image is left, it is followed to the end.
#[test]
fn each_call_of_the_disk_fails(rt: HostRuntime) -> Result<(), Fail> {
    let alloc = rt.alloc();
    let all = shipped(alloc)?;
    for call in 0..20 {
        let mut link = link_of(alloc, &[all.as_slice()], Vec::new(alloc))?;
        let mut disk = disk_of(alloc, b"", Some(call))?;
        let made = run_over(&rt, rt.alloc(), "f follow a", false, &mut link, &mut disk)?;
        assert!(rt; made.status == 5 || made.status == 0, "{call}");
        for k in 0..3 {
            let image: Octets = disk.image(alloc, k)?;
            assert!(rt;
                ends_whole(&rt, rt.alloc(), image.as_slice())?,
                "{call} {k}"
            );
        }
    }
    Ok(())
}

/// The reads and writes of a link fail, counted together from 0.
#[test]
fn each_call_of_the_link_fails(rt: HostRuntime) -> Result<(), Fail> {
    let alloc = rt.alloc();
    let all = shipped(alloc)?;
    for call in 0..4_u64 {
        let mut link = link_of(alloc, &[all.as_slice()], vec![in alloc; call]?)?;
        let mut disk = disk_of(alloc, b"", None)?;
        let made = run_over(&rt, rt.alloc(), "f follow a", false, &mut link, &mut disk)?;
        let status = if call == 0 { 6 } else { 7 };
        assert!(rt; made.status == status, "{call}");
    }
    Ok(())
}
