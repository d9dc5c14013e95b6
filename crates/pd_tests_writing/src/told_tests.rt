//! What a dry run tells: the least room, and its lines (`thin_repair --dry-run`).

use pd_image::{MemSink, Sink};
use pd_kept::{Kept, KeptDevice, least_room, put_kept};
use std::alloc::Global;
use std::test::Fail;

/// Blocks besides the bitmaps, and the least number on which there is room for them: a bitmap has 16320 counts.
const ROOMS: &[(u64, Option<u64>)] = &[
    (0, Some(0)),
    (9, Some(10)),
    (16319, Some(16320)),
    (16320, Some(16322)),
    (4161600, Some(4161856)),
    (u64::MAX, None),
];

#[test]
fn rooms_are_the_least(rt: HostRuntime) -> Result<(), Fail> {
    for (base, room) in ROOMS {
        assert!(rt; least_room(*base) == *room);
    }
    Ok(())
}

/// The text of what is kept.
fn text_of(alloc: Global, kept: &Kept) -> Result<Box<MemSink>, Fail> {
    let mut out = Box::new(alloc, MemSink::new(alloc))?;
    out.attach(None)?;
    put_kept(kept, &mut *out)?;
    Ok(out)
}

/// Three devices, of which one is lost, and their text.
const DEVICES: [KeptDevice; 3] = [
    KeptDevice::Kept {
        id: 0,
        mappings: 3,
        mapped: Some(4),
    },
    KeptDevice::Lost { id: 7, mapped: 5 },
    KeptDevice::Kept {
        id: 9,
        mappings: 0,
        mapped: None,
    },
];

const DEVICE_LINES: &str =
    "device 0 kept 3 of 4\ndevice 7 lost 5\ndevice 9 kept 0 of ?\nkeeps 2 3 need 11 shared 10\n";

#[test]
fn each_device_has_a_line(rt: HostRuntime) -> Result<(), Fail> {
    let mut devices = Vec::new(rt.alloc());
    for device in &DEVICES {
        devices.push(*device)?;
    }
    let kept = Kept {
        devices,
        saved: 2,
        mappings: 3,
        need: 11,
        shared_need: 10,
    };
    assert!(rt; text_of(rt.alloc(), &kept)?.bytes() == DEVICE_LINES.as_bytes());
    Ok(())
}
