//! Cases of calls on a disk, a shelf and a sink: what each answers. The first word of a line is what its call is made on.
//!
//! `disk`, `shelf` and `sink` are in memory, as the lines before left them; `new` makes another. `file PATH CALL; CALL ..` makes calls on
//! a disk over a real file, `folder` one on a shelf over the folder that the program runs in, or on one of its files, and `standard` a
//! write to standard output.
#![tactic(auto)]

mod disk_calls;
mod file_calls;
mod folder_calls;
mod images;
mod shelf_calls;
mod sink_calls;
pub mod words;

use acc_disk::MemDisk;
use acc_io::{MemShelf, MemSink};
use std::alloc::{AllocError, Global};
use std::fs::File;
use std::rt::Files;

/// What calls in memory are made on.
#[derive(Drop)]
pub struct Devices {
    disk: MemDisk,
    shelf: MemShelf,
    sink: MemSink,
}

impl Devices {
    /// Devices without a byte.
    pub fn new(alloc: Global) -> Result<Devices, AllocError> {
        Ok(Devices {
            disk: disk_calls::fresh(alloc, "- - -")?,
            shelf: shelf_calls::fresh(alloc, "-")?,
            sink: sink_calls::fresh(alloc, "- -")?,
        })
    }
}

/// What a call on a real device answers.
fn answer_really<R: Files<File = File> + Print + AllocGlobal>(
    rt: &R,
    device: &str,
    call: &str,
) -> Result<String, AllocError> {
    match device {
        "file" => file_calls::answer(rt, call),
        "used" => file_calls::answer_used(rt, call),
        "second" => file_calls::answer_second(rt, call),
        "changed" => file_calls::answer_changed(rt, call),
        "folder" => folder_calls::answer(rt, call),
        "standard" => sink_calls::answer_of_standard(rt, call),
        _ => words::said(rt.alloc(), "no call"),
    }
}

/// What the call of a line answers.
pub fn answer<R: Files<File = File> + Print + AllocGlobal>(
    rt: &R,
    on: &mut Devices,
    line: &str,
) -> Result<String, AllocError> {
    let (device, call) = words::split(line);
    match device {
        "disk" => disk_calls::answer(rt.alloc(), &mut on.disk, call),
        "shelf" => shelf_calls::answer(rt.alloc(), &mut on.shelf, call),
        "sink" => sink_calls::answer(rt.alloc(), &mut on.sink, call),
        _ => answer_really(rt, device, call),
    }
}
