//! What real files and streams do.

use crate::depots::{finds, put_failed};
use crate::sinks::write_failed;
use flame_outside::{Depot, Gate, Got, HostDepot, HostSink, OpenGate, ReadFail};
use std::rt::Files;
use std::test::Fail;
use std::{fs, io};

/// Makes an empty folder where the test runs. One that an earlier run left is removed first.
fn make_folder(rt: &(impl Files + Alloc), name: &str) -> io::Result<()> {
    if fs::exists(rt, name)? {
        fs::remove_dir_all(rt, name)?;
    }
    fs::create_dir(rt, name)
}

/// Whether puts in a folder that is there are made whole, and one in place of the folder fails.
fn puts_answer<D: Depot>(depot: &mut D) -> bool {
    put_failed(depot, "few_files/made", b"a longer text") == Some(false)
        && put_failed(depot, "few_files/made", b"short") == Some(false)
        && put_failed(depot, "few_files", b"text") == Some(true)
}

/// Whether reads behind those puts find the last file, its front alone, and nothing else.
fn reads_answer<D: Depot>(depot: &mut D) -> bool {
    finds(depot, "few_files/made", 3, b"sho")
        && matches!(depot.read("few_files", 100), Err(ReadFail::Failed))
        && matches!(depot.read("few_files/absent", 100), Ok(Got::Missing))
}

#[test]
fn real_files_answer(rt: HostRuntime) -> Result<(), Fail> {
    make_folder(&rt, "few_files")?;
    let mut depot = HostDepot::new(&rt);
    let put = puts_answer(&mut depot);
    let read = reads_answer(&mut depot);
    fs::remove_dir_all(&rt, "few_files")?;
    assert!(rt; put);
    assert!(rt; read);
    Ok(())
}

#[test]
fn the_output_takes_bytes(rt: HostRuntime) {
    let mut out = HostSink::out(&rt);
    assert!(rt; write_failed(&mut out, b"to the output\n") == Some(false));
}

#[test]
fn the_error_stream_takes_text(rt: HostRuntime) {
    let mut err = HostSink::err(&rt);
    assert!(rt; write_failed(&mut err, b"to the error stream\n") == Some(false));
    assert!(rt; write_failed(&mut err, b"\xff") == Some(true));
}

#[test]
fn an_open_gate_lets_workers_in(rt: HostRuntime) {
    OpenGate.enter(&rt, 0, 0);
}
