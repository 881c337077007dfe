//! Tests of `UnixDoor`, over real sockets.

use super::doors::{Coming, came, expect_arrivals};
use super::expect_eq;
use std::io::Write;
use std::os::unix::net::{UnixListener, UnixStream};
use std::test::Fail;
use std::{env, fs, io, process, thread};
use trace_feed::{Door, UnixDoor};

/// The path of a socket of this process.
fn path_of(rt: HostRuntime, name: &str) -> io::Result<String> {
    let folder = env::temp_dir(&rt)?;
    let number = process::id(rt.process());
    let path = format!(in rt.alloc(); "{}/trace_feed_{name}_{number}", folder.display())?;
    Ok(path)
}

/// A listener at the socket of this name.
fn listen(rt: HostRuntime, name: &str) -> io::Result<UnixListener> {
    let path = path_of(rt, name)?;
    // A file that an earlier run left is in the way, and there mostly is none.
    let _ = fs::remove_file(&rt, path.as_str());
    UnixListener::bind(&rt, path.as_str())
}

/// A peer of the listener of this name.
fn connect(rt: HostRuntime, name: &str) -> io::Result<UnixStream> {
    UnixStream::connect(&rt, path_of(rt, name)?.as_str())
}

/// Removes the file of the socket of this name.
fn remove(rt: HostRuntime, name: &str) -> io::Result<()> {
    fs::remove_file(&rt, path_of(rt, name)?.as_str())
}

/// Connects twice and writes a text each time.
fn connect_twice(rt: HostRuntime, name: &str) -> io::Result<()> {
    for text in ["hello", "again"] {
        connect(rt, name)?.write_all(text.as_bytes())?;
    }
    Ok(())
}

#[test]
fn peers_come_in_until_the_count_is_used_up(rt: HostRuntime) -> Result<(), Fail> {
    let mut door = UnixDoor::new(listen(rt, "peers")?, 2);
    let client = thread::spawn(&rt, move || connect_twice(rt, "peers").is_ok())
        .ok()
        .expect(&rt, "a thread starts");
    let comings = [(Coming::Came(b"hello"), 0), (Coming::Came(b"again"), 0)];
    expect_arrivals(&rt, &mut door, &comings);
    assert!(rt; client.join(&rt));
    expect_arrivals(&rt, &mut door, &[(Coming::Over, 0), (Coming::Over, 0)]);
    remove(rt, "peers")?;
    Ok(())
}

#[test]
fn a_peer_that_writes_nothing_has_an_empty_feed(rt: HostRuntime) -> Result<(), Fail> {
    let mut door = UnixDoor::new(listen(rt, "silent")?, 1);
    drop(connect(rt, "silent")?);
    let comings = [(Coming::Came(b""), 0), (Coming::Over, 0)];
    expect_arrivals(&rt, &mut door, &comings);
    remove(rt, "silent")?;
    Ok(())
}

#[test]
fn a_failed_accept_uses_up_one_of_the_count(rt: HostRuntime) -> Result<(), Fail> {
    let listener = listen(rt, "refused")?;
    // Without a peer an accept now fails at once.
    listener.set_nonblocking(true)?;
    let mut door = UnixDoor::new(listener, 3);
    expect_arrivals(&rt, &mut door, &[(Coming::Refused, 1)]);
    let peer = connect(rt, "refused")?;
    drop(came(&rt, &mut door));
    expect_eq(&rt, door.refusals(), 1);
    drop(peer);
    expect_arrivals(&rt, &mut door, &[(Coming::Refused, 2), (Coming::Over, 2)]);
    remove(rt, "refused")?;
    Ok(())
}

#[test]
fn a_door_for_no_peers_is_over(rt: HostRuntime) -> Result<(), Fail> {
    let mut door = UnixDoor::new(listen(rt, "none")?, 0);
    expect_arrivals(&rt, &mut door, &[(Coming::Over, 0)]);
    remove(rt, "none")?;
    Ok(())
}
