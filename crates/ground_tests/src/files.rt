//! Stores in files, and what stands in the file beside each.

use cdb_outside::LogStore;
use file_store::{CutOff, FileStore};
use std::test::Fail;
use std::{env, fs, process};

/// Two pieces: the bytes "ef" that stood from 4 on, then the bytes "bcd" that stood from 1 on.
const PIECES: &[u8] =
    b"\0\0\0\0\0\0\0\x04\0\0\0\0\0\0\0\x02ef\0\0\0\0\0\0\0\x01\0\0\0\0\0\0\0\x03bcd";

/// A piece: the bytes "other" that stood from 0 on.
const OTHERS: &[u8] = b"\0\0\0\0\0\0\0\0\0\0\0\0\0\0\0\x05other";

/// The path of a folder of this run and this test, which is made empty.
fn folder(rt: &HostRuntime, test: &str) -> Result<String, Fail> {
    let id = process::id(rt.process());
    let name = format!(in rt.alloc(); "cdb-store-{test}-{id}")?;
    let path = env::temp_dir(rt)?.join(rt.alloc(), name.as_str())?;
    let path = String::from_str(rt.alloc(), path.as_str())?;
    if fs::exists(rt, path.as_str())? {
        fs::remove_dir_all(rt, path.as_str())?;
    }
    fs::create_dir_all(rt, path.as_str())?;
    Ok(path)
}

/// The path of a file in a folder.
fn file_in(rt: &HostRuntime, folder: &str, name: &str) -> Result<String, Fail> {
    Ok(format!(in rt.alloc(); "{folder}/{name}")?)
}

/// Whether the file in a folder has these bytes. Where there are none it is not looked at.
fn has(rt: &HostRuntime, folder: &str, name: &str, bytes: &[u8]) -> Result<bool, Fail> {
    if bytes.is_empty() {
        return Ok(true);
    }
    let path = file_in(rt, folder, name)?;
    Ok(fs::read(rt, path.as_str())?.as_slice() == bytes)
}

/// Writes a file in a folder, where there are bytes.
fn put(rt: &HostRuntime, folder: &str, name: &str, bytes: &[u8]) -> Result<(), Fail> {
    if !bytes.is_empty() {
        let path = file_in(rt, folder, name)?;
        fs::write(rt, path.as_str(), bytes)?;
    }
    Ok(())
}

/// Makes a folder in a folder, where it has a name.
fn put_folder(rt: &HostRuntime, folder: &str, name: &str) -> Result<(), Fail> {
    if !name.is_empty() {
        let path = file_in(rt, folder, name)?;
        fs::create_dir_all(rt, path.as_str())?;
    }
    Ok(())
}

/// A call of a store. A cut comes after a halt, and is not tried where fewer bytes are synced.
enum Call {
    Append(&'static [u8]),
    Sync,
    Cut(u64),
    Read,
}

/// Calls of a store in a file, and what the file and the one beside it have before and after, where that is looked at. The
/// store tells how many calls succeeded and failed, whether the file could not be read, and what was cut off last.
struct Play {
    name: &'static str,
    before: &'static [u8],
    /// A folder stands in place of this file.
    folder: &'static str,
    calls: &'static [Call],
    told: (u64, u64),
    is_unread: bool,
    cut_off: Option<CutOff>,
    after: &'static [u8],
    aside: &'static [u8],
}

static PLAYS: &[Play] = &[
    Play {
        name: "pending bytes are not in the file",
        before: b"",
        folder: "",
        calls: &[Call::Append(b"abcd"), Call::Sync, Call::Append(b"lost")],
        told: (3, 0),
        is_unread: false,
        cut_off: None,
        after: b"abcd",
        aside: b"",
    },
    Play {
        name: "a store goes on from a cut",
        before: b"abcd",
        folder: "",
        calls: &[
            Call::Append(b"lost"),
            Call::Cut(3),
            Call::Append(b"xy"),
            Call::Sync,
        ],
        told: (4, 0),
        is_unread: false,
        cut_off: Some(CutOff { at: 3, count: 1 }),
        after: b"abcxy",
        aside: b"\0\0\0\0\0\0\0\x03\0\0\0\0\0\0\0\x01d",
    },
    Play {
        name: "what is cut off stands beside the file",
        before: b"abcdef",
        folder: "",
        calls: &[Call::Cut(6), Call::Cut(4), Call::Cut(1)],
        told: (3, 0),
        is_unread: false,
        cut_off: Some(CutOff { at: 1, count: 3 }),
        after: b"a",
        aside: PIECES,
    },
    Play {
        name: "a folder in place of the file fails each call",
        before: b"",
        folder: "node1.log",
        calls: &[Call::Read, Call::Append(b"a"), Call::Sync],
        told: (0, 3),
        is_unread: true,
        cut_off: None,
        after: b"",
        aside: b"",
    },
    Play {
        name: "a cut that cannot set aside fails",
        before: b"abcdef",
        folder: "node1.log.cut",
        calls: &[Call::Cut(4)],
        told: (0, 1),
        is_unread: false,
        cut_off: None,
        after: b"abcdef",
        aside: b"",
    },
];

/// Whether a call succeeds.
fn succeeds(store: &mut FileStore<'_, HostRuntime>, call: &Call) -> bool {
    match call {
        Call::Append(bytes) => store.append(*bytes).is_ok(),
        Call::Sync => store.sync().is_ok(),
        Call::Cut(at) => {
            store.halt();
            store.synced().len() as u64 >= *at && store.cut(*at).is_ok()
        }
        Call::Read => store.read(0, &mut [0u8; 4]).is_ok(),
    }
}

/// How many calls of a store succeed, one behind the other.
fn successes(store: &mut FileStore<'_, HostRuntime>, calls: &[Call]) -> u64 {
    let mut count = 0u64;
    for call in calls {
        if succeeds(store, call) {
            count = count.wrapping_add(1);
        }
    }
    count
}

/// What a store tells at its end.
#[derive(Clone, Copy)]
struct Told {
    counts: (u64, u64),
    is_unread: bool,
    cut_off: Option<CutOff>,
}

/// Makes calls of a store in the file of a folder.
fn call_all(rt: &HostRuntime, folder: &str, calls: &[Call]) -> Result<Told, Fail> {
    let path = file_in(rt, folder, "node1.log")?;
    let mut store = FileStore::new(rt, path);
    let succeeded = successes(&mut store, calls);
    Ok(Told {
        counts: (succeeded, store.failures()),
        is_unread: store.is_unread(),
        cut_off: store.cut_off(),
    })
}

/// Whether the files of a folder have these bytes.
fn have(rt: &HostRuntime, folder: &str, bytes: &[u8], aside: &[u8]) -> Result<bool, Fail> {
    Ok(has(rt, folder, "node1.log", bytes)? && has(rt, folder, "node1.log.cut", aside)?)
}

/// What is told in a folder, and whether its files have then what they should.
fn played(rt: &HostRuntime, folder: &str, play: &Play) -> Result<(Told, bool), Fail> {
    put(rt, folder, "node1.log", play.before)?;
    put_folder(rt, folder, play.folder)?;
    let told = call_all(rt, folder, play.calls)?;
    Ok((told, have(rt, folder, play.after, play.aside)?))
}

#[test]
fn a_file_has_what_was_synced(rt: HostRuntime) -> Result<(), Fail> {
    for play in PLAYS {
        let folder = folder(&rt, "play")?;
        let (told, has_left) = played(&rt, folder.as_str(), play)?;
        assert_eq!(rt; told.counts, play.told, "{}", play.name);
        assert!(rt; told.is_unread == play.is_unread, "{}", play.name);
        assert_eq!(rt; told.cut_off, play.cut_off, "{}", play.name);
        assert!(rt; has_left, "{}", play.name);
        fs::remove_dir_all(&rt, folder.as_str())?;
    }
    Ok(())
}

/// Whether a first sync succeeds where the folder is missing, and the next one once it is there with a file of another.
fn synced_behind(rt: &HostRuntime, folder: &str) -> Result<[bool; 3], Fail> {
    let path = file_in(rt, folder, "node1.log")?;
    let mut store = FileStore::new(rt, path);
    let appended = store.append(b"ab").is_ok();
    let first = store.sync().is_ok();
    fs::create_dir_all(rt, folder)?;
    put(rt, folder, "node1.log", b"other")?;
    Ok([appended, first, store.sync().is_ok()])
}

/// What another wrote meanwhile is set aside.
#[test]
fn a_file_is_made_equal_after_a_failed_sync(rt: HostRuntime) -> Result<(), Fail> {
    let folder = folder(&rt, "behind")?;
    fs::remove_dir_all(&rt, folder.as_str())?;
    assert_eq!(rt; synced_behind(&rt, folder.as_str())?, [true, false, true]);
    assert!(rt; have(&rt, folder.as_str(), b"ab", OTHERS)?);
    fs::remove_dir_all(&rt, folder.as_str())?;
    Ok(())
}
