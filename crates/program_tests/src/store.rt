//! The files of the system as a store.

ghost use Rattle.std.specs.Prelude.{◌≡◌, ◌++◌};
ghost use Rattle.run_faults.specs.declared.run_error.RunError.TheVariants as errors;

use grid_core::Memory;
use run_faults::RunError;
use std::alloc::Global;
use std::fs::{self, OpenOptions};
use std::os::unix::fs::{PermissionsExt, symlink};
use std::test::Fail;
use view_session::file_store::FileStore;
use view_session::store::{Keeps, StatePath, StateStore};

// What is done to a file, or is so of it. Each load and each save is of a store of its own.
enum Step {
    // A load has these bytes.
    Loads(&'static [u8]),
    // A load is V2.
    LoadFails,
    // These bytes are saved behind those that are found.
    Adds(&'static [u8]),
    // A save of these is V2.
    AddFails(&'static [u8]),
    // So it is while another has the lock of this name, and not afterwards.
    AddWaits(&'static str, &'static [u8]),
    // More bytes are saved than a read gives, and loaded.
    KeepsMany,
    // The others are made without a store.
    Folder,
    File(&'static [u8]),
    LinkTo(&'static str),
    IsLink,
    Rights(u32),
    HasRights(u32),
}

const FOLDER: &str = "store_test";

const OLD: &[u8] = b"old bytes";

// The name in the folder, and what is done to it, in turn.
const STEPS: &[(&str, Step)] = &[
    ("none", Step::Loads(b"")),
    // Two stores in turns keep what both have.
    ("kept", Step::Adds(b"one")),
    ("kept", Step::Loads(b"one")),
    ("kept", Step::Adds(b", two")),
    ("kept", Step::Adds(b"")),
    ("kept", Step::Loads(b"one, two")),
    ("many", Step::KeepsMany),
    // A save waits while another is in the middle of one, and gives up.
    ("wait", Step::File(OLD)),
    ("wait", Step::AddWaits("store_test/wait.lock", b"!")),
    ("wait", Step::Loads(b"old bytes!")),
    // The rights stay, and a file that nobody may write is not replaced.
    ("mine", Step::File(OLD)),
    ("mine", Step::Rights(0o600)),
    ("mine", Step::Adds(b"!")),
    ("mine", Step::HasRights(0o600)),
    ("mine", Step::Rights(0o444)),
    ("mine", Step::AddFails(b"!")),
    ("mine", Step::Loads(b"old bytes!")),
    ("mine", Step::Adds(b"")),
    // A link is followed, and stays. One that leads nowhere keeps nothing.
    ("real", Step::File(OLD)),
    ("link", Step::LinkTo("real")),
    ("link", Step::Adds(b"!")),
    ("link", Step::IsLink),
    ("real", Step::Loads(b"old bytes!")),
    ("lost", Step::LinkTo("nowhere")),
    ("lost", Step::AddFails(OLD)),
    ("lost", Step::IsLink),
    // A folder is no state file, nor is a name in no folder, or one below a file.
    ("folder", Step::Folder),
    ("folder", Step::LoadFails),
    ("folder", Step::AddFails(OLD)),
    ("nowhere/file", Step::AddFails(OLD)),
    ("file", Step::File(OLD)),
    ("file/below", Step::LoadFails),
    ("file/below", Step::AddFails(OLD)),
    // Nothing is saved where the lock cannot be had.
    ("file.lock", Step::Folder),
    ("file", Step::AddFails(OLD)),
    ("file", Step::Loads(OLD)),
];

// Bytes that are kept behind those that are found.
#[derive(Drop)]
struct Behind<'a> {
    bytes: &'a [u8],
}

impl Keeps for Behind<'_> {
    ghost makes = { λ old found made new. made ≡ found ++ old.bytes.now };

    ghost refuses = { λ old found e new. e ≡ errors.Memory };

    fn keep_over(&mut self, alloc: Global, found: &[u8]) -> Result<Vec<u8>, RunError> {
        let mut made = Vec::from_slice(alloc, found).or(Err(RunError::Memory))?;
        made.extend_from_slice(self.bytes)
            .or(Err(RunError::Memory))?;
        Ok(made)
    }
}

// Saves bytes behind those that are found, by a store that waits for 20 milliseconds at most.
fn add(rt: &HostRuntime, path: &StatePath, bytes: &[u8]) -> Result<(), RunError> {
    FileStore::waiting(rt, 20).save(rt.alloc(), path, &mut Behind { bytes })?;
    Ok(())
}

// Whether saving is V2 while another has the lock of this name, and is not afterwards.
fn waits(rt: &HostRuntime, path: &StatePath, name: &str, bytes: &[u8]) -> bool {
    let Ok(lock) = OpenOptions::new().write(true).create(true).open(rt, name) else {
        return false;
    };
    let is_held = lock.try_lock().is_ok();
    let saved = add(rt, path, bytes);
    drop(lock);
    is_held && saved == Err(RunError::StateFile) && add(rt, path, bytes).is_ok()
}

// Whether a load has these bytes.
fn loads(rt: &HostRuntime, path: &StatePath, bytes: &[u8]) -> bool {
    let found = FileStore::new(rt).load(rt.alloc(), path);
    matches!(&found, Ok(found) if found.as_slice() == bytes)
}

// Whether more bytes than a read gives are saved, and loaded.
fn keeps_many(rt: &HostRuntime, path: &StatePath) -> Result<bool, Memory> {
    let many = vec![in rt.alloc(); 7u8; 300_000]?;
    Ok(add(rt, path, &many).is_ok() && loads(rt, path, &many))
}

// Whether a step with a store can be made, or is so.
fn is_done_with(rt: &HostRuntime, path: &StatePath, step: &Step) -> bool {
    match step {
        Step::Loads(bytes) => loads(rt, path, bytes),
        Step::LoadFails => {
            FileStore::new(rt).load(rt.alloc(), path).err() == Some(RunError::StateFile)
        }
        Step::Adds(bytes) => add(rt, path, bytes).is_ok(),
        Step::AddFails(bytes) => add(rt, path, bytes) == Err(RunError::StateFile),
        Step::AddWaits(lock, bytes) => waits(rt, path, lock, bytes),
        Step::KeepsMany => matches!(keeps_many(rt, path), Ok(true)),
        other => is_done_without(rt, path.name(), other),
    }
}

// The same of a step without a store.
fn is_done_without(rt: &HostRuntime, name: &str, step: &Step) -> bool {
    match step {
        Step::Folder => fs::create_dir(rt, name).is_ok(),
        Step::File(bytes) => fs::write(rt, name, *bytes).is_ok(),
        Step::LinkTo(file) => symlink(rt, *file, name).is_ok(),
        Step::IsLink => {
            matches!(fs::symlink_metadata(rt, name), Ok(known) if known.file_type().is_symlink())
        }
        Step::Rights(mode) => {
            fs::set_permissions(rt, name, fs::Permissions::from_mode(*mode)).is_ok()
        }
        Step::HasRights(mode) => {
            matches!(fs::metadata(rt, name), Ok(known) if known.permissions().mode() & 0o777 == *mode)
        }
        _ => false,
    }
}

// Does a step on this name in the folder, and says whether it was done.
fn is_done(rt: &HostRuntime, name: &str, step: &Step) -> Result<bool, Memory> {
    let name = format!(in rt.alloc(); "{FOLDER}/{name}")?;
    let path = StatePath::new(rt.alloc(), name.as_str())?;
    Ok(is_done_with(rt, &path, step))
}

#[test]
fn files_of_the_system_are_kept(rt: HostRuntime) -> Result<(), Fail> {
    let _ = fs::remove_dir_all(&rt, FOLDER);
    fs::create_dir(&rt, FOLDER)?;
    for (number, (name, step)) in STEPS.iter().enumerate() {
        assert!(rt; is_done(&rt, name, step)?, "step {number}, of {name}");
    }
    // Ten names of the steps, and the locks of six of them.
    let mut left: usize = 0;
    for _ in fs::read_dir(&rt, FOLDER)? {
        left = left.saturating_add(1);
    }
    fs::remove_dir_all(&rt, FOLDER)?;
    assert!(rt; left == 16, "{left} names are left");
    Ok(())
}

#[test]
fn an_empty_name_is_no_file(rt: HostRuntime) -> Result<(), Fail> {
    let path = StatePath::new(rt.alloc(), "")?;
    assert!(rt; loads(&rt, &path, b"") && add(&rt, &path, OLD) == Err(RunError::StateFile));
    Ok(())
}
