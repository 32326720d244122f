//! The files of the system as a store.
//!
//! Programs that save in one file take turns: each locks a file beside it, with `.lock` behind the name, by flock(2).
//! So a lock ends with its process. The file that is locked stays, and has no bytes.

ghost use Rattle.std.specs.Prelude.{◌≡◌, ◌⊎◌, None, IfErr};
ghost use Rattle.byte_devices.specs.Device.{count_after};
ghost use Rattle.view_session.specs.Store.{StoreSeen};
ghost use Rattle.run_faults.specs.declared.run_error.RunError.TheVariants as errors;

use crate::places::Places;
use crate::replacing::{replace, sync_folder};
use crate::store::{Keeps, StatePath, StateStore};
use byte_devices::{StdSource, TransferError, count_one, read_all};
use run_faults::RunError;
use std::alloc::Global;
use std::fs::{File, OpenOptions};
use std::io::{self, ErrorKind};
use std::random::RandomSource;
use std::rt::Files;
use std::thread;
use std::time::{Clock, Duration};

// How long to wait for a lock in milliseconds, where nothing else is said.
const PATIENCE: u32 = 10_000;

/// The files of the system, as a store. What they hold is not known, since other programs change them, too.
///
/// A save waits at most so many milliseconds until no other program is in the middle of one. It follows a link to the
/// file that the link leads to, keeps mode, owner and group of the file as far as the process may, and returns when
/// both the file and its name are on the disk. A file that may not be written is not replaced either.
#[derive(Drop)]
pub struct FileStore<'a, R: Files<File = File> + Clock + RandomSource> {
    system: &'a R,
    patience: u32,
    failures: u64,
}

impl<'a, R: Files<File = File> + Clock + RandomSource> FileStore<'a, R> {
    /// These files as a store, which has not failed. A save waits ten seconds for others at most.
    pub fn new(system: &'a R) -> FileStore<'a, R>
        ensures { ⟦<FileStore<'a, R> as StateStore>⟧.seen result ≡ record { held = λ name. None; failures = 0 } }
    {
        FileStore::waiting(system, PATIENCE)
    }

    /// The same, where a save waits for others so many milliseconds at most.
    pub fn waiting(system: &'a R, patience: u32) -> FileStore<'a, R>
        ensures { ⟦<FileStore<'a, R> as StateStore>⟧.seen result ≡ record { held = λ name. None; failures = 0 } }
    {
        FileStore {
            system,
            patience,
            failures: 0,
        }
    }

    // The error of a save or load that failed so: V2 is counted.
    fn counted(&mut self, why: RunError) -> RunError
        ensures same { result ≡ why }
        ensures counted { why ≡ errors.StateFile → self.new.failures ≡ count_after self.old.failures 1 }
        ensures uncounted { (why ≡ errors.StateFile → ⊥) → self.new.failures ≡ self.old.failures }
    {
        if let RunError::StateFile = why {
            count_one(&mut self.failures);
        }
        why
    }

    // The bytes of the file of a name, which is locked for this program. Others wait until the lock is let go.
    fn locked(&self, alloc: Global, name: &str) -> Result<Locked, RunError>
        ensures { IfErr result (λ e. (e ≡ errors.StateFile) ⊎ (e ≡ errors.Memory)) }
    {
        let Ok(places) = Places::of(self.system, alloc, name) else {
            return Err(RunError::StateFile);
        };
        let Ok(lock) = lock(self.system, &places.lock, self.patience) else {
            return Err(RunError::StateFile);
        };
        let found = load_file(alloc, self.system, &places.file)?;
        Ok(Locked {
            places,
            lock,
            found,
        })
    }
}

// A state file while no other program saves in it.
#[derive(Drop)]
struct Locked {
    places: Places,
    lock: File,
    found: Vec<u8>,
}

impl Locked {
    // Puts these bytes in the place of those that were found, and lets the lock go. Where the file has them already,
    // its name is brought to the disk alone, since the program that wrote them may have been cut off before it did so.
    fn replace<R: Files>(self, files: &R, made: &[u8]) -> Result<(), RunError>
        ensures { IfErr result (λ e. e ≡ errors.StateFile) }
    {
        let is_there = !made.is_empty() && self.found.as_slice() == made;
        let done = if is_there {
            sync_folder(files, &self.places.folder)
        } else {
            replace(files, &self.places, made)
        };
        match done {
            Ok(()) => Ok(()),
            Err(_) => Err(RunError::StateFile),
        }
    }
}

// All bytes of the file of this name, and none where there is no such file.
fn load_file<R: Files>(alloc: Global, files: &R, name: &str) -> Result<Vec<u8>, RunError>
    ensures { IfErr result (λ e. (e ≡ errors.StateFile) ⊎ (e ≡ errors.Memory)) }
{
    let file = match File::open(files, name) {
        Ok(file) => file,
        Err(e) if e.kind() == ErrorKind::NotFound => return Ok(Vec::new(alloc)),
        Err(_) => return Err(RunError::StateFile),
    };
    let mut source = StdSource::new(file);
    match read_all(alloc, &mut source) {
        Ok(bytes) => Ok(bytes),
        Err(TransferError::Memory) => Err(RunError::Memory),
        Err(TransferError::Device) => Err(RunError::StateFile),
    }
}

// The file that is locked, as it is there or made. Who may only read it may lock it, too.
fn open_lock<R: Files<File = File>>(files: &R, name: &str) -> io::Result<File> {
    match OpenOptions::new()
        .write(true)
        .create(true)
        .open(files, name)
    {
        Err(e) if e.kind() == ErrorKind::PermissionDenied => File::open(files, name),
        opened => opened,
    }
}

// The file of this name, locked against all who lock it, too.
//
// Errors: it could not be opened or locked, or others had it for so many milliseconds.
fn lock<R: Files<File = File> + Clock>(system: &R, name: &str, patience: u32) -> io::Result<File> {
    let file = open_lock(system, name)?;
    for _ in 0..patience {
        match file.try_lock() {
            Ok(()) => return Ok(file),
            Err(why) => {
                let error = io::Error::from(why);
                if error.kind() != ErrorKind::WouldBlock {
                    return Err(error);
                }
            }
        }
        thread::sleep(system, Duration::from_millis(1));
    }
    Err(ErrorKind::TimedOut.into())
}

impl<R: Files<File = File> + Clock + RandomSource> StateStore for FileStore<'_, R> {
    ghost seen = { λ s. record { held = λ name. None; failures = s.failures } };

    fn load(&mut self, alloc: Global, path: &StatePath) -> Result<Vec<u8>, RunError> {
        match load_file(alloc, self.system, path.name()) {
            Ok(bytes) => Ok(bytes),
            Err(why) => Err(self.counted(why)),
        }
    }

    fn save<J: Keeps>(
        &mut self,
        alloc: Global,
        path: &StatePath,
        keeper: &mut J,
    ) -> Result<Vec<u8>, RunError> {
        let locked = match self.locked(alloc, path.name()) {
            Ok(locked) => locked,
            Err(why) => return Err(self.counted(why)),
        };
        let made = keeper.keep_over(alloc, &locked.found)?;
        match locked.replace(self.system, &made) {
            Ok(()) => Ok(made),
            Err(why) => Err(self.counted(why)),
        }
    }
}
