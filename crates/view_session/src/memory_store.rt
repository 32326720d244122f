//! State files in memory.

ghost use Rattle.std.specs.Prelude.{◌≡◌, ◌↔◌, Some, IsTrue, IfOk, OnOk, OnErr};
ghost use Rattle.view_session.specs.MemoryFiles.{MemoryFiles, IsCalled, IsChosen, IsNotPut, IsPut, LoadsMemory};
ghost use Rattle.view_session.specs.MemoryFiles.{SavesMemory, files_seen, held_by, no_files};

use crate::store::{Keeps, StatePath, StateStore};
use byte_devices::count_one;
use grid_core::Memory;
use run_faults::RunError;
use std::alloc::Global;
use std::collections::BTreeMap;

/// A store of files in memory. One chosen call of it can be made to fail. A save that finds no memory fails, too.
#[derive(Drop)]
pub struct MemoryStore {
    alloc: Global,
    files: BTreeMap<String, Vec<u8>>,
    fails_at: Option<u64>,
    calls: u64,
    failures: u64,
}

/// What contracts see of a store in memory beside what they see of every store.
pub trait InMemory {
    // What its files hold, the call that fails, and the counts.
    ghost files: { Self → MemoryFiles };
}

impl InMemory for MemoryStore {
    ghost files = { λ s. record {
      held = held_by s.files;
      fails_at = s.fails_at;
      calls = s.calls;
      failures = s.failures;
    } };
}

impl MemoryStore {
    /// A store without files. None of its calls is chosen to fail.
    pub fn new(alloc: Global) -> MemoryStore
        ensures { ⟦<MemoryStore as InMemory>⟧.files result ≡ no_files }
    {
        MemoryStore {
            alloc,
            files: BTreeMap::new(alloc),
            fails_at: None,
            calls: 0,
            failures: 0,
        }
    }

    /// The same, with a file of this name and these bytes in the place of the one of that name.
    ///
    /// Errors: out of memory.
    pub fn with_file(self, path: &StatePath, bytes: &[u8]) -> Result<MemoryStore, Memory>
        ensures { IfOk result (λ store. IsPut (⟦<MemoryStore as InMemory>⟧.files self)
            (⟦<MemoryStore as InMemory>⟧.files store) path.now bytes.now) }
    {
        let mut store = self;
        store.put(path, bytes)?;
        Ok(store)
    }

    /// The same, where the call of this number fails, counted from 1.
    pub fn failing_at(self, call: u64) -> MemoryStore
        ensures { ⟦<MemoryStore as InMemory>⟧.files result
            ≡ record (⟦<MemoryStore as InMemory>⟧.files self) { fails_at = Some call } }
    {
        MemoryStore {
            fails_at: Some(call),
            ..self
        }
    }

    /// The bytes of the file of this name, and none where there is no such file.
    pub fn file(&self, path: &StatePath) -> &[u8]
        ensures { (⟦<MemoryStore as InMemory>⟧.files self.now).held path.now ≡ Some result.now }
    {
        match self.files.get(path.name()) {
            Some(bytes) => bytes,
            None => &[],
        }
    }

    // Puts the bytes in the place of the file of this name.
    fn put(&mut self, path: &StatePath, bytes: &[u8]) -> Result<(), Memory>
        ensures put { OnOk result (IsPut (⟦<MemoryStore as InMemory>⟧.files self.old)
            (⟦<MemoryStore as InMemory>⟧.files self.new) path.now bytes.now) }
        ensures kept { OnErr result (IsNotPut (⟦<MemoryStore as InMemory>⟧.files self.old)
            (⟦<MemoryStore as InMemory>⟧.files self.new)) }
    {
        let name = String::from_str(self.alloc, path.name())?;
        let copy = Vec::from_slice(self.alloc, bytes)?;
        match self.files.insert(name, copy) {
            Ok(_) => Ok(()),
            Err(_) => Err(Memory),
        }
    }

    // Counts a call, and answers whether it is the one that is chosen to fail.
    fn fails_now(&mut self) -> bool
        ensures counted { IsCalled (⟦<MemoryStore as InMemory>⟧.files self.old)
            (⟦<MemoryStore as InMemory>⟧.files self.new) }
        ensures chosen { IsTrue result ↔ IsChosen (⟦<MemoryStore as InMemory>⟧.files self.old)
            (⟦<MemoryStore as InMemory>⟧.files self.new) }
    {
        count_one(&mut self.calls);
        self.fails_at == Some(self.calls)
    }
}

impl StateStore for MemoryStore {
    ghost seen = { λ s. files_seen (⟦<MemoryStore as InMemory>⟧.files s) };

    fn load(&mut self, alloc: Global, path: &StatePath) -> Result<Vec<u8>, RunError>
        ensures { LoadsMemory (λ v. v.items) (⟦<MemoryStore as InMemory>⟧.files self.old)
            (⟦<MemoryStore as InMemory>⟧.files self.new) result path.now }
    {
        if self.fails_now() {
            count_one(&mut self.failures);
            return Err(RunError::StateFile);
        }
        match Vec::from_slice(alloc, self.file(path)) {
            Ok(bytes) => Ok(bytes),
            Err(_) => Err(RunError::Memory),
        }
    }

    fn save<J: Keeps>(
        &mut self,
        alloc: Global,
        path: &StatePath,
        keeper: &mut J,
    ) -> Result<Vec<u8>, RunError>
        ensures { SavesMemory J.makes J.refuses (λ v. v.items) (⟦<MemoryStore as InMemory>⟧.files self.old)
            (⟦<MemoryStore as InMemory>⟧.files self.new) keeper.old keeper.new result path.now }
    {
        if self.fails_now() {
            count_one(&mut self.failures);
            return Err(RunError::StateFile);
        }
        let made = keeper.keep_over(alloc, self.file(path))?;
        match self.put(path, &made) {
            Ok(()) => Ok(made),
            Err(_) => {
                count_one(&mut self.failures);
                Err(RunError::StateFile)
            }
        }
    }
}
