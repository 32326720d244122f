//! Cases: calls of a session on inputs, and how they end.

use byte_devices::{MemorySink, MemorySource};
use grid_core::{Conn, Memory};
use run_faults::{RunError, fault_line, status};
use std::alloc::Global;
use std::test::Fail;
use view_session::derive::{Derivation, derive_run};
use view_session::memory_store::MemoryStore;
use view_session::store::StatePath;
use view_session::stored::view_stored;
use view_session::view::{view_kept, view_run};

/// A mask of one row, behind its line `image`.
pub const ROW: &str = "image\nP2\n5 1\n9\n3 5 2 5 4\n";

/// What is called.
#[derive(Clone, Copy)]
pub enum Call {
    /// A view.
    View,
    /// A view over a state file, for tiles of this side.
    Kept(u32),
    /// A view over a state file in a store.
    Stored,
    /// This derivation, for this h.
    Derive(Derivation, u16),
}

/// A case: what it shows; a call, the connectivity, and the state file before, which stays so where the call ends in a
/// fault. The lines of edits, with a `/` between them and `#1` for the tag 1, and what stands behind them in the input.
/// How many bytes source and sink pass on at most, and the pull and the put that fail, counted from 1; at 0 none fails.
/// The status of the fault and its line behind the program's name, or 0; what is written; and the state file after.
#[derive(Clone, Copy)]
pub struct Case {
    pub name: &'static str,
    pub call: Call,
    pub conn: Conn,
    pub old: &'static [u8],
    pub edits: &'static str,
    pub behind: &'static str,
    pub piece: usize,
    pub pull: u64,
    pub put: u64,
    pub fault: (u8, &'static str),
    pub written: &'static [u8],
    pub new: &'static [u8],
}

/// A view of no edits on the row, from which other cases are made.
pub const ON_ROW: Case = Case {
    name: "nothing is placed",
    call: Call::View,
    conn: Conn::Four,
    old: b"",
    edits: "",
    behind: ROW,
    piece: 3,
    pull: 0,
    put: 0,
    fault: (0, ""),
    written: b"",
    new: b"",
};

/// What a call is made on.
#[derive(Drop)]
pub struct Scene {
    source: MemorySource,
    pub sink: MemorySink,
    path: StatePath,
    store: MemoryStore,
}

/// A text with the tags spelled that stand in it as `#1`, `#2` and so on.
pub fn with_tags(alloc: Global, text: &str) -> Result<String, Memory> {
    Ok(text.replace(alloc, '#', "00000000-0000-0000-0000-00000000000")?)
}

/// Whether a fault is told by this status and this line, of which the program's name is left out.
pub fn is_told(alloc: Global, error: &RunError, told: (u8, &str)) -> Result<bool, Memory> {
    let line = fault_line(alloc, error)?;
    let code = with_tags(alloc, told.1)?;
    let is_line = line.as_str().strip_prefix("seedpaint: ") == Some(code.as_str());
    Ok(is_line && status(error) == told.0)
}

impl Case {
    pub fn input(&self, alloc: Global) -> Result<Vec<u8>, Memory> {
        let mut input = with_tags(alloc, self.edits)?.replace(alloc, '/', "\n")?;
        if !self.edits.is_empty() {
            input.push('\n')?;
        }
        input.push_str(self.behind)?;
        Ok(input.into_bytes())
    }

    /// What the call is made on.
    pub fn scene(&self, alloc: Global) -> Result<Scene, Memory> {
        let input = self.input(alloc)?;
        let path = StatePath::new(alloc, "strokes")?;
        let store = MemoryStore::new(alloc).with_file(&path, self.old)?;
        Ok(Scene {
            source: MemorySource::new(input)
                .in_pieces(self.piece.max(1))
                .failing_at(self.pull),
            sink: MemorySink::new(alloc)
                .in_pieces(self.piece.max(1))
                .failing_at(self.put),
            path,
            store,
        })
    }

    /// Makes the call: the new bytes of the state file, if it has one.
    pub fn makes(&self, alloc: Global, scene: &mut Scene) -> Result<Vec<u8>, RunError> {
        let source = &mut scene.source;
        let sink = &mut scene.sink;
        match self.call {
            Call::View => view_run(alloc, source, self.conn, sink)?,
            Call::Kept(side) => return view_kept(alloc, source, self.old, self.conn, side, sink),
            Call::Stored => {
                let (path, store) = (&scene.path, &mut scene.store);
                view_stored(alloc, source, self.conn, 64, path, store, sink)?;
                let new = Vec::from_slice(alloc, scene.store.file(&scene.path));
                return new.or(Err(RunError::Memory));
            }
            Call::Derive(kind, h) => derive_run(alloc, source, kind, h, self.conn, sink)?,
        }
        Ok(Vec::new(alloc))
    }

    // Makes the call, once more where there was no memory or no device for it and all is as before.
    fn makes_again(&self, alloc: Global, scene: &mut Scene) -> Result<Vec<u8>, RunError> {
        let made = self.makes(alloc, scene);
        if matches!(&made, Err(fault) if status(fault) == 3) && self.is_as_before(scene) {
            *scene = self.scene(alloc)?;
            return self.makes(alloc, scene);
        }
        made
    }

    // Whether the state file is as before, and nothing is written but what a sink without memory took.
    fn is_as_before(&self, scene: &Scene) -> bool {
        let written = scene.sink.written();
        let is_front = self.written.starts_with(written) && scene.sink.refused() > 0;
        (written.is_empty() || is_front) && scene.store.file(&scene.path) == self.old
    }

    // Whether what is made on a scene is what the case says.
    fn is_so(
        &self,
        alloc: Global,
        scene: &Scene,
        made: &Result<Vec<u8>, RunError>,
    ) -> Result<bool, Memory> {
        let is_told = match made {
            Ok(new) => self.fault.0 == 0 && new.as_slice() == self.new,
            Err(error) => {
                scene.store.file(&scene.path) == self.old && is_told(alloc, error, self.fault)?
            }
        };
        Ok(is_told && scene.sink.written() == self.written)
    }
}

/// Plays a case, once more where it ended for want of memory and left all as before. It fails if it is not so.
pub fn play(alloc: Global, case: &Case) -> Result<(), Fail> {
    let Ok(mut scene) = case.scene(alloc) else {
        return Err(Fail::new("no memory to begin with"));
    };
    let made = case.makes_again(alloc, &mut scene);
    let is_so = case.is_so(alloc, &scene, &made);
    drop(made);
    drop(scene);
    if is_so? {
        Ok(())
    } else {
        Err(Fail::new(format_args!("{}: {}", case.name, case.edits)))
    }
}

/// Plays each case so. It fails at the first that is not so.
pub fn play_all(alloc: Global, cases: &[Case]) -> Result<(), Fail> {
    for case in cases {
        play(alloc, case)?;
    }
    Ok(())
}
