//! The board of a page, as it is opened.

ghost use Rattle.std.specs.Prelude.{◌≡◌, ◌⊎◌, ◌<◌, List, ℕ, IfOk, IfErr, IsErrOf};
ghost use Rattle.byte_devices.specs.Transfer.{IsInputOf, ReadsToEnd, most_pulls};
ghost use Rattle.byte_devices.specs.Device.{HasRisen};
ghost use Rattle.grid_core.specs.Tiles.{IsTileSide};
ghost use Rattle.page_board.specs.Keeping.{KeepsBoard, HasAllIn};
ghost use Rattle.run_faults.specs.RunError.{IsTransferFault};
ghost use Rattle.view_session.specs.Store.{AreSame, IsHeldIn};
ghost use Rattle.run_faults.specs.declared.run_error.RunError.TheVariants as errors;
ghost use Rattle.pgm_codec.specs.FirstFault.{PgmFault};
ghost use Rattle.pgm_codec.specs.Spelling.{PgmSpells};
ghost use Rattle.pgm_codec.specs.Transfer.{IsOfMemory, IsOfDevice};
ghost use Rattle.page_server.specs.Opening.{IsOpenedFrom, IsNotOpenedFrom, IsOpeningFault, IsRefusedAsAView};

use byte_devices::Source;
use edit_lang::one_meaning;
use grid_core::Conn;
use page_board::PageBoard;
use pgm_codec::{Image, PgmError, read, read_all};
use raster_sweeps::Grower;
use run_faults::RunError;
use std::alloc::Global;
use view_session::store::{StatePath, StateStore};

/// A board, and the bytes that its state file had.
#[derive(Drop)]
pub struct KeptBoard {
    /// The board: it has what the file keeps, and no more.
    pub board: PageBoard,
    /// The bytes of the file.
    pub kept: Vec<u8>,
}

/// The board of the mask that a source gives, with the strokes and tombstones that the state file of this name keeps
/// for it. The file is loaded before the source is read. The image grows by `grower`, so that no work is left.
///
/// Errors, the first that is met: V2 where the file could not be loaded, with the source as it was; P1 to P9 of what
/// the source gave; M1 to M7 of the state file; D1 where a frame of it is for another mask or connectivity; C1 or C2 at
/// the first frame that those before it do not take. P11 where the source failed or did not end; P10, M8, C4 or plain
/// want of memory. Files stay as they are.
pub fn open_board<G: Grower, S: Source, T: StateStore>(
    grower: &G,
    alloc: Global,
    source: &mut S,
    path: &StatePath,
    store: &mut T,
    conn: Conn,
    side: u32,
    run: u64,
) -> Result<KeptBoard, RunError>
    requires { IsTileSide side }
    ensures opened { IfOk result (λ opened. (input : List ℕ) × IsInputOf (S.seen source.old).remaining input
        × IsOpenedFrom conn side run opened.kept.items input opened.board) }
    ensures kept { IfOk result (λ opened. IsHeldIn (T.seen store.old).held path.now opened.kept.items
        × KeepsBoard opened.board opened.kept.items × HasAllIn opened.board opened.kept.items) }
    ensures refused { IfErr result (λ e. IsOpeningFault e ⊎ IsTransferFault e
        ⊎ ((old input : List ℕ) × IsHeldIn (T.seen store.old).held path.now old
        × IsInputOf (S.seen source.old).remaining input × IsNotOpenedFrom conn old input e)) }

    // What the source and the store tell.
    ensures read { ReadsToEnd IsOpeningFault IsTransferFault most_pulls result
        (S.seen source.old) (S.seen source.new) }
    ensures unread { IsErrOf result errors.StateFile → source.new ≡ source.old }
    ensures files { AreSame (T.seen store.old).held (T.seen store.new).held }
    ensures store { IsErrOf result errors.StateFile → HasRisen (T.seen store.old).failures (T.seen store.new).failures }
    ensures failure { (T.seen store.old).failures < (T.seen store.new).failures → IsErrOf result errors.StateFile }
{
    let kept = store.load(alloc, path)?;
    let mask = mask_from(alloc, source)?;
    match PageBoard::open_kept(grower, alloc, mask, conn, side, run, &kept) {
        Ok(board) => Ok(KeptBoard { board, kept }),
        Err(why) => Err(why),
    }
}

/// A mask's file is refused over the bytes of a state file where a view of it without strokes is, and for the same
/// reason.
pub fn refused_as_a_view()
    ensures { IsRefusedAsAView }
{
    one_meaning();
}

// The mask that a source gives, all of it.
fn mask_from<S: Source>(alloc: Global, source: &mut S) -> Result<Image, PgmError>
    ensures found { IfOk result (λ mask. (input : List ℕ) × IsInputOf (S.seen source.old).remaining input
        × PgmSpells input mask) }
    ensures fault { IfErr result (λ e. IsOfMemory e ⊎ IsOfDevice e
        ⊎ ((input : List ℕ) × IsInputOf (S.seen source.old).remaining input × PgmFault input e)) }
    ensures to_end { ReadsToEnd IsOfMemory IsOfDevice most_pulls result (S.seen source.old) (S.seen source.new) }
{
    let input = read_all(alloc, source)?;
    read(alloc, &input)
}
