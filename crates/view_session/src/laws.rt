//! Laws of views. Each is the contract of a function that does nothing: the calls in it are of laws of the crates
//! below, on which it rests.

ghost use Rattle.std.specs.Prelude.{◌≡◌, ◌++◌, [], ℕ, List};
ghost use Rattle.grid_core.specs.declared.conn.Conn.{Conn};
ghost use Rattle.pgm_codec.specs.Graymap.{Graymap};
ghost use Rattle.stroke_lattice.specs.State.{State};
ghost use Rattle.view_session.specs.Kept.{FileSpells, IsImageKept, IsKeptView, KeptIsRefused};
ghost use Rattle.view_session.specs.LowerLaws.{FileLaws, ImageLaws, ReadingLaws};
ghost use Rattle.view_session.specs.View.{InputSpells, IsView, InputIsRefused};
ghost use Rattle.run_faults.specs.declared.run_error.RunError.{RunError};

use edit_lang::one_meaning;
use grid_core::laws::{
    at_most_one_reconstruction, equal_pixels_equal_images, reach_rises_with_marker,
};
use marker_tiles::laws::at_most_one_marker;
use pgm_codec::{one_fault, one_image};
use spd_codec::{joined_files_spell_both as joined_frames_spell_both, one_file, one_file_fault};
use stroke_lattice::{at_most_one_join_of_a_list, pieces_join};

// Edit lines and image files are read in one way.
fn reading_laws()
    ensures { ReadingLaws }
{
    one_meaning();
    one_fault();
    one_image();
}

// A state shows one image on a mask.
fn image_laws()
    ensures { ImageLaws }
{
    reach_rises_with_marker();
    at_most_one_marker();
    at_most_one_reconstruction();
    equal_pixels_equal_images();
}

// State files are read in one way.
fn file_laws()
    ensures { FileLaws }
{
    one_file();
    one_file_fault();
}

/// Over an old state an input is refused for at most one reason.
pub fn one_refusal()
    ensures { (old : State) (input : List ℕ) (d e : RunError) → InputIsRefused old input d
        → InputIsRefused old input e → d ≡ e }
{
    reading_laws();
    at_most_one_join_of_a_list();
}

/// An input that is refused over an old state has no view over it.
pub fn no_view_of_a_refused_input()
    ensures { (conn : Conn) (old state : State) (input text : List ℕ) (e : RunError)
        → IsView conn old input state text → InputIsRefused old input e → ⊥ }
{
    reading_laws();
}

/// Over an old state an input has at most one view, and it shows one state.
pub fn one_view()
    ensures { (conn : Conn) (old s t : State) (input a b : List ℕ) → IsView conn old input s a
        → IsView conn old input t b → (a ≡ b) × (s ≡ t) }
{
    reading_laws();
    at_most_one_join_of_a_list();
    image_laws();
}

/// A state that is kept is shown again: over the new bytes of a state file, an input with the same mask and without
/// edits shows the same image, and keeps the same bytes.
pub fn kept_strokes_are_shown_again()
    ensures { (conn : Conn) (old input more : List ℕ) (state : State) (image : Graymap) (new : List ℕ)
        (kept : IsImageKept conn old input state image new) → InputSpells more kept.mask []
        → IsImageKept conn new more state image new }
{
    pieces_join();
}

/// Over the old bytes of a state file an input has at most one view, which leaves the file with the same bytes.
pub fn one_kept_view()
    ensures { (conn : Conn) (old input a b m n : List ℕ) → IsKeptView conn old input a m
        → IsKeptView conn old input b n → (a ≡ b) × (m ≡ n) }
{
    reading_laws();
    file_laws();
    at_most_one_join_of_a_list();
    image_laws();
}

/// Over the old bytes of a state file an input is refused for at most one reason.
pub fn one_kept_refusal()
    ensures { (conn : Conn) (old input : List ℕ) (d e : RunError) → KeptIsRefused conn old input d
        → KeptIsRefused conn old input e → d ≡ e }
{
    reading_laws();
    file_laws();
    at_most_one_join_of_a_list();
}

/// An input that is refused over the old bytes of a state file has no view over them.
pub fn no_kept_view_of_a_refused_input()
    ensures { (conn : Conn) (old input text new : List ℕ) (e : RunError) → IsKeptView conn old input text new
        → KeptIsRefused conn old input e → ⊥ }
{
    reading_laws();
    file_laws();
}

/// Two state files for one image, one behind the other, are one for it, which spells the strokes and tombstones of the
/// first and then those of the second.
pub fn joined_files_spell_both()
    ensures { (conn : Conn) (print a b : List ℕ) (kept others : List State) → FileSpells conn print a kept
        → FileSpells conn print b others → FileSpells conn print (a ++ b) (kept ++ others) }
{
    joined_frames_spell_both();
}
