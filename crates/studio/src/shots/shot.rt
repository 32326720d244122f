//! Shots.

ghost use Rattle.std.specs.Prelude.{◌≡◌};
ghost use Rattle.std.specs.Arc.{arc_value};
ghost use Rattle.grid_core.specs.Raster.{IsInside, value_at};
ghost use Rattle.studio.specs.Shots.{HasOneSize};

use grid_core::{Conn, Grid, Pixel};
use std::marker::Model;
use std::sync::Arc;
use stroke_lattice::State;

/// What a core shows of itself at a moment: mask, connectivity, strokes and image, and whether it is marked as quiet.
/// Contracts see it as these five values. It never changes. Mask, strokes and image may be shared with other shots.
#[derive(Drop)]
pub struct Shot {
    mask: Arc<Grid>,
    conn: Conn,
    state: Arc<State>,
    image: Arc<Grid>,
    quiet: bool,
}

impl Model for Shot {
    ghost use Rattle.std.specs.Arc.{arc_value};
    ghost use Rattle.stroke_core.specs.contracts.stroke.Stroke as stroke;
    ghost use Rattle.studio.specs.Shots.{Shot as Data, HasOneSize};
    ghost use Rattle.studio.specs.Stored.{shot_code};

    ghost Value = { Data };

    ghost coded = { shot_code stroke.the_row.coded };

    ghost view = { λ s. record {
      mask = arc_value s.mask;
      conn = s.conn;
      state = arc_value s.state;
      image = arc_value s.image;
      quiet = s.quiet;
    } };

    ghost invariant = { λ s. HasOneSize (arc_value s.mask) (arc_value s.image) };
}

impl Shot {
    /// A shot. It takes no memory. To share its parts with other shots, keep a second `Arc` of each.
    pub fn new(
        mask: Arc<Grid>,
        conn: Conn,
        state: Arc<State>,
        image: Arc<Grid>,
        quiet: bool,
    ) -> Shot
        requires { HasOneSize (arc_value mask) (arc_value image) }
        ensures { result ≡ record {
          mask = arc_value mask;
          conn = conn;
          state = arc_value state;
          image = arc_value image;
          quiet = quiet;
        } }
    {
        Shot {
            mask,
            conn,
            state,
            image,
            quiet,
        }
    }

    /// The mask.
    pub fn mask(&self) -> &Arc<Grid>
        ensures { arc_value result.now ≡ self.now.mask }
    {
        &self.mask
    }

    /// Which pixels are neighbours.
    pub fn conn(&self) -> Conn
        ensures { result ≡ self.now.conn }
    {
        self.conn
    }

    /// The strokes and tombstones.
    pub fn state(&self) -> &Arc<State>
        ensures { arc_value result.now ≡ self.now.state }
    {
        &self.state
    }

    /// The image. It has the size of the mask.
    pub fn image(&self) -> &Arc<Grid>
        ensures value { arc_value result.now ≡ self.now.image }
        ensures size { HasOneSize self.now.mask self.now.image }
    {
        &self.image
    }

    /// Whether the shot is marked as quiet: then its image is the reconstruction.
    pub fn is_quiet(&self) -> bool
        ensures { result ≡ self.now.quiet }
    {
        self.quiet
    }

    /// The image at a pixel.
    pub fn pixel(&self, p: Pixel) -> u16
        requires { IsInside self.now.mask.width self.now.mask.height p }
        ensures { result ≡ value_at self.now.image p }
    {
        let image = &self.image;
        image.get(p)
    }
}
