//! A world of replicas, what happens to it, line by line, and what its replicas show then.

ghost use Rattle.std.specs.Prelude.{⊤};

use crate::pictures::{Mask, are_cells, are_tiles, image_of};
use crate::played::Stage;
use crate::states::state_of;
use crate::sums::{START, with, with_core};
use grid_core::Conn;
use replica_world::{Event, World, WorldError};
use reset_core::CoreError;
use std::alloc::Global;
use std::marker::Model;
use stroke_core::Tag;

/// What happens, or what is shown, by each replica where nothing else is said. The first number of an event names its
/// replica.
pub enum Line {
    /// The join of these edits is merged.
    Edit(usize, &'static str),
    Send(usize, usize),
    Deliver(usize, usize),
    Take(usize, usize),
    Return(usize, usize),
    /// A run of these events refuses that of this number alone, since it names nothing. Where memory is wanting, the
    /// rest of them is run from there on, once.
    Run(&'static [Line], usize),
    /// The work of each replica is brought to its end.
    Settle,
    /// All replicas hold the same strokes, are quiet, and show the same.
    Agree,
    /// The replicas took so many deltas each.
    Took(&'static [usize]),
    Results(usize),
    /// The job of this result was of this generation.
    ResultOf(usize, u64),
    /// The image has these values, each so often.
    Image(&'static [(usize, u16)]),
    /// Exactly these tiles were reset, once, exactly these are to be swept, and none is out.
    Tiles(&'static [usize], &'static [usize]),
    /// The stroke of this tag is not live.
    Dead(u128),
}

// The event of a line, where there is memory. Of a line that is none there is no event.
fn event_of(alloc: Global, line: &Line) -> Option<Event> {
    match line {
        Line::Edit(r, edits) => Some(Event::Edit(*r, state_of(alloc, edits)?)),
        Line::Send(r, part) => Some(Event::Send(*r, *part)),
        Line::Deliver(r, packet) => Some(Event::Deliver(*r, *packet)),
        Line::Take(r, tile) => Some(Event::Take(*r, *tile)),
        Line::Return(r, place) => Some(Event::Return(*r, *place)),
        _ => None,
    }
}

/// A world.
#[derive(Drop)]
pub struct WorldStage {
    alloc: Global,
    world: Box<World>,
}

impl Model for WorldStage {
    ghost Value = { ⊤ };

    ghost view = { λ _. tt };
}

impl WorldStage {
    /// A world of so many replicas of a mask, under four neighbours.
    pub fn open(alloc: Global, mask: &Mask<'_>, replicas: usize) -> Option<WorldStage> {
        let mask = image_of(alloc, mask)?;
        let world = World::open(alloc, &mask, Conn::Four, replicas);
        drop(mask);
        let world = Box::new(alloc, world.ok()?).ok()?;
        Some(WorldStage { alloc, world })
    }

    // Whether an event comes to pass. It happens once more where memory was wanting, and all is as before.
    fn happens(&mut self, event: Event) -> bool {
        let before = self.sum();
        match self.world.step(self.alloc, &event) {
            Err(WorldError::Core(CoreError::Memory)) if self.sum() == before => {
                self.world.step(self.alloc, &event).is_ok()
            }
            told => told.is_ok(),
        }
    }

    fn runs(&mut self, events: &[Event], refused: usize) -> bool {
        let mut done: usize = 0;
        for _ in 0..2 {
            let rest = match events.get(done..) {
                Some(rest) => rest,
                None => return false,
            };
            let ran = self.world.run(self.alloc, rest);
            let wanted = [(refused.saturating_sub(done), WorldError::NoSuch)];
            done = done.saturating_add(self.world.steps());
            if let Ok(refusals) = ran {
                return done == events.len() && refusals.as_slice() == wanted.as_slice();
            }
        }
        false
    }

    fn runs_lines(&mut self, lines: &[Line], refused: usize) -> Option<bool> {
        let mut events = Vec::new(self.alloc);
        for line in lines {
            events.push(event_of(self.alloc, line)?).ok()?;
        }
        Some(self.runs(&events, refused))
    }

    // Hands over ten hints of a tile, and takes it and gives the result back, where there is so much.
    fn work(&mut self, r: usize, tile: usize) {
        for _ in 0..10 {
            let _is_handed = self.happens(Event::Hand(r, tile, 0));
        }
        let place = self.world.results().len();
        if self.happens(Event::Take(r, tile)) {
            let _is_given_back = self.happens(Event::Return(r, place));
        }
    }

    // Brings the work of each replica to its end, for which some rounds over three tiles are enough here.
    fn settle(&mut self) {
        for r in 0..self.world.replicas() {
            for round in 0..24 {
                self.work(r, round % 3);
            }
        }
    }

    fn agree(&self) -> bool {
        for r in 0..self.world.replicas() {
            let (core, first) = (self.world.core(r), self.world.core(0));
            let is_same = core.state().is_same(first.state());
            if !is_same || !core.is_quiet() || !core.image().is_same(first.image()) {
                return false;
            }
        }
        true
    }

    fn shows(&self, r: usize, line: &Line) -> bool {
        if r >= self.world.replicas() {
            return false;
        }
        let core = self.world.core(r);
        match line {
            Line::Took(counts) => counts.get(r) == Some(&self.world.took(r).len()),
            Line::Results(count) => self.world.results().len() == *count,
            Line::ResultOf(place, generation) => match self.world.results().get(*place) {
                Some(swept) => swept.ticket().generation == *generation,
                None => false,
            },
            Line::Image(pixels) => are_cells(core.image().cells(), pixels),
            Line::Tiles(reset, dirty) => are_tiles(core, reset, dirty),
            Line::Dead(tag) => !core.state().is_live(Tag(*tag)),
            _ => false,
        }
    }
}

impl Stage<Line> for WorldStage {
    fn sum(&self) -> u64 {
        let mut sum = with(START, self.world.packets() as u64);
        sum = with(sum, self.world.results().len() as u64);
        for r in 0..self.world.replicas() {
            sum = with_core(sum, self.world.core(r));
            sum = with(sum, self.world.took(r).len() as u64);
        }
        sum
    }

    fn play(&mut self, line: &Line) -> Option<bool> {
        match line {
            Line::Run(lines, refused) => self.runs_lines(lines, *refused),
            Line::Settle => {
                self.settle();
                Some(true)
            }
            Line::Agree => Some(self.agree()),
            Line::Edit(..)
            | Line::Send(..)
            | Line::Deliver(..)
            | Line::Take(..)
            | Line::Return(..) => {
                let event = event_of(self.alloc, line)?;
                Some(self.happens(event))
            }
            _ => Some((0..self.world.replicas()).all(|r| self.shows(r, line))),
        }
    }
}
