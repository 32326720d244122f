//! Jobs that are abandoned, and tiles that are passed over.

ghost use Rattle.std.specs.Prelude.{◌≡◌, ◌+◌, ◌-◌, ◌%◌, ◌^◌, ◌<◌, ◌≤◌, IfSome, length};
ghost use Rattle.core_rules.specs.Runs.{IsRun, NoneOut, abandoned, tickets_out};
ghost use Rattle.core_rules.specs.Sweeps.{IsAbandoned, IsReady};
ghost use Rattle.reset_core.specs.Settling.{IsFirstAbandoned};
ghost use Rattle.tiled_core.specs.Passing.{ArePassed, ArePassedUntil};

use super::TiledCore;
use core_rules::laws::abandon_keeps_sound;
use tile_generations::Ticket;

impl TiledCore {
    /// Abandons a job that is out: the tile is then not out, and dirty. It says whether the job was out. It takes no
    /// memory.
    pub fn abandon(&mut self, ticket: Ticket) -> bool
        ensures { IsAbandoned self.old ticket result self.new }
    {
        abandon_keeps_sound();
        let was_out = self.has_out(ticket);
        if was_out {
            let tiling = self.markers.tiling();
            self.beside.leave(&tiling, ticket.tile);
            self.work.abandon(ticket.tile);
        }
        was_out
    }

    /// Passes over the tiles that can be taken, from `from` on, up to the least that no tile touches of which a job is
    /// out, and says which that is. None where there is none; all from there on are passed over then. A tile is passed
    /// over as if its job were taken and abandoned at once: a serial is spent, and the tile is as it was.
    ///
    /// It costs a step for 64 tiles, and takes no memory.
    pub fn pass_over(&mut self, from: usize) -> Option<usize>
        ensures { ArePassedUntil from result self.old self.new }
    {
        let next = self.next_apart(from);
        let end = match next {
            Some(tile) => tile,
            None => self.tiles(),
        };
        self.pass_over_all(from, end);
        next
    }

    // Passes over the tiles from `from` on and before `to` that can be taken.
    fn pass_over_all(&mut self, from: usize, to: usize)
        requires { to ≤ length self.old.tiles }
        ensures passed { ArePassed from (to - from) self.old self.new }
        ensures tiles { self.new.tiles ≡ self.old.tiles }
    {
        let passed = self.work.count_ready(from, to);
        let serial = later_serial(self.serial, passed);
        self.serial = serial;
    }

    // The least tile, from `from` on, that can be taken and that no tile touches of which a job is out.
    fn next_apart(&mut self, from: usize) -> Option<usize>
        ensures ready { IfSome result (λ t. (from ≤ t) × IsReady self.old t) }
        ensures same { self.new ≡ self.old }
    {
        let tiling = self.markers.tiling();
        self.beside.renew(&tiling, &self.work);
        self.work.next_ready_outside(self.beside.tiles(), from)
    }

    /// Abandons each job that is out, tile by tile, and says how many there were. It takes no memory.
    pub fn abandon_all(&mut self) -> u64
        ensures clears { IsRun self.old (abandoned (tickets_out 0 self.old.tiles)) self.new }
        ensures none_out { NoneOut self.new }
        ensures count { result ≡ length (tickets_out 0 self.old.tiles) }
    {
        // For its clause alone: there are no more tiles than a `usize` counts.
        let _ = self.tiles();
        let mut abandons = 0;
        while self.abandon_first() {
            abandons += 1;
        }
        abandons
    }

    // Abandons the first job that is out, and says whether there was one.
    fn abandon_first(&mut self) -> bool
        ensures first { IsFirstAbandoned self.old result self.new }
        ensures few { length (tickets_out 0 self.old.tiles) ≤ length self.old.tiles }
    {
        match self.work.first_out() {
            Some(tile) => {
                let tiling = self.markers.tiling();
                self.beside.leave(&tiling, tile);
                self.work.abandon(tile);
                true
            }
            None => false,
        }
    }
}

// The serial that comes so many after this one.
fn later_serial(serial: u64, count: usize) -> u64
    ensures value { result ≡ (serial + count) % 2 ^ 64 }
    ensures fits { serial < 2 ^ 64 }
{
    serial.wrapping_add(count as u64)
}
