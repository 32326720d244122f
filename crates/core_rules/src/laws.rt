//! Laws of one replica's core. Each is the contract of a function that does nothing.

ghost use Rattle.core_rules.specs.Laws.{SupportedIsLawful, HandKeepsSound, TakeKeepsSound, AbandonKeepsSound};
ghost use Rattle.core_rules.specs.Laws.{GiveBackKeepsSound, MergeKeepsSound, SoundIsLawful, QuietIsReconstruction};
ghost use Rattle.core_rules.specs.Laws.{EventKeepsSound, RunKeepsSound, SettlingIsARun, CutShortIsARun};
ghost use Rattle.core_rules.specs.Laws.{RunsFollow};
ghost use Rattle.core_rules.specs.Laws.{ScheduleIsARun, OpenedIsSound, OpenedIsQuiet, HitTilesAdvance};
ghost use Rattle.core_rules.specs.Laws.{OtherTilesStay, OtherTilesRise, NoDeathHitsNone, ScheduleJoins};
ghost use Rattle.core_rules.specs.Laws.{AcceptedAreEdits, MergedIsAcceptable, RefusedIsNotAcceptable, OneRefusal};
ghost use Rattle.core_rules.specs.Laws.{OneSuccessor, SweptInPlaceIsWorkedOff, WorkGoesOn};
ghost use Rattle.core_rules.specs.Laws.{OneDebt, QuietOwesNothing, RunIsWithinWork, ScheduleIsWithinWork};
ghost use Rattle.core_rules.specs.Laws.{SettlingIsWithinWork, OneJobOutATile};
ghost use Rattle.core_rules.specs.Laws.{SettlingSoFarIsWithinWork, SettlingGoesOn};
ghost use Rattle.core_rules.specs.Laws.{MergeChangesDirtyTiles, RunChangesFewTiles};
ghost use Rattle.core_rules.specs.Laws.{SettlingChangesFewTiles, CutShortChangesFewTiles};
ghost use Rattle.core_rules.specs.Laws.{TakenDeltasAreJoined, TakenDeltasKeepTheMask};

use border_queues::laws::edges_are_open;

/// A supported image is lawful.
pub fn supported_is_lawful()
    ensures { SupportedIsLawful }
{}

/// Handing over a hint keeps a core sound.
pub fn hand_keeps_sound()
    ensures { HandKeepsSound }
{}

/// Taking a tile keeps a core sound.
pub fn take_keeps_sound()
    ensures { TakeKeepsSound }
{}

/// Abandoning a job keeps a core sound.
pub fn abandon_keeps_sound()
    ensures { AbandonKeepsSound }
{}

/// Giving back a swept tile keeps a core sound.
pub fn give_back_keeps_sound()
    ensures { GiveBackKeepsSound }
{
    edges_are_open();
}

/// Taking a delta keeps a core sound.
pub fn merge_keeps_sound()
    ensures { MergeKeepsSound }
{}

/// A sound core has a lawful image.
pub fn sound_is_lawful()
    ensures { SoundIsLawful }
{}

/// Where a sound core is quiet, its image is the reconstruction.
pub fn quiet_is_reconstruction()
    ensures { QuietIsReconstruction }
{}

/// Each event keeps a core sound.
pub fn event_keeps_sound()
    ensures { EventKeepsSound }
{
    edges_are_open();
}

/// Each list of events keeps a core sound.
pub fn run_keeps_sound()
    ensures { RunKeepsSound }
{
    edges_are_open();
}

/// Events that come after other events are one list of events with them.
pub fn runs_follow()
    ensures { RunsFollow }
{}

/// Settling is a list of events.
pub fn settling_is_a_run()
    ensures { SettlingIsARun }
{}

/// Settling that ended for want of memory is a list of events.
pub fn cut_short_is_a_run()
    ensures { CutShortIsARun }
{}

/// The steps of a schedule make a list of events.
pub fn schedule_is_a_run()
    ensures { ScheduleIsARun }
{}

/// A core as it is opened is sound.
pub fn opened_is_sound()
    ensures { OpenedIsSound }
{}

/// A core as it is opened is quiet.
pub fn opened_is_quiet()
    ensures { OpenedIsQuiet }
{}

/// A merge advances the generation of each tile that is hit.
pub fn hit_tiles_advance()
    ensures { HitTilesAdvance }
{}

/// A merge advances the generation of no tile that is not hit.
pub fn other_tiles_stay()
    ensures { OtherTilesStay }
{}

/// A merge makes each pixel of a tile that is not hit the greater of itself and the new marker.
pub fn other_tiles_rise()
    ensures { OtherTilesRise }
{}

/// Where no stroke dies, no tile is hit.
pub fn no_death_hits_none()
    ensures { NoDeathHitsNone }
{}

/// The strokes at the end of a schedule are the join of those at the start and of the deltas that were accepted.
pub fn schedule_joins()
    ensures { ScheduleJoins }
{}

/// The edits of a schedule that were accepted are the steps of those numbers, with those deltas.
pub fn accepted_are_edits()
    ensures { AcceptedAreEdits }
{}

/// A delta that is taken could be.
pub fn merged_is_acceptable()
    ensures { MergedIsAcceptable }
{}

/// A delta that is refused could not be taken.
pub fn refused_is_not_acceptable()
    ensures { RefusedIsNotAcceptable }
{}

/// A delta is refused for one reason.
pub fn one_refusal()
    ensures { OneRefusal }
{}

/// An event has one answer, and leads to one core.
pub fn one_successor()
    ensures { OneSuccessor }
{}

/// Where a tile is the next to be taken, sweeping it in place is to take it, to sweep the job and to give that back.
pub fn swept_in_place_is_worked_off()
    ensures { SweptInPlaceIsWorkedOff }
{}

/// Work that is done after other work is one list of events.
pub fn work_goes_on()
    ensures { WorkGoesOn }
{}

/// Settling that goes on once no job is out is settling.
pub fn settling_goes_on()
    ensures { SettlingGoesOn }
{}

/// A merge changes only tiles that it leaves dirty.
pub fn merge_changes_dirty_tiles()
    ensures { MergeChangesDirtyTiles }
{}

/// A list of events changes only tiles of which a job was out before, or that it takes, or that it leaves dirty.
pub fn run_changes_few_tiles()
    ensures { RunChangesFewTiles }
{
    edges_are_open();
}

/// Settling changes only tiles that it takes or leaves dirty, and so does settling that ended for want of memory.
///
/// A hint that is handed over raises a pixel and leaves its tile dirty. So where settling stops in between, a tile can
/// have changed that was not swept yet.
pub fn settling_changes_few_tiles()
    ensures settling { SettlingChangesFewTiles }
    ensures cut_short { CutShortChangesFewTiles }
{
    edges_are_open();
}

/// What a core owes is one number.
pub fn one_debt()
    ensures { OneDebt }
{}

/// Where a sound core is quiet, it owes nothing.
pub fn quiet_owes_nothing()
    ensures { QuietOwesNothing }
{}

/// A list of events without a merge takes no more jobs than there is work.
pub fn run_is_within_work()
    ensures { RunIsWithinWork }
{
    edges_are_open();
}

/// A schedule of which no edit is accepted takes no more jobs than there is work.
pub fn schedule_is_within_work()
    ensures { ScheduleIsWithinWork }
{
    edges_are_open();
}

/// Settling, as far as it came, took no more jobs than there was work.
pub fn settling_so_far_is_within_work()
    ensures { SettlingSoFarIsWithinWork }
{
    edges_are_open();
}

/// Settling takes no more jobs than there is work, and leaves nothing owed.
pub fn settling_is_within_work()
    ensures { SettlingIsWithinWork }
{
    edges_are_open();
}

/// As many jobs are out as tiles have one out.
pub fn one_job_out_a_tile()
    ensures { OneJobOutATile }
{}

/// The strokes of a core that took deltas are the join of those that it had and of the deltas, and its mask is the one
/// that it had. So what it shows once it is quiet rests on that join alone.
pub fn taken_deltas_are_joined()
    ensures state { TakenDeltasAreJoined }
    ensures mask { TakenDeltasKeepTheMask }
{}
