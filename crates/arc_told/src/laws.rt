//! What a report of a run tells, each part by itself.
ghost use Rattle.std.specs.Prelude.{◌≡◌, ◌<◌, ◌++◌, ◌∷◌, ℕ, List, [], Option, None};
ghost use Rattle.arc_voting.specs.Growth.{Grows};
ghost use Rattle.arc_told.specs.Moves.{CallGoes, Moves};
ghost use Rattle.arc_told.specs.Parts.{ComesFrom, EachIsPlaced, EachIsTold, TellsDeliveries, TellsDown, TellsEnd, TellsEnough, TellsFull, TellsLists, TellsPlaces, TellsStarts, TellsUnavailable};
ghost use Rattle.arc_told.specs.Report.{Asked, Reported};
ghost use Rattle.arc_told.specs.Run.{Each, EndsBy, IsBeforeEnd, IsStart, Run, created};
ghost use Rattle.arc_told.specs.Told.{IsOneHistory, Told};
ghost use Rattle.arc_told.specs.View.{EndsAs, IsInOrder, View, World, kept_in};

/// What the nodes keep only grows.
#[tactic(auto, using(crate::proofs::Growing::moves_grow))]
pub fn journals_only_grow()
    ensures { (world : World) (next : Reported) (old new : View) → Moves world next old new → Grows (kept_in old) (kept_in new) }
{}

/// Of every run it is told who is down: a call finds its own endpoint down, and that only where it may be.
pub fn down_is_told()
    ensures { (world : World) (from to : View) (report : List Reported) → IsStart world from → Run world from report to →
        IsBeforeEnd world to → Each (TellsDown world) [] report }
{}

/// Of every run it is told that a call has a place only where no three other nodes are silent, or shown down.
pub fn silence_is_told()
    ensures { (world : World) (from to : View) (report : List Reported) → IsStart world from → Run world from report to →
        IsBeforeEnd world to → Each (TellsEnough world) [] report }
{}

/// Of every run it is told that there is one history.
pub fn history_is_told()
    ensures { (world : World) (from to : View) (report : List Reported) → IsStart world from → Run world from report to →
        IsBeforeEnd world to → IsOneHistory world }
{}

/// Of every run it is told when the list is full.
pub fn full_is_told()
    ensures { (world : World) (from to : View) (report : List Reported) → IsStart world from → Run world from report to →
        IsBeforeEnd world to → Each (TellsFull world) [] report }
{}

/// Of every run it is told that a call is unavailable after eight tallies, and that the nodes that they lack may be down, or that
/// their patterns allow it.
pub fn unavailable_is_told()
    ensures { (world : World) (from to : View) (report : List Reported) → IsStart world from → Run world from report to →
        IsBeforeEnd world to → Each (TellsUnavailable world) [] report }
{}

/// Of every run it is told how long lists are.
pub fn lists_are_told()
    ensures { (world : World) (from to : View) (report : List Reported) → IsStart world from → Run world from report to →
        IsBeforeEnd world to → Each (TellsLists world) [] report }
{}

/// Of every run it is told which lengths still hold when all steps are done.
pub fn end_is_told()
    ensures { (world : World) (from to : View) (report : List Reported) → IsStart world from → Run world from report to →
        EndsAs world to → TellsEnd world report }
{}

/// Of every run it is told how nodes start.
pub fn starts_are_told()
    ensures { (world : World) (from to : View) (report : List Reported) → IsStart world from → Run world from report to →
        IsBeforeEnd world to → Each (TellsStarts world) [] report }
{}

/// Of every run it is told which place a call has, and that its command is new there.
pub fn places_are_told()
    ensures { (world : World) (from to : View) (report : List Reported) → IsStart world from → Run world from report to →
        IsBeforeEnd world to → Each (TellsPlaces world) [] report }
{}

/// Of every run it is told what deliveries find: what an answer says holds at the end, and as many messages are held as exchanges were
/// lost with nodes of which each keeps one, up to 4,096.
pub fn deliveries_are_told()
    ensures { (world : World) (from to : View) (report : List Reported) → IsStart world from → Run world from report to →
        IsBeforeEnd world to → Each (TellsDeliveries world) [] report }
{}

/// Of every run it is told where each command of the list comes from: from before, or from a call of its own.
pub fn origin_is_told()
    ensures { (world : World) (from to : View) (report : List Reported) (begun : Option Asked) → IsStart world from →
        Run world from report to → IsBeforeEnd world to → EndsBy world begun to → ComesFrom world report begun }
{}

/// Of every run all of it is told.
pub fn run_is_told()
    ensures { (world : World) (from to : View) (report : List Reported) (begun : Option Asked) → IsStart world from →
        Run world from report to → IsBeforeEnd world to → EndsBy world begun to → Told world report begun }
{}

/// A call that changes nothing, as one at a node that is down or at a full list, goes on over the five nodes: an identifier that no
/// vote has is always to be had.
pub fn idle_calls_go()
    ensures { (world : World) (view : View) (asked : Asked) → IsInOrder world view → asked.endpoint < 5 →
        CallGoes world asked [] view view }
{}

/// Where each call of a report has a place, and none was begun behind it, the list is just the calls that the lines place, behind what
/// had a vote at entry.
pub fn placed_calls_are_all()
    ensures { (world : World) (report : List Reported) → Told world report None → EachIsPlaced report → EachIsTold world report }
{}

/// A drill over empty disks starts with five nodes that were created.
pub fn created_nodes_start()
    ensures { (world : World) → ((j : ℕ) → j < 5 → world.at_entry j ≡ []) → IsStart world created }
{}

/// Where all steps are done, so that the journals at the end are ones that the nodes may have then, all of it is told, and which lengths
/// still hold.
pub fn done_run_is_told()
    ensures { (world : World) (from to : View) (report : List Reported) → IsStart world from → Run world from report to →
        EndsAs world to → Told world report None × TellsEnd world report }
{}

/// A run goes on with one step more.
pub fn runs_go_on()
    ensures { (world : World) (report : List Reported) (next : Reported) (from between to : View) → Run world from report between →
        Moves world next between to → Run world from (report ++ next ∷ []) to }
{}
