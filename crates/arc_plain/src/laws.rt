//! Laws of the plain cluster.
ghost use Rattle.std.specs.Prelude.{◌≡◌, ◌≢◌, AllPairs, ◌+◌, ◌≤◌, ◌⊎◌, ◌++◌, ◌∷◌, [], List, length};
ghost use Rattle.arc_data.specs.declared.command.Command.{Command};
ghost use Rattle.arc_data.specs.declared.reply.Refusal.{Refusal};
ghost use Rattle.arc_data.specs.declared.reply.Reply.TheVariants.{Refused};
ghost use Rattle.arc_plain.specs.State.{Plain};
ghost use Rattle.arc_plain.specs.Cluster.{answer, arrived, fold_of, next};
ghost use Rattle.arc_plain.specs.Laws.{AreBegun, AreCounted, AreDrawn, AreNamedApart, Draws};
ghost use Rattle.arc_plain.specs.Panels.{most_controls, most_panels};

/// One more command at the end of the list is one more step.
pub fn list_goes_on()
    ensures { (commands : List Command) (c : Command) →
        fold_of (commands ++ c ∷ []) ≡ next (fold_of commands) c }
{}

/// A refused command changes nothing but list time and the number of commands.
pub fn refusals_change_nothing()
    ensures { (plain : Plain) (c : Command) (refusal : Refusal) →
        answer plain c ≡ Refused refusal → next plain c ≡ arrived plain c }
{}

/// Every command has its place in the list: as many were counted as there are.
#[tactic(auto, using(crate::proofs::Counts::places_count))]
pub fn places_count()
    ensures { (commands : List Command) → (fold_of commands).count ≡ length commands }
{}

/// List time doesn't fall: it is the later of what it was and of the command's own time.
#[tactic(auto, using(crate::proofs::Counts::time_next))]
pub fn time_does_not_fall()
    ensures not_before { (plain : Plain) (c : Command) → plain.time ≤ (next plain c).time }
    ensures not_before_the_call { (plain : Plain) (c : Command) → c.at_ms ≤ (next plain c).time }
    ensures one_of_both { (plain : Plain) (c : Command) →
        ((next plain c).time ≡ plain.time) ⊎ ((next plain c).time ≡ c.at_ms) }
{}

/// Identifiers are drawn once, in ascending order. A command draws at most one of a kind and gives none back, and no
/// more are drawn than there are commands; the first panel has its own from the start.
#[tactic(auto, using(crate::proofs::KeptRows::kept_fold, crate::proofs::Orderly::draws_next, crate::proofs::Orderly::orderly_fold))]
pub fn identifiers_are_drawn_once()
    ensures controls { (commands : List Command) →
        AreDrawn (λ c. c.control.0) (fold_of commands).controls.panels.controls
        (fold_of commands).controls.panels.controls_drawn }
    ensures panels { (commands : List Command) →
        AreDrawn (λ p. p.panel.0) (fold_of commands).controls.panels.panels
        (fold_of commands).controls.panels.panels_drawn }
    ensures one_a_command { (plain : Plain) (c : Command) → Draws plain (next plain c) }
    ensures no_more_than_commands { (commands : List Command) → AreCounted (fold_of commands) }
    ensures shifts { (commands : List Command) → AreBegun (fold_of commands) }
{}

/// No two controls of one panel have one name, and no two panels.
#[tactic(auto, using(crate::proofs::KeptRows::kept_fold))]
pub fn names_differ()
    ensures controls { (commands : List Command) → AreNamedApart (fold_of commands).controls.panels.controls }
    ensures panels { (commands : List Command) →
        AllPairs (λ one other. one.name ≢ other.name) (fold_of commands).controls.panels.panels }
{}

/// No more controls and no more panels are kept than the limits say.
#[tactic(auto, using(crate::proofs::KeptRows::kept_fold))]
pub fn limit_holds()
    ensures controls { (commands : List Command) → length (fold_of commands).controls.panels.controls ≤ most_controls }
    ensures panels { (commands : List Command) → length (fold_of commands).controls.panels.panels ≤ most_panels }
{}
