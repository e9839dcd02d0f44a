//! Laws of all runs of the actors. They hold of every record that meets the definitions, whatever made it.

ghost use Rattle.std.specs.Prelude.{◌≡◌, [], ◌∷◌, ◌++◌, ℕ, List, Option, Some, map, true, false};
ghost use Rattle.mission_model.specs.declared.flight_line.Actor.{Actor};
ghost use Rattle.mission_model.specs.declared.vehicle.BootState.{BootState};
ghost use Rattle.mission_model.specs.BootStates.{StateInLimits};
ghost use Rattle.mission_model.specs.declared.flight_line.Line.{Line};
ghost use Rattle.mission_model.specs.declared.flight_line.Line.TheVariants as line;
ghost use Rattle.mission_model.specs.declared.request.Client.{Client};
ghost use Rattle.mission_model.specs.declared.request.Reply.{Reply as ReplyValue};
ghost use Rattle.mission_model.specs.declared.request.Reply.TheVariants as reply;
ghost use Rattle.mission_model.specs.declared.schedule.BootScript.{BootScript};
ghost use Rattle.request_board.specs.Watching.{Awaited};
ghost use Rattle.request_board.specs.WatchLaw.{WatchRules};
ghost use Rattle.vehicle_core.specs.Told.{BootTold, name_of, names_of, begun};
ghost use Rattle.vehicle_core.specs.Ready.{has_ready};
ghost use Rattle.vehicle_core.specs.CoreRun.{LineStep, Leads, BootUp, Part, CoreRun, CoreSoFar};
ghost use Rattle.vehicle_core.specs.Order.{ByTurns};
ghost use Rattle.vehicle_core.specs.CoreState.{CoreState, CoreFits, Tells, finished_among};
ghost use Rattle.turn_cell.specs.declared.seat_view.Entry.{Entry};
ghost use Rattle.turn_cell.specs.Legal.{Follows, locals_left, line_of};
ghost use Rattle.vehicle_core.specs.declared.local.Local.{Local as Actors};
ghost use Rattle.vehicle_core.specs.declared.shared.Shared.{Shared as SharedPart};
ghost use Rattle.vehicle_core.specs.Steps.{Steps};
ghost use Rattle.vehicle_core.specs.Fits.{LocalSuits};
ghost use Rattle.vehicle_core.specs.ReadsAsked.{NavsFit, ReadsAlong};
ghost use Rattle.vehicle_core.specs.Turns.{Turn, Turns, actors_of, ending_of};
ghost use Rattle.vehicle_core.specs.LineTells.{maker};

use request_board::Watcher;

/// A run behind a whole run is a run of the boots of both, whole or as far as it came. A whole run is a run as far as it came,
/// and so is each beginning of one.
pub fn runs_compose<W>()
    ensures whole { (rules : WatchRules W) (boots more : List BootScript) (others watchers : List (List W)) (first second : List Line) → CoreRun rules boots others first → CoreRun rules more watchers second → CoreRun rules (boots ++ more) (others ++ watchers) (first ++ second) }
    ensures so_far { (rules : WatchRules W) (boots more : List BootScript) (others watchers : List (List W)) (first second : List Line) → CoreRun rules boots others first → CoreSoFar rules more watchers second → CoreSoFar rules (boots ++ more) (others ++ watchers) (first ++ second) }
    ensures ends { (rules : WatchRules W) (boots : List BootScript) (others : List (List W)) (lines : List Line) → CoreRun rules boots others lines → CoreSoFar rules boots others lines }
    ensures begins { (rules : WatchRules W) (boots : List BootScript) (others : List (List W)) (first second : List Line) → CoreSoFar rules boots others (first ++ second) → CoreSoFar rules boots others first }
{}

/// The reply that the power went is the last line of its boot: it leaves the power off, and no other line does.
pub fn the_power_ends_a_run<W>()
    ensures comes { (rules : WatchRules W) (t new : BootTold W) (lines : List Line) → t.shared.power ≡ true → Leads rules t lines new → new.shared.power ≡ false → (front : List Line) × (who : Client) × (lines ≡ front ++ line.Served who reply.PowerOff ∷ []) }
    ensures leaves { (rules : WatchRules W) (t new : BootTold W) (front rest : List Line) (who : Client) → Leads rules t (front ++ line.Served who reply.PowerOff ∷ rest) new → (rest ≡ []) × (new.shared.power ≡ false) }
    ensures last { (rules : WatchRules W) (boot : BootScript) (watchers : List W) (front rest : List Line) (who : Client) → Part rules boot watchers (front ++ line.Served who reply.PowerOff ∷ rest) → rest ≡ [] }
{}

/// Each line is of the actor that it names, and all actors keep their names and their places.
pub fn actors_keep_their_places<W>()
    ensures maker { (rules : WatchRules W) (t new : BootTold W) (made : Line) (step : LineStep rules t made new) → maker made ≡ Some (name_of step.old) }
    ensures places { (rules : WatchRules W) (t new : BootTold W) (lines : List Line) → Leads rules t lines new → names_of new.actors ≡ names_of t.actors }
{}

/// Whatever turns the actors of a core take, with whatever replies that suit: their lines are made by those actors in turn, one
/// that is not ready making none, and each leads on by its law. From a new core they are a boot that is up; and with the ending
/// behind them they are its whole part, once nobody is ready.
pub fn turns_of_the_core_are_a_run<W>()
    ensures in_turn { (rules : WatchRules W) (waits : W → Awaited) (c new : CoreState W) (turns : List Turn) (lines : List Line) (t : BootTold W) → Tells c.shared c.locals t → Turns rules waits c turns lines new → (told : BootTold W) × ByTurns rules t (actors_of turns) lines told × Tells new.shared new.locals told }
    ensures lead { (rules : WatchRules W) (t new : BootTold W) (actors : List Actor) (lines : List Line) → ByTurns rules t actors lines new → Leads rules t lines new }
    ensures up { (rules : WatchRules W) (waits : W → Awaited) (boot : BootScript) (state : BootState) (watchers : List W) (c new : CoreState W) (turns : List Turn) (lines : List Line) (number : ℕ) → StateInLimits state → Tells c.shared c.locals (begun boot state watchers) → Turns rules waits c turns lines new → (up : BootUp rules boot watchers (line.Boot number state.heads state.mark ∷ lines)) × Tells new.shared new.locals up.told }
    ensures whole { (rules : WatchRules W) (boot : BootScript) (watchers : List W) (front : List Line) (up : BootUp rules boot watchers front) (c : CoreState W) → Tells c.shared c.locals up.told → ((who : Actor) → has_ready up.told.shared who up.told.actors ≡ false) → Part rules boot watchers (front ++ ending_of c.shared.power (finished_among c.locals)) }
{}

/// Whatever turns the actors take, with whatever replies that suit: each read that a line asks names the id that is published
/// at that line, and a seq below its count. Of a Navigator it is enough that its windows are of plans that were published.
pub fn reads_name_published_items<W: Watcher>()
    ensures boot { (boot : BootScript) (state : BootState) (watchers : List W) → NavsFit (begun boot state watchers) }
    ensures asks { (c new : CoreState W) (turns : List Turn) (lines : List Line) (t : BootTold W) → CoreFits W.waits c → Tells c.shared c.locals t → NavsFit t → Turns (record { works = W.works; tells = W.tells }) W.waits c turns lines new → (told : BootTold W) × ReadsAlong (record { works = W.works; tells = W.tells }) t lines told × Tells new.shared new.locals told × NavsFit told }
{}

/// The lines of any history of the actors as a machine lead on, and tell of what the history leaves.
pub fn histories_are_runs<W>()
    ensures { (rules : WatchRules W) (s new : SharedPart) (ls : List (Actors W)) (history : List (Entry SharedPart (Actors W) (Option ReplyValue) Line)) (t : BootTold W) → Tells s ls t → Follows LocalSuits (Steps rules) s ls history new → (told : BootTold W) × Leads rules t (map line_of history) told × Tells new (locals_left ls history) told }
{}
