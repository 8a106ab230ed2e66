//! What holds over every run of commands by the definitions alone.

ghost use Rattle.std.specs.Prelude.{◌≡◌, List, map};
ghost use Rattle.restyle.specs.Worlds.{new_world};
ghost use Rattle.script_text.specs.declared.command.Command.{Command};
ghost use Rattle.style_data.specs.declared.event.Event.{Event};
ghost use Rattle.ticker.specs.Courses.{NeverFall};
ghost use Rattle.run_laws.specs.Runs.{AreSent, HasRun, events_of_run};
ghost use Rattle.run_laws.specs.TransitionCourses.{AreInTurn, IsCourse, times_of};
ghost use Rattle.run_laws.specs.TransitionNames.{TransitionName, events_of_transition, told_of};

/// Whatever commands come, what the frames tell of a transition is the course of one that ran: that it is created, that it starts and that it ends,
/// each once at most, in this order, and nothing before what comes before it; or, if it is cancelled, one or both of the first two and then the cancel.
pub fn courses_in_turn()
    ensures course { (cs : List Command) (x : TransitionName) → IsCourse (HasRun new_world cs x) x.generation (told_of x (events_of_run new_world cs)) }
    ensures kinds { (cs : List Command) (x : TransitionName) → AreInTurn (map (λ e. e.kind) (events_of_transition x (events_of_run new_world cs))) }
{}

/// And their scheduled event times never fall: no declaration gives a transition a negative duration, so none ends before it starts, and none is told
/// before it has come.
pub fn scheduled_times_never_fall()
    ensures { (cs : List Command) (x : TransitionName) → NeverFall (times_of (told_of x (events_of_run new_world cs))) }
{
    sheet_rules::sheet_reading_is_exact();
    sheet_rules::style_reading_is_exact();
}

/// Whatever order a frame's events are sent in by their keys, those of one transition are sent as its tick has them: so the laws above hold of what is sent.
pub fn sent_as_told()
    ensures { (cs : List Command) (x : TransitionName) (sent : List Event) → AreSent new_world cs sent → told_of x sent ≡ told_of x (events_of_run new_world cs) }
{
    sheet_rules::sheet_reading_is_exact();
    sheet_rules::style_reading_is_exact();
}
