//! The lines of events, and what they are of.
ghost use Rattle.std.specs.Prelude.{◌≡◌, ◌++◌, OnErr, OnOk};
ghost use Rattle.transcript_text.specs.Fields.{field_text};
ghost use Rattle.transcript_text.specs.Lines.{event_kind, event_line, subject_kind, subject_name};

use crate::field::{Field, write_fields};
use std::alloc::AllocError;
use style_data::{Event, EventKind, Subject};

/// Appends the line of an event. Where memory runs out nothing is appended.
pub fn write_event(out: &mut Vec<u8>, event: &Event) -> Result<(), AllocError>
    ensures ok { OnOk result (out.new.items ≡ out.old.items ++ event_line event.now) }
    ensures err { OnErr result (out.new.items ≡ out.old.items) }
{
    write_fields(
        out,
        "event",
        &[
            Field::Number(event.element),
            Field::Text(kind_of(&event.subject, event.kind)),
            name_of(&event.subject),
            Field::Seconds(event.elapsed),
        ],
    )
}

/// The kind of an event of this subject, as the standards name it.
fn kind_of(subject: &Subject, kind: EventKind) -> &'static str
    ensures { result.now ≡ event_kind subject.now kind }
{
    match (subject, kind) {
        (Subject::Property(_), EventKind::Run) => "transitionrun",
        (Subject::Property(_), EventKind::Start) => "transitionstart",
        (Subject::Property(_), EventKind::Iteration) => "transitioniteration",
        (Subject::Property(_), EventKind::End) => "transitionend",
        (Subject::Property(_), EventKind::Cancel) => "transitioncancel",
        (Subject::Animation(_), EventKind::Run) => "animationrun",
        (Subject::Animation(_), EventKind::Start) => "animationstart",
        (Subject::Animation(_), EventKind::Iteration) => "animationiteration",
        (Subject::Animation(_), EventKind::End) => "animationend",
        (Subject::Animation(_), EventKind::Cancel) => "animationcancel",
    }
}

/// `transition` or `animation`.
pub(crate) fn subject_kind(subject: &Subject) -> &'static str
    ensures { result.now ≡ subject_kind subject.now }
{
    match subject {
        Subject::Property(_) => "transition",
        Subject::Animation(_) => "animation",
    }
}

/// The name of the property or of the animation.
pub(crate) fn name_of<'a>(subject: &'a Subject) -> Field<'a>
    ensures { field_text result ≡ subject_name subject.now }
{
    match subject {
        Subject::Property(p) => Field::Text(p.name()),
        Subject::Animation(name) => Field::Name(name.as_bytes()),
    }
}
