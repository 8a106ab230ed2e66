//! What holds of the order of events by its definition alone.

ghost use Rattle.std.specs.Prelude.{◌≡◌, ◌↔◌, List};
ghost use Rattle.std.specs.List.{Contains};
ghost use Rattle.style_data.specs.declared.event.Event.{Event};
ghost use Rattle.event_order.specs.Order.{IsInOrderOf};

/// Events have one order at most.
pub fn events_have_one_order()
    ensures { (events xs ys : List Event) → IsInOrderOf xs events → IsInOrderOf ys events → xs ≡ ys }
{}

/// Events in order are the same events.
pub fn merged_events_are_the_same()
    ensures { (events sorted : List Event) (e : Event) → IsInOrderOf sorted events → Contains sorted e ↔ Contains events e }
{}
