ghost use Rattle.std.specs.Prelude.{◌≤◌};

use crate::demo::demonstrate;
use crate::gate::IdleGate;
use crate::replay::replay_alone;
use crate::restyling::Alone;
use crate::run::run;
use crate::status::Status;
use std::alloc::{AllocError, Global};
use std::test::Fail;
use text_io::{MemSink, MemSource};

/// A script, its transcript, and how its run ends.
const ROWS: [(&str, &str, Status); 22] = [
    ("", "", Status::Done),
    (SCRIPT, TRANSCRIPT, Status::Done),
    ("# add\n\n   \nframe", "", Status::Done),
    // Turned back at a quarter, and ended.
    (
        "add 1 - div
style 1 opacity: 0; transition: opacity 1s linear
frame
style 1 opacity: 1; transition: opacity 1s linear
frame
at 250
style 1 opacity: 0; transition: opacity 1s linear
frame
list 1
at 500
frame
",
        "event 1 transitionrun opacity 0
event 1 transitionstart opacity 0
running 1 opacity from 0.25 to 0 adjusted 1 start 250 end 500 factor 0.25 generation 3
gone 1 transition opacity cancelled 250
event 1 transitionrun opacity 0
event 1 transitionstart opacity 0
event 1 transitioncancel opacity 0.25
event 1 transitionend opacity 0.25
",
        Status::Done,
    ),
    // Turned back, and back again.
    (
        "add 1 - div
style 1 opacity: 0; transition: opacity 1s linear
frame
style 1 opacity: 1; transition: opacity 1s linear
frame
at 250
style 1 opacity: 0; transition: opacity 1s linear
frame
list 1
at 350
style 1 opacity: 1; transition: opacity 1s linear
frame
list 1
",
        "event 1 transitionrun opacity 0
event 1 transitionstart opacity 0
running 1 opacity from 0.25 to 0 adjusted 1 start 250 end 500 factor 0.25 generation 3
gone 1 transition opacity cancelled 250
event 1 transitionrun opacity 0
event 1 transitionstart opacity 0
event 1 transitioncancel opacity 0.25
running 1 opacity from 0.15 to 1 adjusted 0 start 350 end 1200 factor 0.85 generation 4
gone 1 transition opacity cancelled 350
",
        Status::Done,
    ),
    // Negative delays.
    (
        "add 1 - div
add 2 1 p
style 1 opacity: 0
style 2 opacity: 0
frame
at 1000
style 1 opacity: 1; transition: opacity 1s linear -400ms
style 2 opacity: 1; transition: opacity 1s linear -1s
frame
get 1 opacity
get 2 opacity
frame
",
        "value 1 opacity 0.4
value 2 opacity 1
event 1 transitionrun opacity 0.4
event 1 transitionstart opacity 0.4
",
        Status::Done,
    ),
    // To a third value.
    (
        "add 1 - div
style 1 opacity: 0; transition: opacity 1s linear
frame
style 1 opacity: 1; transition: opacity 1s linear
frame
at 500
style 1 opacity: 0.25; transition: opacity 1s linear
frame
list 1
",
        "event 1 transitionrun opacity 0
event 1 transitionstart opacity 0
running 1 opacity from 0.5 to 0.25 adjusted 0.5 start 500 end 1500 factor 1 generation 3
gone 1 transition opacity cancelled 500
",
        Status::Done,
    ),
    // The last item that matches.
    (
        "add 1 - div
sheet 1 div { opacity: 0; transition-property: opacity, all, nosuch; transition-duration: 1s, 3s; transition-timing-function: linear }
frame
style 1 opacity: 1
frame
list 1
",
        "running 1 opacity from 0 to 1 adjusted 0 start 0 end 3000 factor 1 generation 2
",
        Status::Done,
    ),
    // An important value, and one that can't be interpolated.
    (
        "add 1 - div
style 1 opacity: 0 !important; transition: all 1s linear
frame
style 1 opacity: 1 !important; width: 100px; transition: all 1s linear
frame
at 500
frame
get 1 opacity
get 1 width
",
        "event 1 transitionrun opacity 0
event 1 transitionstart opacity 0
value 1 opacity 0.5
value 1 width 100px
",
        Status::Done,
    ),
    // An inherited property with a transition of its own on the child.
    (
        "add 1 - div
add 2 1 p
style 1 color: rgb(0, 0, 0); transition: color 2s linear
style 2 transition: color 1s linear
frame
style 1 color: rgb(200, 0, 0); transition: color 2s linear
frame
at 1000
frame
get 1 color
get 2 color
list 2
at 1500
frame
get 2 color
list 2
",
        "event 1 transitionrun color 0
event 1 transitionstart color 0
event 2 transitionrun color 0
event 2 transitionstart color 0
event 2 transitionend color 1
value 1 color rgb(100, 0, 0)
value 2 color rgb(100, 0, 0)
completed 2 color to rgb(200, 0, 0)
value 2 color rgb(150, 0, 0)
completed 2 color to rgb(200, 0, 0)
",
        Status::Done,
    ),
    // A completed transition that a style change removes.
    (
        "add 1 - div
add 2 1 p
style 1 color: rgb(0, 0, 0); transition: color 2s steps(2)
style 2 transition: color 500ms linear
frame
style 1 color: rgb(200, 0, 0); transition: color 2s steps(2)
frame
at 500
frame
at 1200
frame
list 2
style 1 color: rgb(100, 0, 0); transition: color 2s steps(2)
at 1500
frame
list 2
get 2 color
",
        "event 1 transitionrun color 0
event 1 transitionstart color 0
event 2 transitionrun color 0
event 2 transitionstart color 0
event 2 transitionend color 0.5
completed 2 color to rgb(200, 0, 0)
value 2 color rgb(100, 0, 0)
",
        Status::Done,
    ),
    // Removed elements.
    (
        "add 1 - div
add 2 1 p
add 3 1 p
add 4 1 p
sheet 1 p { opacity: 0; transition: opacity 1s linear }
frame
style 2 opacity: 1
style 3 opacity: 1
frame
at 400
style 4 opacity: 1
frame
at 1000
remove 2
remove 4
frame
",
        "event 2 transitionrun opacity 0
event 2 transitionstart opacity 0
event 3 transitionrun opacity 0
event 3 transitionstart opacity 0
event 3 transitionend opacity 1
event 2 transitioncancel opacity 1
",
        Status::Done,
    ),
    // Tree order.
    (
        "add 1 - div
add 2 1 p
insert 3 2 p
sheet 1 * { opacity: 0; width: 0px; transition: all 1s linear }
frame
sheet 1 * { opacity: 1; width: 10px; transition: all 1s linear }
frame
at 1000
frame
",
        "event 1 transitionrun opacity 0
event 1 transitionstart opacity 0
event 1 transitionrun width 0
event 1 transitionstart width 0
event 3 transitionrun opacity 0
event 3 transitionstart opacity 0
event 3 transitionrun width 0
event 3 transitionstart width 0
event 2 transitionrun opacity 0
event 2 transitionstart opacity 0
event 2 transitionrun width 0
event 2 transitionstart width 0
event 1 transitionend opacity 1
event 1 transitionend width 1
event 3 transitionend opacity 1
event 3 transitionend width 1
event 2 transitionend opacity 1
event 2 transitionend width 1
",
        Status::Done,
    ),
    // Equal names of animations.
    (
        "add 1 - div
sheet 1 @keyframes a { to { opacity: 0 } } @keyframes b { to { width: 10px } }
style 1 animation: a 1s linear, a 2s linear, b 3s linear
frame
at 100
frame
style 1 animation: b 3s linear, a 2s linear
at 200
frame
list 1
at 300
frame
",
        "event 1 animationstart a 0
event 1 animationstart a 0
event 1 animationstart b 0
animation 1 0 b start 0
animation 1 1 a start 0
gone 1 animation a cancelled 200
event 1 animationcancel a 0.2
",
        Status::Done,
    ),
    // An animation that is paused and goes on.
    (
        "add 1 - div
sheet 1 @keyframes k { to { width: 400px } }
style 1 width: 100px; animation: k 1s steps(3, jump-both) 2.5 alternate both
frame
at 500
frame
get 1 width
at 1250
style 1 width: 100px; animation: k 1s steps(3, jump-both) 2.5 alternate both paused
frame
get 1 width
at 2000
style 1 width: 100px; animation: k 1s steps(3, jump-both) 2.5 alternate both
frame
get 1 width
at 3250
frame
get 1 width
",
        "event 1 animationstart k 0
value 1 width 250px
event 1 animationiteration k 1
value 1 width 325px
value 1 width 325px
event 1 animationend k 2.5
value 1 width 250px
",
        Status::Done,
    ),
    // An element that is not rendered for a while.
    (
        "add 1 - div
add 2 1 p
sheet 1 @keyframes k { from { width: 0px } to { width: 100px } } p { opacity: 0; transition: opacity 1s linear; animation: k 4s linear }
frame
style 2 opacity: 1
frame
at 500
frame
style 1 display: none
frame
get 2 opacity
get 2 width
at 1000
style 1
frame
list 2
",
        "event 2 animationstart k 0
event 2 transitionrun opacity 0
event 2 transitionstart opacity 0
value 2 opacity 1
value 2 width auto
event 2 transitioncancel opacity 0.5
event 2 animationcancel k 0.5
animation 2 0 k start 1000
",
        Status::Done,
    ),
    // Refusals.
    (
        "add 1 - div
get 1 width
style 9 width: 1px
add 1 1 p
at 10
at 5
style 1 width: 5vh
sheet 1 div { width: 7px }
sheet 1 @media print { }
frame
get 1 width
add 2 - p
fly",
        "refused 2 no-style
refused 3 unknown-node
refused 4 node-taken
refused 6 time-back 10
refused 7 unsupported-value width at 0
refused 9 unsupported-rule at 0
value 1 width 7px
refused 12 bound root
refused 13 syntax
",
        Status::Refused,
    ),
    (
        "add 1 - div\nadd 1 9 p\n",
        "refused 2 unknown-node\n",
        Status::Refused,
    ),
    // Limits of values.
    (
        "add 1 - div\nstyle 1 width: 1000000px\nframe\nget 1 width\nstyle 1 width: 1000001px\n",
        "value 1 width 1000000px\nrefused 5 bound value at 0\n",
        Status::Refused,
    ),
    (
        "add 1 - div
style 1 width: 0px; opacity: 0; transition: all 1s cubic-bezier(0.5, 10, 0.5, 10)
frame
style 1 width: 10px; opacity: 1; transition: all 1s cubic-bezier(0.5, 10, 0.5, 10)
frame
at 500
frame
get 1 width
get 1 opacity
",
        "event 1 transitionrun opacity 0
event 1 transitionstart opacity 0
event 1 transitionrun width 0
event 1 transitionstart width 0
value 1 width 76.25px
value 1 opacity 1
",
        Status::Done,
    ),
    // Line endings and spaces.
    (
        "add 7 - div\r\n  style 7 opacity: +0.5\r\n  frame \r\nget   7   OPACITY\r\nget 07 opacity\r",
        "value 7 opacity 0.5\nrefused 5 syntax\n",
        Status::Refused,
    ),
    (
        "at 1.5\nat 1\nat 1.0005\nat 1000000000000.001\nadd 0 - p\nsheet 17 p { }\nlist 1\n",
        "refused 2 time-back 1.5
refused 3 bound number
refused 4 bound number
refused 5 bound number
refused 6 bound number
refused 7 unknown-node
",
        Status::Refused,
    ),
];

/// One element, its opacity changed under a transition of a second, read at half of it and at its end.
const SCRIPT: &str = "add 1 - div
style 1 opacity: 0; transition: opacity 1s linear
frame
style 1 opacity: 1; transition: opacity 1s linear
frame
at 500
frame
get 1 opacity
at 1000
frame
get 1 opacity
";

const TRANSCRIPT: &str = "event 1 transitionrun opacity 0
event 1 transitionstart opacity 0
value 1 opacity 0.5
event 1 transitionend opacity 1
value 1 opacity 1
";

const ROOM: usize = 1000;

/// How the run of a script ends whose reads give at most so many bytes, and of which the listed reads fail; and the sink
/// that it wrote, whose writes take as many.
fn replayed(
    alloc: Global,
    script: &[u8],
    most: usize,
    failing: Vec<u64>,
) -> Result<(Status, MemSink), AllocError>
    requires { 1 ≤ most }
{
    let mut source = MemSource::new(Vec::from_slice(alloc, script)?, most, failing);
    let mut sink = MemSink::new(alloc, ROOM, most, Vec::new(alloc))?;
    let status = replay_alone(alloc, &mut source, &mut sink);
    Ok((status, sink))
}

#[test]
fn rows(rt: HostRuntime) -> Result<(), Fail> {
    let alloc = rt.alloc();
    for (script, transcript, status) in ROWS {
        for most in [1, 100_000] {
            let (ended, sink) = replayed(alloc, script.as_bytes(), most, Vec::new(alloc))?;
            assert_eq!(rt; sink.bytes(), transcript.as_bytes(), "{script}");
            assert_eq!(rt; ended, status, "{script}");
        }
    }
    Ok(())
}

#[test]
fn words_are_refused(rt: HostRuntime) -> Result<(), Fail> {
    let alloc = rt.alloc();
    let mut words = Vec::new(alloc);
    let mut source = MemSource::new(
        Vec::from_slice(alloc, SCRIPT.as_bytes())?,
        5,
        Vec::new(alloc),
    );
    let mut sink = MemSink::new(alloc, ROOM, 3, Vec::new(alloc))?;
    words.push(String::from_str(alloc, "--workers")?)?;
    assert_eq!(rt;
        run(&rt, alloc, &words, &mut source, &mut sink, &IdleGate),
        Status::Usage
    );
    assert_eq!(rt; sink.bytes().len(), 0);
    words.clear();
    assert_eq!(rt;
        run(&rt, alloc, &words, &mut source, &mut sink, &IdleGate),
        Status::Done
    );
    assert_eq!(rt; sink.bytes(), TRANSCRIPT.as_bytes());
    Ok(())
}

#[test]
fn each_read_fails_in_turn(rt: HostRuntime) -> Result<(), Fail> {
    let alloc = rt.alloc();
    let mut done = false;
    for call in 1..100 {
        let (status, sink) = replayed(alloc, SCRIPT.as_bytes(), 5, vec![in alloc; call]?)?;
        assert!(rt; TRANSCRIPT.as_bytes().starts_with(sink.bytes()), "{call}");
        assert!(rt; call > 1 || sink.bytes().is_empty());
        if status == Status::Done {
            assert_eq!(rt; sink.bytes(), TRANSCRIPT.as_bytes());
            done = true;
            break;
        }
        assert_eq!(rt; status, Status::ReadFault);
    }
    assert!(rt; done);
    Ok(())
}

#[test]
fn a_write_fails(rt: HostRuntime) -> Result<(), Fail> {
    let alloc = rt.alloc();
    for (room, most, failing, length, status) in [
        (ROOM, 1000, 1, 0, Status::WriteFault),
        (ROOM, 1000, 2, 66, Status::WriteFault),
        (ROOM, 1000, 3, 86, Status::WriteFault),
        (ROOM, 1000, 4, 118, Status::WriteFault),
        (ROOM, 1000, 5, 136, Status::Done),
        (ROOM, 1, 40, 39, Status::WriteFault),
        (136, 1, 137, 136, Status::Done),
        (0, 1, 0, 0, Status::WriteFault),
    ] {
        let mut source = MemSource::new(
            Vec::from_slice(alloc, SCRIPT.as_bytes())?,
            9,
            Vec::new(alloc),
        );
        let mut sink = MemSink::new(alloc, room, most, vec![in alloc; failing]?)?;
        assert_eq!(rt;
            replay_alone(alloc, &mut source, &mut sink),
            status,
            "{failing}"
        );
        assert_eq!(rt; sink.bytes().len(), length, "{failing}");
        assert!(rt; TRANSCRIPT.as_bytes().starts_with(sink.bytes()));
    }
    Ok(())
}

#[test]
fn limits_of_bytes(rt: HostRuntime) -> Result<(), Fail> {
    let alloc = rt.alloc();
    for (byte, bytes, transcript, status) in [
        (b'#', 1_048_576, "", Status::Done),
        (b'#', 1_048_577, "refused 1 bound line\n", Status::Refused),
        (b'#', 67_108_864, "refused 1 bound line\n", Status::Refused),
        (b'#', 67_108_865, "", Status::TooMuch),
    ] {
        let script = vec![in alloc; byte; bytes]?;
        let (ended, sink) = replayed(alloc, &script, 100_000, Vec::new(alloc))?;
        assert_eq!(rt; ended, status, "{bytes}");
        assert_eq!(rt; sink.bytes(), transcript.as_bytes(), "{bytes}");
    }
    Ok(())
}

#[test]
fn a_demonstration(rt: HostRuntime) -> Result<(), Fail> {
    let alloc = rt.alloc();
    let mut sink = MemSink::new(alloc, ROOM, 7, Vec::new(alloc))?;
    assert_eq!(rt; demonstrate(alloc, &Alone, 7, &mut sink), Status::Done);
    assert_eq!(rt;
        sink.bytes(),
        b"demo 7 frames 62 events 8202 cancels 149 ends 2585\n".as_slice()
    );
    Ok(())
}

#[test]
fn any_number_of_workers(rt: HostRuntime) -> Result<(), Fail> {
    let alloc = rt.alloc();
    for count in ["1", "004", "64"] {
        let mut words = Vec::new(alloc);
        words.push(String::from_str(alloc, "--workers")?)?;
        words.push(String::from_str(alloc, count)?)?;
        let mut source = MemSource::new(
            Vec::from_slice(alloc, SCRIPT.as_bytes())?,
            5,
            Vec::new(alloc),
        );
        let mut sink = MemSink::new(alloc, ROOM, 3, Vec::new(alloc))?;
        assert_eq!(rt;
            run(&rt, alloc, &words, &mut source, &mut sink, &IdleGate),
            Status::Done
        );
        assert_eq!(rt; sink.bytes(), TRANSCRIPT.as_bytes());
    }
    Ok(())
}
