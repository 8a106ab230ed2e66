//! The lines of a script.

use script_text::limits::{MAX_NODE, MAX_SHEET};
use script_text::{Command, ReadCommandFault, Refusal, ScriptName, read_command};
use std::alloc::{AllocError, Global};
use std::test::Fail;

/// Lines, and what each asks for.
const LINES: [(&[u8], &str); 88] = [
    // Nothing.
    (b"", "blank"),
    (b"   ", "blank"),
    (b"  # \xff\tframe", "blank"),
    (b"#", "blank"),
    // Each kind, and spaces.
    (b"add 1 - div", "add 1 None div"),
    (b"  add   2  1   _a-9  ", "add 2 Some(1) _a-9"),
    (b"add 1000000000 1 D", "add 1000000000 Some(1) D"),
    (b"insert 3 2 p", "insert 3 2 p"),
    (b"remove 0000000003", "remove 3"),
    (b"id 4 x", "id 4 x"),
    (b"id 4", "id 4"),
    (b"class 5 a  b a", "class 5 a b a"),
    (b"class 5 ", "class 5"),
    (b"style 6  width:  1px ;  ", "style 6 width:  1px ;"),
    (b"style 6 \xc3\xa9", "style 6 \u{e9}"),
    (b"style 6", "style 6 "),
    (b"sheet 1 # { }", "sheet 1 # { }"),
    (b"sheet 16", "sheet 16 "),
    (b"at 1.5", "at 1500"),
    (b"at 0", "at 0"),
    (b"at 00.0010000", "at 1"),
    (b"at 1000000000000", "at 1000000000000000"),
    (b"at 1000000000000.0000", "at 1000000000000000"),
    (b" frame ", "frame"),
    (b"get 7 Z-Index", "get 7 z-index"),
    (b"list 8", "list 8"),
    // Not in the grammar.
    (b"frame\r", "Syntax"),
    (b"\tframe", "Syntax"),
    (b"get\t7 opacity", "Syntax"),
    (b"get 7 opacity\t", "Syntax"),
    (b"Frame", "Syntax"),
    (b"frame 1", "Syntax"),
    (b"frames", "Syntax"),
    (b"add", "Syntax"),
    (b"add 1 -", "Syntax"),
    (b"add 1 div", "Syntax"),
    (b"add 1 - a b", "Syntax"),
    (b"add 1 - 1a", "Syntax"),
    (b"add 1 - -a", "Syntax"),
    (b"add 1 - \xc3\xa9", "Syntax"),
    (b"add 1 -- a", "Syntax"),
    (b"add - 1 a", "Syntax"),
    (b"insert 1 - a", "Syntax"),
    (b"remove", "Syntax"),
    (b"remove +1", "Syntax"),
    (b"remove 1.0", "Syntax"),
    (b"remove 1 2", "Syntax"),
    (b"id", "Syntax"),
    (b"id 1 a b", "Syntax"),
    (b"class", "Syntax"),
    (b"class 1 a 1", "Syntax"),
    (b"style x", "Syntax"),
    (b"style 1 \xff", "Syntax"),
    (b"sheet 1 \xc3", "Syntax"),
    (b"at", "Syntax"),
    (b"at .5", "Syntax"),
    (b"at 5.", "Syntax"),
    (b"at +5", "Syntax"),
    (b"at -0", "Syntax"),
    (b"at 1 2", "Syntax"),
    (b"at 1e3", "Syntax"),
    (b"get 7 nosuch", "Syntax"),
    (b"get 7 margin", "Syntax"),
    (b"get 7", "Syntax"),
    (b"list", "Syntax"),
    (b"list 1 2", "Syntax"),
    // Not in the grammar, whatever the numbers are.
    (b"add 0 - 1a", "Syntax"),
    (b"class 0 a 1", "Syntax"),
    (b"style 0 \xff", "Syntax"),
    (b"get 0 nosuch", "Syntax"),
    (b"at 1000000000001 x", "Syntax"),
    // Numbers out of their bounds.
    (b"add 0 - a", "BoundNumber"),
    (b"add 1000000001 - a", "BoundNumber"),
    (b"add 1 0 a", "BoundNumber"),
    (b"insert 1 1000000001 a", "BoundNumber"),
    (b"remove 99999999999999999999999999", "BoundNumber"),
    (b"id 0", "BoundNumber"),
    (b"class 0 a", "BoundNumber"),
    (b"style 0", "BoundNumber"),
    (b"sheet 0 p { }", "BoundNumber"),
    (b"sheet 17 p { }", "BoundNumber"),
    (b"at 1.0005", "BoundNumber"),
    (b"at 0.0000000000000000001", "BoundNumber"),
    (b"at 1000000000000.001", "BoundNumber"),
    (b"at 99999999999999999999999999", "BoundNumber"),
    (b"get 0 opacity", "BoundNumber"),
    (b"list 0", "BoundNumber"),
    (b"list 1000000001", "BoundNumber"),
];

fn with_names(mut text: String, names: &[ScriptName]) -> Result<String, AllocError> {
    for name in names {
        text.push(' ')?;
        text.push_str(name.as_str())?;
    }
    Ok(text)
}

fn spelled(alloc: Global, command: &Command) -> Result<String, AllocError> {
    match command {
        Command::Blank => format!(in alloc; "blank"),
        Command::Add { node, parent, tag } => {
            format!(in alloc; "add {node} {parent:?} {}", tag.as_str())
        }
        Command::Insert { node, sibling, tag } => {
            format!(in alloc; "insert {node} {sibling} {}", tag.as_str())
        }
        Command::Remove(node) => format!(in alloc; "remove {node}"),
        Command::Id { node, name: None } => format!(in alloc; "id {node}"),
        Command::Id {
            node,
            name: Some(name),
        } => format!(in alloc; "id {node} {}", name.as_str()),
        Command::Class { node, names } => {
            with_names(format!(in alloc; "class {node}")?, names.as_slice())
        }
        Command::Style { node, text } => format!(in alloc; "style {node} {}", text.as_str()),
        Command::Sheet { number, text } => format!(in alloc; "sheet {number} {}", text.as_str()),
        Command::At(time) => format!(in alloc; "at {}", time.0),
        Command::Frame => format!(in alloc; "frame"),
        Command::Get { node, property } => format!(in alloc; "get {node} {}", property.name()),
        Command::List(node) => format!(in alloc; "list {node}"),
    }
}

fn read(alloc: Global, line: &[u8]) -> Result<String, AllocError> {
    match read_command(alloc, line) {
        Ok(command) => spelled(alloc, &command),
        Err(ReadCommandFault::Refused(Refusal::Syntax)) => format!(in alloc; "Syntax"),
        Err(ReadCommandFault::Refused(Refusal::BoundNumber)) => format!(in alloc; "BoundNumber"),
        Err(_) => format!(in alloc; "another fault"),
    }
}

#[test]
fn each_line_is_its_command(rt: HostRuntime) -> Result<(), Fail> {
    assert!(rt; MAX_NODE == 1_000_000_000);
    assert!(rt; MAX_SHEET == 16);
    for (line, wanted) in LINES.iter() {
        let text = read(rt.alloc(), line)?;
        assert!(rt; text.as_str() == *wanted);
    }
    Ok(())
}
