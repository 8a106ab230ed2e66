//! Rows of lines and pieces, and that calls with memory to spare succeed.
use std::alloc::Global;
use std::test::Fail;
use text_io::{
    CARRIAGE_RETURN, Failed, LINE_FEED, Line, LineFault, Lines, MAX_INPUT, MAX_LINE, MemSink,
    MemSource, Sink, Source, StdSink, StdSource, WriteFault, put_all,
};

#[test]
fn constants(rt: HostRuntime) {
    assert!(rt; MAX_INPUT == 67_108_864);
    assert!(rt; MAX_LINE == 1_048_576);
    assert!(rt; LINE_FEED == 10);
    assert!(rt; CARRIAGE_RETURN == 13);
}

/// What a reader of lines answers to so many calls, up to the end.
fn answers<S: Source>(alloc: Global, source: &mut S, calls: usize) -> Result<Vec<u8>, Fail> {
    let mut out = Vec::new(alloc);
    let mut lines = Lines::new(alloc)?;
    for _ in 0..calls {
        match lines.next_line(source) {
            Ok(Line::Text) => {
                out.push(b'=')?;
                out.extend_from_slice(lines.text())?;
                out.push(b';')?;
            }
            Ok(Line::Long) => out.extend_from_slice(b"long;")?,
            Ok(Line::End) => {
                out.extend_from_slice(b"end")?;
                return Ok(out);
            }
            Err(LineFault::ReadFault) => out.extend_from_slice(b"fault;")?,
            Err(LineFault::TooMuch) => out.extend_from_slice(b"much;")?,
        }
    }
    Ok(out)
}

#[test]
fn lines_in_any_pieces(rt: HostRuntime) -> Result<(), Fail> {
    let alloc = rt.alloc();
    let rows = [
        ("", "end"),
        ("\n", "=;end"),
        ("a", "=a;end"),
        ("a\n", "=a;end"),
        ("a\nbc", "=a;=bc;end"),
        ("a\r\nb\r\n", "=a;=b;end"),
        ("a\r\r\nb", "=a\r;=b;end"),
        ("a\r", "=a\r;end"),
        ("\r\n\r\n", "=;=;end"),
        ("a\rb\n\r", "=a\rb;=\r;end"),
        ("\n\nab\n\n", "=;=;=ab;=;end"),
    ];
    for (text, want) in rows {
        for most in [1, 2, 3, 64] {
            let bytes = Vec::from_slice(alloc, text.as_bytes())?;
            let mut source = MemSource::new(bytes, most, Vec::new(alloc));
            let got = answers(alloc, &mut source, 16)?;
            assert!(rt; got.as_slice() == want.as_bytes());
        }
    }
    Ok(())
}

#[test]
fn failing_reads(rt: HostRuntime) -> Result<(), Fail> {
    let alloc = rt.alloc();
    let rows = [
        (1, 1, "fault;fault;fault;"),
        (4, 2, "=ab;fault;fault;"),
        (3, 3, "=ab;=cd;fault;"),
        (3, 4, "=ab;=cd;end"),
    ];
    for (most, failing, want) in rows {
        let bytes = Vec::from_slice(alloc, b"ab\ncd\n")?;
        let mut source = MemSource::new(bytes, most, vec![in alloc; failing, failing + 1]?);
        let got = answers(alloc, &mut source, 3)?;
        assert!(rt; got.as_slice() == want.as_bytes());
        // The fault was answered again without reading: the next call of the source is the second that fails.
        if failing < 4 {
            assert!(rt; source.read(&mut [0]) == Err(Failed));
        }
        assert!(rt; source.read(&mut [0]).is_ok() || failing == 4);
    }
    Ok(())
}

#[test]
fn limit_of_a_line(rt: HostRuntime) -> Result<(), Fail> {
    let alloc = rt.alloc();
    let rows: [(usize, &str, Option<usize>); 6] = [
        (MAX_LINE, "", Some(MAX_LINE)),
        (MAX_LINE, "\nb", Some(MAX_LINE)),
        (MAX_LINE - 1, "\r\nb", Some(MAX_LINE - 1)),
        (MAX_LINE, "\r\nb", None),
        (MAX_LINE + 1, "\nb", None),
        (MAX_LINE + 1, "", None),
    ];
    for (len, end, want) in rows {
        let mut bytes = vec![in alloc; b'a'; len]?;
        bytes.extend_from_slice(end.as_bytes())?;
        let mut source = MemSource::new(bytes, 10_000, Vec::new(alloc));
        let mut lines = Lines::new(alloc)?;
        let got = match lines.next_line(&mut source) {
            Ok(Line::Text) => Some(lines.text().len()),
            _ => None,
        };
        assert!(rt; got == want);
        let next = lines.next_line(&mut source);
        let is_last = end.is_empty();
        assert!(rt; next == Ok(if is_last { Line::End } else { Line::Text }));
    }
    Ok(())
}

#[test]
fn limit_of_the_input(rt: HostRuntime) -> Result<(), Fail> {
    let alloc = rt.alloc();
    for (len, want) in [(MAX_INPUT, "=x;long;end"), (MAX_INPUT + 1, "=x;much;much;")] {
        let mut bytes = Vec::with_capacity(alloc, len)?;
        bytes.extend_from_slice(b"x\n")?;
        bytes.resize(len, b'a')?;
        let mut source = MemSource::new(bytes, 1 << 20, Vec::new(alloc));
        let got = answers(alloc, &mut source, 3)?;
        assert!(rt; got.as_slice() == want.as_bytes());
    }
    Ok(())
}

#[test]
fn pieces(rt: HostRuntime) -> Result<(), Fail> {
    let alloc = rt.alloc();
    let rows = [
        (10, 3, 0, "hello", Ok(()), "hello"),
        (5, 1, 0, "hello", Ok(()), "hello"),
        (4, 3, 0, "hello", Err(WriteFault), "hell"),
        (10, 2, 2, "hello", Err(WriteFault), "he"),
        (10, 0, 0, "hello", Err(WriteFault), ""),
        (0, 3, 0, "hello", Err(WriteFault), ""),
        (0, 3, 1, "", Ok(()), ""),
    ];
    for (room, most, failing, piece, want, held) in rows {
        let mut sink = MemSink::new(alloc, room, most, vec![in alloc; failing]?)?;
        assert!(rt; put_all(&mut sink, piece.as_bytes()) == want);
        assert!(rt; sink.bytes() == held.as_bytes());
    }
    Ok(())
}

#[test]
fn readers_and_writers_of_std(rt: HostRuntime) -> Result<(), Fail> {
    let alloc = rt.alloc();
    let text: &[u8] = b"a\r\n\nb\r";
    let got = answers(alloc, &mut StdSource::new(text), 9)?;
    assert!(rt; got.as_slice() == b"=a;=;=b\r;end".as_slice());

    let mut held = Vec::new(alloc);
    assert!(rt; put_all(&mut StdSink::new(&mut held), b"hello") == Ok(()));
    assert!(rt; held.as_slice() == b"hello".as_slice());

    let mut room = [0; 2];
    let mut sink = StdSink::new(room.as_mut_slice());
    assert!(rt; put_all(&mut sink, b"hello") == Err(WriteFault));
    assert!(rt; sink.write(b"o") == Ok(0));
    Ok(())
}
