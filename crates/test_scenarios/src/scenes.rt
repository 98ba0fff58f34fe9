use irig_device::Watched;
use irig_scene::{Refusal, SceneFault, Shown, run_scene, run_scene_shown};
use std::alloc::Global;
use std::io;
use std::io::{BufReader, Write};
use std::test::Fail;
use test_devices::{Break, Fuse};

// The plain plant line, and three lines after it that write, the last its refusal.
const SCENARIO: &str =
    r#"{"version":1,"start":"2016-06-15T12:00:00Z","leaps":[],"parity":"even","sense":"add","sbs":"check","generators":[{"local":0},{"local":0},{"local":0}],"readers":[{"name":"r1","lock_after":2,"holdover":3600}]}
{"do":"seconds","n":2}
{"do":"seconds","n":1}
{"do":"tick","r":"r9"}
"#;

// What stands after so many whole lines.
const AFTER_LINES: [&str; 4] = [
    "",
    "",
    "2 r1 2016-06-15T12:00:02Z locked voted\n",
    "2 r1 2016-06-15T12:00:02Z locked voted\n3 r1 2016-06-15T12:00:03Z locked voted\n",
];

// What stands at the end.
const WHOLE: &str = "2 r1 2016-06-15T12:00:02Z locked voted
3 r1 2016-06-15T12:00:03Z locked voted
refused: line 4: 19 NoSuchReader
";

const BREAKS: [Break; 3] = [Break::Fail, Break::Interrupt, Break::Nothing];

#[test]
fn a_refused_line_is_handed_back(rt: HostRuntime) -> Result<(), Fail> {
    let mut input = Watched::new(SCENARIO.as_bytes());
    let mut output = Watched::new(Vec::new(rt.alloc()));
    let shown = Shown {
        all: false,
        ports: false,
    };
    let mut refused = None;
    let answer = run_scene_shown(rt.alloc(), &mut input, &mut output, shown, &mut refused);
    let fault = SceneFault::Refused {
        line: 4,
        refusal: Refusal::NoSuchReader,
    };
    assert!(rt; answer == Err(fault));
    assert!(rt; output.into_inner().as_slice() == WHOLE.as_bytes());
    let Some(refused) = refused else {
        return Err(Fail::from("no refused line"));
    };
    assert!(rt; refused.line.as_slice() == br#"{"do":"tick","r":"r9"}"#.as_slice());
    assert!(rt; refused.names.contains("r1"));
    assert!(rt; refused.edges.as_slice() == [3, 3, 3].as_slice());
    Ok(())
}

#[test]
fn a_line_before_the_plant_is_refused_without_names(rt: HostRuntime) -> Result<(), Fail> {
    let mut input = Watched::new(b"{}\nmore".as_slice());
    let mut output = Watched::new(Vec::new(rt.alloc()));
    let shown = Shown {
        all: true,
        ports: true,
    };
    let mut refused = None;
    let answer = run_scene_shown(rt.alloc(), &mut input, &mut output, shown, &mut refused);
    assert!(rt; answer.is_err());
    let Some(refused) = refused else {
        return Err(Fail::from("no refused line"));
    };
    assert!(rt; refused.line.as_slice() == b"{}".as_slice());
    assert!(rt; refused.names.is_empty() && refused.edges.is_empty());
    Ok(())
}

// Whether a run whose input breaks after so many bytes leaves this text, and a note.
fn leaves(alloc: Global, calls: u64, how: Break, text: &str) -> Result<bool, Fail> {
    let bytes = BufReader::with_capacity(alloc, 1, SCENARIO.as_bytes())?;
    let mut input = Watched::new(Fuse::new(bytes, calls, how));
    let mut output = Watched::new(Vec::new(alloc));
    let answer = run_scene(alloc, &mut input, &mut output, false);
    let has_noted = input.failed() && !output.failed();
    let written = output.into_inner();
    Ok(has_noted && answer == Err(SceneFault::Read) && written.as_slice() == text.as_bytes())
}

#[test]
fn a_read_that_breaks_leaves_the_text_of_the_whole_lines(rt: HostRuntime) -> Result<(), Fail> {
    let mut calls = 0u64;
    let mut lines = 0usize;
    for byte in SCENARIO.as_bytes() {
        let Some(text) = AFTER_LINES.get(lines) else {
            return Err(Fail::from("too many lines"));
        };
        for how in BREAKS {
            assert!(rt; leaves(rt.alloc(), calls, how, text)?);
        }
        calls = calls.wrapping_add(1);
        if *byte == b'\n' {
            lines = lines.wrapping_add(1);
        }
    }
    Ok(())
}

// A writer that takes one byte a call.
#[derive(Drop)]
struct Narrow<'a>(&'a mut Vec<u8>);

impl Write for Narrow<'_> {
    fn write(&mut self, bytes: &[u8]) -> io::Result<usize> {
        let Some(byte) = bytes.first() else {
            return Ok(0);
        };
        self.0.push(*byte)?;
        Ok(1)
    }

    fn flush(&mut self) -> io::Result<()> {
        Ok(())
    }
}

// Whether a run whose output breaks after so many bytes leaves just these, and a note.
fn leaves_a_front(alloc: Global, calls: usize, how: Break) -> bool {
    let mut written = Vec::new(alloc);
    let mut input = Watched::new(SCENARIO.as_bytes());
    let mut output = Watched::new(Fuse::new(Narrow(&mut written), calls as u64, how));
    let answer = run_scene(alloc, &mut input, &mut output, false);
    let has_noted = output.failed() && !input.failed();
    let front = WHOLE.as_bytes().get(..calls);
    has_noted && answer == Err(SceneFault::Write) && front == Some(written.as_slice())
}

#[test]
fn a_write_that_breaks_leaves_a_front_of_the_text(rt: HostRuntime) {
    for calls in 0..WHOLE.len() {
        for how in BREAKS {
            assert!(rt; leaves_a_front(rt.alloc(), calls, how));
        }
    }
}

#[test]
fn each_fault_has_its_text(rt: HostRuntime) -> Result<(), Fail> {
    let refused = SceneFault::Refused {
        line: 1,
        refusal: Refusal::Json,
    };
    let rows = [
        (SceneFault::Read, "read failed"),
        (SceneFault::Write, "write failed"),
        (SceneFault::Memory, "out of memory"),
        (refused, "scenario refused"),
    ];
    for (fault, expected) in rows {
        let text = format!(in rt.alloc(); "{fault}")?;
        assert!(rt; text.as_str() == expected);
    }
    Ok(())
}
