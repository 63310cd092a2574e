use crate::run::run;
use script_io::{MemorySink, MemorySource};
use std::alloc::Global;
use std::test::Fail;

const NEVER: u64 = 1000000;

const SCRIPT: &[u8] =
    b"tick 1000000\ncreate_namespace a\ncreate_table a t tablets 1 v:int\nput a t x v=1\nget a t x\nget_at a t x ht 4096000001";

const TEXT: &[u8] =
    b"2: ok 1000000.0 00000001-0000-4000-8000-000000000001\n3: ok 1000000.2 00000002-0000-4000-8000-000000000001\n4: ok 1000000.3\n5: row v=1\n6: refused unknown_table\n";

const COLUMNS: &[u8] =
    b"tick 1000000\ncreate_namespace a\ncreate_table a t tablets 1 v:int\nput a t x v=1\nadd_column a t w:text\nput a t x w='q'\nget a t x\nget_at a t x ht 4096000003\nrename_table a t u\nget a t x\ndrop_column a u v\nscan a u\nadd_column a u v:int\nget a u x\n";

const COLUMNS_TEXT: &[u8] =
    b"2: ok 1000000.0 00000001-0000-4000-8000-000000000001\n3: ok 1000000.2 00000002-0000-4000-8000-000000000001\n4: ok 1000000.3\n5: ok 1000000.5\n6: ok 1000000.6\n7: row v=1 w='q'\n8: row v=1\n9: ok 1000000.9\n10: refused unknown_table\n11: ok 1000000.12\n12: 1 rows\n  x w='q'\n13: ok 1000000.15\n14: row w='q' v=null\n";

// A run whose call of `read` with this number fails, and whose call of `write` with this number
// does, and what comes of it. `room` is what the sink has from the start.
#[derive(Clone, Copy)]
struct Case<'a> {
    word: &'a str,
    script: &'a [u8],
    failing_read: u64,
    failing_write: u64,
    room: usize,
    status: u8,
    done: u64,
    text: &'a [u8],
}

const WHOLE: Case = Case {
    word: "run",
    script: SCRIPT,
    failing_read: NEVER,
    failing_write: NEVER,
    room: 0,
    status: 0,
    done: 6,
    text: TEXT,
};

// How a run ended: its status, the commands that were done, and the bytes written.
#[derive(Drop)]
pub struct Seen {
    pub status: u8,
    pub done: u64,
    pub entries: u64,
    pub text: Vec<u8>,
}

fn run_of(alloc: Global, case: Case) -> Result<Seen, Fail> {
    let words = vec![in alloc; String::from_str(alloc, case.word)?]?;
    let failing_reads = [case.failing_read].to_vec(alloc)?;
    let failing_writes = [case.failing_write].to_vec(alloc)?;
    let mut source = MemorySource::new(case.script.to_vec(alloc)?, failing_reads);
    let mut sink = MemorySink::new(Vec::with_capacity(alloc, case.room)?, failing_writes);
    let ended = run(alloc, &words, &mut source, &mut sink);
    Ok(Seen {
        status: ended.status,
        done: ended.done,
        entries: ended.history.len(),
        text: sink.bytes().to_vec(alloc)?,
    })
}

// What comes of a run of this script that nothing fails.
pub(crate) fn seen_of(alloc: Global, script: &[u8]) -> Result<Seen, Fail> {
    run_of(alloc, Case { script, ..WHOLE })
}

#[test]
fn each_status_comes_for_its_cause(rt: HostRuntime) -> Result<(), Fail> {
    let alloc = rt.alloc();
    let unknown: &[u8] = b"tick 1\nfrobnicate";
    let wrong: &[u8] = b"# a key alone is no put\n\nput a t x";
    let section: &[u8] = b"tick 1\npar\nclient\nend\n";
    let refused = Case {
        script: unknown,
        status: 3,
        done: 0,
        text: b"line 2: unknown command\n",
        ..WHOLE
    };
    let cases = [
        WHOLE,
        Case {
            script: COLUMNS,
            done: 14,
            text: COLUMNS_TEXT,
            ..WHOLE
        },
        Case {
            script: b"",
            done: 0,
            text: b"",
            ..WHOLE
        },
        Case {
            word: "go",
            status: 2,
            done: 0,
            text: b"",
            ..WHOLE
        },
        refused,
        Case {
            script: wrong,
            text: b"line 3: wrong words\n",
            ..refused
        },
        Case {
            script: section,
            ..refused
        },
        Case {
            failing_write: 0,
            status: 5,
            text: b"",
            ..refused
        },
        Case {
            script: b"t",
            failing_read: 1,
            status: 4,
            done: 0,
            text: b"",
            ..WHOLE
        },
        Case {
            failing_read: 0,
            status: 4,
            done: 0,
            text: b"",
            ..WHOLE
        },
        Case {
            failing_write: 0,
            status: 5,
            done: 1,
            text: b"",
            ..WHOLE
        },
        Case {
            failing_write: 1,
            status: 5,
            done: 2,
            text: &TEXT[..53],
            ..WHOLE
        },
    ];
    for case in cases {
        let seen = run_of(alloc, case)?;
        assert_eq!(rt; seen.status, case.status);
        assert_eq!(rt; seen.done, case.done);
        assert_eq!(rt; seen.text.as_slice(), case.text);
    }
    assert_eq!(rt; run_of(alloc, WHOLE)?.entries, 8);
    let long = vec![in alloc; b'#'; 1_048_577]?;
    assert_eq!(rt;
        run_of(
            alloc,
            Case {
                script: &long,
                ..WHOLE
            }
        )?
        .status,
        7
    );
    Ok(())
}

// The 4096 logical ticks of the last reading are used up: the next event has no stamp.
#[test]
fn the_clock_ends(rt: HostRuntime) -> Result<(), Fail> {
    let alloc = rt.alloc();
    let mut script = b"tick 1125899906842623\n".to_vec(alloc)?;
    let mut text = b"2: ok 1125899906842623.0 00000001-0000-4000-8000-000000000001\n".to_vec(
        alloc,
    )?;
    for line in 2u64..4099 {
        script.extend_from_slice(b"create_namespace a\n")?;
        if 2 < line && line < 4098 {
            let words = format!(in alloc;
                "{line}: refused name_taken 00000001-0000-4000-8000-000000000001\n"
            )?;
            text.extend_from_slice(words.as_bytes())?;
        }
    }
    let seen = run_of(
        alloc,
        Case {
            script: &script,
            ..WHOLE
        },
    )?;
    assert_eq!(rt; seen.status, 8);
    assert_eq!(rt; seen.done, 4097);
    assert_eq!(rt; seen.entries, 4096);
    assert_eq!(rt; seen.text.as_slice(), text.as_slice());
    Ok(())
}

// Any one allocation of the run may fail: `rt try --test --fail-alloc N` makes the Nth fail. The
// sink's room is there already, so that only the run itself may lack memory.
#[test]
fn a_run_without_memory_answers_6_or_the_right_text(rt: HostRuntime) -> Result<(), Fail> {
    let alloc = rt.alloc();
    let whole = Case {
        script: COLUMNS,
        room: 2048,
        done: 14,
        text: COLUMNS_TEXT,
        ..WHOLE
    };
    let seen = run_of(alloc, whole)?;
    if seen.status == 6 {
        assert!(rt; whole.text.starts_with(&seen.text));
    } else {
        assert_eq!(rt; seen.status, whole.status);
        assert_eq!(rt; seen.text.as_slice(), whole.text);
    }
    Ok(())
}
