// Runs of scripts with restores, clones and cleanups, and what they write, word by word. In both an
// identifier is short: `S1` is schedule 1.
use crate::tests::{Seen, seen_of};
use std::alloc::Global;
use std::test::Fail;

// The lines that every script here begins with, and what they write.
const BEGUN: &str = "tick 1000000
create_namespace a
create_table a t tablets 1 v:int
create_snapshot_schedule 1 10 a
";

const BEGUN_TEXT: &str = "2: ok 1000000.0 N1
3: ok 1000000.2 T1
4: ok 1000000.3 S1
";

// What a script has behind these lines, and what that writes.
#[derive(Clone, Copy)]
struct WorkedRun {
    script: &'static str,
    text: &'static str,
}

const DUE_AND_CUTOFF: WorkedRun = WorkedRun {
    script: "take_snapshot S1
take_snapshot S1
settle
take_snapshot S1
cutoff
stats 1
list_snapshot_schedules
",
    text: "5: ok 1000000.4 P1
6: refused busy P1
7: 4 events
8: refused not_due 61000000.4
9: 1 events
10: stats cutoff 1000000.5 versions 0 frozen 0 inbox 0
11: 1 schedules
  S1 a interval 1 retention 10 low 1000000.3
",
};

const WINDOW_LOW_END: WorkedRun = WorkedRun {
    script: "restore_snapshot_schedule S1 ht 4096000002
restore_snapshot_schedule S1 ht 4096000003
",
    text: "5: refused too_early 1000000.3
6: ok 1000000.5 R1
",
};

const WINDOW_HIGH_END: WorkedRun = WorkedRun {
    script: "restore_snapshot_schedule S1 ht 4096000004
restore_snapshot_schedule S1 ht 4096000004
settle
list_snapshots
",
    text: "5: refused future 1000000.4
6: ok 1000000.5 R1
7: 18 events
8: 1 snapshots
  P1 S1 COMPLETE after 1000000.2 at 1000000.9
",
};

const DROPPED_TABLE_COMES_BACK: WorkedRun = WorkedRun {
    script: "put a t x v=7
drop_table a t
list_tablets a
restore_snapshot_schedule S1 ht 4096000004
settle
get a t x
",
    text: "5: ok 1000000.3
6: ok 1000000.6
7: 1 tablets
  B1 T1 slot 1 0..65536 hidden 1000000.6
8: ok 1000000.8 R1
9: 15 events
10: row v=7
",
};

const UNDOING_A_RESTORE: WorkedRun = WorkedRun {
    script: "put a t x v=1
put a t x v=2
restore_snapshot_schedule S1 ht 4096000003
settle
get a t x
put a t x v=3
restore_snapshot_schedule S1 ht 4096000010
settle
get a t x
",
    text: "5: ok 1000000.3
6: ok 1000000.4
7: ok 1000000.6 R1
8: 18 events
9: row v=1
10: ok 1000000.25
11: ok 1000000.27 R2
12: 18 events
13: row v=2
",
};

const FENCED_TABLET: WorkedRun = WorkedRun {
    script: "put a t x v=1
restore_snapshot_schedule S1 ht 4096000003
coordinate 2
put a t x v=2
get a t x
add_column a t w:int
settle
get a t x
",
    text: "5: ok 1000000.3
6: ok 1000000.5 R1
7: 2 events
8: refused fenced R1
9: refused fenced R1
10: refused busy R1
11: 16 events
12: row v=1
",
};

const TO_THE_SPLITS_OWN_STAMP: WorkedRun = WorkedRun {
    script: "put a t x v=1
put a t zz v=2
split a t 1000
put a t x v=10
put a t zz v=20
restore_snapshot_schedule S1 ht 4096000007
settle
scan a t
list_tablets a
",
    text: "5: ok 1000000.3
6: ok 1000000.4
7: ok 1000000.7 B2 B3
8: ok 1000000.8
9: ok 1000000.8
10: ok 1000000.10 R1
11: 33 events
12: 2 rows
  x v=1
  zz v=2
13: 3 tablets
  B1 T1 slot 1 0..65536 hidden 1000000.7
  B2 T1 slot 2 0..1000 active
  B3 T1 slot 3 1000..65536 active
",
};

const EDITED_SCHEDULE: WorkedRun = WorkedRun {
    script: "tick 700000000
edit_snapshot_schedule S1 1 20
restore_snapshot_schedule S1 99999999
restore_snapshot_schedule S1 100000000
edit_snapshot_schedule S1 5 5
",
    text: "6: ok 700000000.0
7: refused too_early 100000000.0
8: ok 700000000.2 R1
9: refused bad_period 5 5
",
};

const MASTER_RESTARTS_IN_EACH_STATE: WorkedRun = WorkedRun {
    script: "put a t x v=1
put a t x v=2
restore_snapshot_schedule S1 ht 4096000003
restart_master
coordinate 4
restart_master
coordinate 5
restart_master
coordinate 1
restart_master
coordinate 4
restart_master
coordinate 4
restart_master
get a t x
list_snapshot_restorations
",
    text: "5: ok 1000000.3
6: ok 1000000.4
7: ok 1000000.6 R1
8: ok 1000000.7
9: 4 events
10: ok 1000000.12
11: 5 events
12: ok 1000000.18
13: 1 events
14: ok 1000000.20
15: 4 events
16: ok 1000000.25
17: 4 events
18: ok 1000000.30
19: row v=1
20: 1 restorations
  R1 S1 RESTORED to 1000000.3 at 1000000.12
",
};

const TABLET_RESTARTS: WorkedRun = WorkedRun {
    script: "put a t x v=1
put a t x v=2
restore_snapshot_schedule S1 ht 4096000003
coordinate 11
restart_tablet 1
settle
get a t x
",
    text: "5: ok 1000000.3
6: ok 1000000.4
7: ok 1000000.6 R1
8: 11 events
9: ok 1000000.18
10: 9 events
11: row v=1
",
};

const LATE_SNAPSHOT: WorkedRun = WorkedRun {
    script: "split a t 1000
tick 700000000
take_snapshot S1
cleanup
settle
cleanup
stats 1
list_tablets a
",
    text: "5: ok 1000000.5 B2 B3
7: ok 700000000.0 P1
8: 1 events
9: 10 events
10: 2 events
11: empty
12: 2 tablets
  B2 T1 slot 2 0..1000 active
  B3 T1 slot 3 1000..65536 active
",
};

const CLEANUP_KEEPS_A_DROPPED_TABLE: WorkedRun = WorkedRun {
    script: "put a t x v=7
drop_table a t
compact
cleanup
restore_snapshot_schedule S1 ht 4096000004
settle
get a t x
",
    text: "5: ok 1000000.3
6: ok 1000000.6
7: 1 events
8: 1 events
9: ok 1000000.10 R1
10: 15 events
11: row v=7
",
};

const CLONE_OF_A_BUSY_SOURCE: WorkedRun = WorkedRun {
    script: "put a t x v=1
clone_namespace a b ht 4096000004
split a t 1000
put a t x v=9
drop_table a t
settle
get b t x
get a t x
list_clones
",
    text: "5: ok 1000000.3
6: ok 1000000.5 K1
7: ok 1000000.7 B3 B4
8: ok 1000000.8
9: ok 1000000.10
10: 20 events
11: row v=1
12: refused unknown_table
13: 1 clones
  K1 a b COMPLETE to 1000000.4
",
};

const NAMES_TAKEN: WorkedRun = WorkedRun {
    script: "create_namespace a
create_snapshot_schedule 1 10 a
drop_namespace a
drop_table a t
drop_namespace a
clone_namespace zz b
create_namespace c
create_snapshot_schedule 10 10 c
clone_namespace c d
",
    text: "5: refused name_taken N1
6: ok 1000000.5 S2
7: refused not_empty T1
8: ok 1000000.8
9: refused under_schedule S1
10: refused unknown_namespace
11: ok 1000000.11 N2
12: refused bad_period 10 10
13: refused no_schedule N2
",
};

// The kind in an identifier's text for which a letter stands.
fn kind_of(letter: u8) -> Option<u8> {
    match letter {
        b'N' => Some(b'1'),
        b'T' => Some(b'2'),
        b'B' => Some(b'3'),
        b'S' => Some(b'4'),
        b'P' => Some(b'5'),
        b'R' => Some(b'6'),
        b'K' => Some(b'7'),
        _ => None,
    }
}

// Puts two texts behind each other, with each identifier whole.
fn whole(alloc: Global, front: &str, back: &str) -> Result<Vec<u8>, Fail> {
    let short = format!(in alloc; "{front}{back}")?;
    let mut written = Vec::new(alloc);
    let mut letter = None;
    for byte in short.as_bytes() {
        match (letter.and_then(kind_of), byte) {
            (Some(kind), b'1'..=b'9') => {
                written.pop();
                written.extend_from_slice(b"0000000")?;
                written.push(kind)?;
                written.extend_from_slice(b"-0000-4000-8000-00000000000")?;
            }
            _ => {}
        }
        written.push(*byte)?;
        letter = Some(*byte);
    }
    Ok(written)
}

fn run_begun(alloc: Global, back: &str) -> Result<Seen, Fail> {
    seen_of(alloc, &whole(alloc, BEGUN, back)?)
}

#[test]
fn restores_clones_and_cleanups_write_the_worked_lines(rt: HostRuntime) -> Result<(), Fail> {
    let alloc = rt.alloc();
    let cases = [
        DUE_AND_CUTOFF,
        WINDOW_LOW_END,
        WINDOW_HIGH_END,
        DROPPED_TABLE_COMES_BACK,
        UNDOING_A_RESTORE,
        FENCED_TABLET,
        TO_THE_SPLITS_OWN_STAMP,
        EDITED_SCHEDULE,
        MASTER_RESTARTS_IN_EACH_STATE,
        TABLET_RESTARTS,
        LATE_SNAPSHOT,
        CLEANUP_KEEPS_A_DROPPED_TABLE,
        CLONE_OF_A_BUSY_SOURCE,
        NAMES_TAKEN,
    ];
    for case in cases {
        let seen = run_begun(alloc, case.script)?;
        assert_eq!(rt; seen.status, 0);
        assert_eq!(rt;
            seen.text.as_slice(),
            whole(alloc, BEGUN_TEXT, case.text)?.as_slice()
        );
    }
    Ok(())
}

// After each count of a restore's events the tablet and the master lose what they may lose.
#[test]
fn a_restore_comes_once_whenever_parts_restart(rt: HostRuntime) -> Result<(), Fail> {
    let alloc = rt.alloc();
    for count in 0u64..19 {
        let script = format!(in alloc;
            "put a t x v=1
put a t x v=2
restore_snapshot_schedule S1 ht 4096000003
coordinate {count}
restart_tablet 1
restart_master
settle
put a t y v=3
settle
scan a t
"
        )?;
        let seen = run_begun(alloc, script.as_str())?;
        assert_eq!(rt; seen.status, 0);
        assert!(rt;
            seen.text
                .ends_with(b"\n13: 0 events\n14: 2 rows\n  x v=1\n  y v=3\n")
        );
    }
    Ok(())
}

// The tablet in slot 2 is the one that copies.
#[test]
fn a_clone_comes_once_whenever_parts_restart(rt: HostRuntime) -> Result<(), Fail> {
    let alloc = rt.alloc();
    for count in 0u64..21 {
        let script = format!(in alloc;
            "put a t x v=1
clone_namespace a b ht 4096000004
split a t 1000
put a t x v=9
drop_table a t
coordinate {count}
restart_tablet 1
restart_tablet 2
restart_master
settle
settle
get b t x
"
        )?;
        let seen = run_begun(alloc, script.as_str())?;
        assert_eq!(rt; seen.status, 0);
        assert!(rt; seen.text.ends_with(b"\n15: 0 events\n16: row v=1\n"));
    }
    Ok(())
}
