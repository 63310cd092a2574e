use super::*;
use row_values::Value;
use std::test::*;

// A line each, and before it what is told of it.
const CASES: &str = "open quote: put a t k v='a
open quote: '
open quote: frob 'a
unknown command: frob
wrong words: get A t
unknown command: Tick 5
unknown command: 'tick' 5
unknown command: par
unknown command: worker compactor 1
unknown command: client
unknown command: end
wrong words: tick
wrong words: tick 5 5
wrong words: create_namespace
wrong words: drop_namespace a b
wrong words: add_column a t
wrong words: drop_column a t v v
wrong words: rename_table a t
wrong words: drop_table a
wrong words: create_table a t tablets 1
wrong words: create_table a t tables 1 v:int
wrong words: create_table A t tables 2 v
ok: create_table a t tablets 1 a:int b:int c:int d:int e:int f:int g:int h:int i:int j:int k:int l:int m:int n:int o:int p:int
wrong words: create_table a t tablets 1 a:int b:int c:int d:int e:int f:int g:int h:int i:int j:int k:int l:int m:int n:int o:int p:int q:int
wrong words: put a t k
ok: put a t k v=1 v=2 v=3 v=4 v=5 v=6 v=7 v=8 v=9 v=1 v=2 v=3 v=4 v=5 v=6 v=7
wrong words: put a t k v=1 v=2 v=3 v=4 v=5 v=6 v=7 v=8 v=9 v=1 v=2 v=3 v=4 v=5 v=6 v=7 v=8
wrong words: delete a t
wrong words: get a t k k
wrong words: get_at a t k
wrong words: get_at a t k ht 5 5
wrong words: scan a
wrong words: scan_at a t
ok: create_namespace _9
bad name: create_namespace 9_
bad name: create_namespace A
bad name: create_namespace a-b
bad name: create_namespace 'a'
ok: create_namespace abcdefghijklmnopqrstuvwxyz012345
bad name: create_namespace abcdefghijklmnopqrstuvwxyz0123456
bad name: drop_namespace A
bad name: rename_table a T u
bad name: rename_table a t U
bad name: drop_column a t V
ok: get a t A-z_.9
bad key: get a t k!
bad key: delete a t 'k'
ok: get a t 0123456789012345678901234567890123456789012345678901234567890123
bad key: get a t 01234567890123456789012345678901234567890123456789012345678901234
ok: put a t k v=9223372036854775807 w=-9223372036854775808
bad value: put a t k v=9223372036854775808
bad value: put a t k v=-9223372036854775809
bad value: put a t k v=-0
bad value: put a t k v=00
bad value: put a t k v=-01
bad value: put a t k v=+1
bad value: put a t k v=
bad value: put a t k v
bad name: put a t k =1
bad name: put a t k V
ok: put a t k v=null w='' x='a  = b'
bad value: put a t k v=Null
bad value: put a t k v='a'b
bad value: put a t k v='a''b'
bad name: add_column a t v
bad name: add_column a t v:float
bad name: add_column a t V:int
repeated column: create_table a t tablets 1 v:int w:int v:text
bad number: tick 1125899906842624
bad number: tick 18446744073709551616
bad number: tick 05
bad number: tick -5
bad number: tick '5'
bad number: create_table a t tablets 0 v:int
bad time: scan_at a t 1125899906842624
bad time: scan_at a t minus 10000001s
bad time: scan_at a t minus 05m
bad time: scan_at a t minus 5
bad time: scan_at a t minus m
bad time: scan_at a t minus
bad time: scan_at a t plus 5m
bad time: get_at a t k ht 4611686018427387904
bad name: get A t !
bad key: put a t ! v=x
bad value: put a t k v=x W=1
bad name: put a t k W=x v=x
bad number: create_table a t tablets 65 V:int
repeated column: create_table a t tablets 1 v:int v:int V:int
bad key: get_at a t ! never
ok: get_at a t k 1125899906842623
ok: scan_at a t minus 10000000m
ok: scan_at a t minus 0s
ok: scan_at a t ht 4611686018427387903
ok: tick 0
ok: tick 1125899906842623
ok: add_column a t v:int
wrong words: lag 1
no such slot: lag 0 5
no such slot: lag 65 5
ok: lag 64 18446744073709551615
bad number: lag 1 18446744073709551616
ok: create_table a t tablets 64 v:int
bad number: create_table a t tablets 65 v:int
ok: batch a t k v=1 w='x y' / l delete / m v=2
wrong words: batch a t
wrong words: batch a t k
wrong words: batch a t k v=1 /
wrong words: batch a t k v=1 / / l delete
bad key: batch a t k v=1 / ! delete
bad value: batch a t k delete v=1
bad name: batch a t k v=1 / l V=1
ok: split a t 0
ok: split a t 65535
wrong words: split a t
bad number: split a t 65536
bad number: split a t x
wrong words: list_tablets
bad name: list_tablets A
ok: list_tablets a
ok: cutoff
wrong words: cutoff 1
ok: compact
wrong words: compact 1
ok: stats 1
wrong words: stats
no such slot: stats 65
no such slot: stats x
ok: create_snapshot_schedule 0 18446744073709551615 a
ok: create_snapshot_schedule 1 10 ysql.a
wrong words: create_snapshot_schedule 1 10
bad number: create_snapshot_schedule 18446744073709551616 10 a
bad number: create_snapshot_schedule 1 18446744073709551616 a
bad number: create_snapshot_schedule 1 010 A
bad name: create_snapshot_schedule 1 10 ysql.
bad name: create_snapshot_schedule 1 10 ysql.ysql.a
bad name: create_snapshot_schedule 1 10 YSQL.a
bad name: create_snapshot_schedule 1 10 ycql.a
ok: create_snapshot_schedule 1 10 ysql.abcdefghijklmnopqrstuvwxyz012345
bad name: create_snapshot_schedule 1 10 ysql.abcdefghijklmnopqrstuvwxyz0123456
ok: edit_snapshot_schedule 00000004-0000-4000-8000-000000000001 18446744073709551615 0
wrong words: edit_snapshot_schedule 00000004-0000-4000-8000-000000000001 5
bad identifier: edit_snapshot_schedule S1 5 10
bad identifier: edit_snapshot_schedule 00000005-0000-4000-8000-000000000001 x 10
bad number: edit_snapshot_schedule 00000004-0000-4000-8000-000000000001 18446744073709551616 0
bad number: edit_snapshot_schedule 00000004-0000-4000-8000-000000000001 5 10m
ok: delete_snapshot_schedule {00000004-0000-4000-8000-000000000001}
wrong words: delete_snapshot_schedule
bad identifier: delete_snapshot_schedule 00000004-0000-4000-8000-000000000000
ok: take_snapshot 00000004000040008000000000000001
wrong words: take_snapshot
bad identifier: take_snapshot 1
ok: list_snapshot_schedules
wrong words: list_snapshot_schedules a
ok: list_snapshots
wrong words: list_snapshots a
ok: restore_snapshot_schedule 00000004-0000-4000-8000-000000000001 ht 4096000003
ok: restore_snapshot_schedule 00000004-0000-4000-8000-000000000001 minus 5m
wrong words: restore_snapshot_schedule 00000004-0000-4000-8000-000000000001
wrong words: restore_snapshot_schedule 00000004-0000-4000-8000-000000000001 ht 5 5
bad identifier: restore_snapshot_schedule 00000006-0000-4000-8000-000000000001 never
bad time: restore_snapshot_schedule 00000004-0000-4000-8000-000000000001 never
ok: clone_namespace a b
ok: clone_namespace a b 5
ok: clone_namespace a b minus 5s
wrong words: clone_namespace a
wrong words: clone_namespace a b ht 5 5
bad name: clone_namespace A b never
bad name: clone_namespace a B
bad time: clone_namespace a b never
bad time: clone_namespace a b ht
ok: list_snapshot_restorations
wrong words: list_snapshot_restorations a
ok: list_clones
wrong words: list_clones a
ok: cleanup
wrong words: cleanup a
ok: coordinate 0
ok: coordinate 1000000
wrong words: coordinate
bad number: coordinate 1000001
ok: settle
wrong words: settle 5
ok: restart_master
wrong words: restart_master 0
ok: restart_tablet 64
wrong words: restart_tablet
no such slot: restart_tablet 0
no such slot: restart_tablet 65
ok: history
wrong words: history 1
ok: add_column a t w:text";

fn name_of(cause: Cause) -> &'static str {
    match cause {
        Cause::LineTooLong => "line too long",
        Cause::BadByte => "bad byte",
        Cause::OpenQuote => "open quote",
        Cause::UnknownCommand => "unknown command",
        Cause::WrongWords => "wrong words",
        Cause::BadName => "bad name",
        Cause::BadKey => "bad key",
        Cause::BadValue => "bad value",
        Cause::BadNumber => "bad number",
        Cause::BadIdentifier => "bad identifier",
        Cause::BadTime => "bad time",
        Cause::NoSuchSlot => "no such slot",
        Cause::RepeatedColumn => "repeated column",
    }
}

// The number of the refused line, 0 where there is none, and what is told.
fn told(rt: &HostRuntime, text: &[u8]) -> (u64, &'static str) {
    match &read_script(rt.alloc(), text, 64) {
        Ok(_) => (0, "ok"),
        Err(ScriptRefused::Line { line, cause }) => (*line, name_of(*cause)),
        Err(ScriptRefused::NoMemory) => (0, "no memory"),
    }
}

#[test]
fn each_cause_at_each_kind_of_word(rt: HostRuntime) {
    let mut count: u32 = 0;
    for row in CASES.lines() {
        if let Some((wanted, line)) = row.split_once(": ") {
            assert_eq!(rt; told(&rt, line.as_bytes()).1, wanted, "{line}");
            count = count.saturating_add(1);
        }
    }
    assert_eq!(rt; count, 191);
    let long = [b'a'; 4097];
    assert_eq!(rt; told(&rt, &long[..4096]), (1, "unknown command"));
    assert_eq!(rt; told(&rt, &long), (1, "line too long"));
    assert_eq!(rt; told(&rt, &[0u8; 4097]), (1, "line too long"));
    assert_eq!(rt; told(&rt, b""), (0, "ok"));
    assert_eq!(rt; told(&rt, b"\n\r\n  \n# 'a\ntick 5\r\ntick 7"), (0, "ok"));
    assert_eq!(rt; told(&rt, b"tick 5\r"), (1, "bad byte"));
    assert_eq!(rt; told(&rt, b"# a\n# \x7f\n"), (2, "bad byte"));
    assert_eq!(rt;
        told(&rt, b"tick 5\n\n# c\ntick x\ntick"),
        (4, "bad number")
    );
    assert_eq!(rt; told(&rt, b"a\t'b"), (1, "bad byte"));
}

#[test]
fn the_commands_are_those_of_the_text(rt: HostRuntime) {
    let text: &[u8] = b"tick 7\n\nput a t k v=-2 w='x y'\nget_at a t k minus 3m\n";
    let read = read_script(rt.alloc(), text, 1);
    let script = match &read {
        Ok(script) => script,
        Err(_) => return,
    };
    assert_eq!(rt; script.lines.len(), 3);
    if let [
        ScriptLine::Single(first),
        ScriptLine::Single(second),
        ScriptLine::Single(third),
    ] = script.lines.as_slice()
    {
        assert_eq!(rt; first.line, 1);
        assert_eq!(rt; first.command, ScriptCommand::Tick { micros: 7 });
        assert_eq!(rt; second.line, 3);
        if let ScriptCommand::Put { key, cells, .. } = &second.command {
            assert!(rt; key.as_slice() == b"k".as_slice());
            if let [v, w] = cells.as_slice() {
                assert!(rt; v.value == Value::Int(-2));
                assert!(rt; w.column.as_slice() == b"w".as_slice());
                assert!(rt;
                    matches!(&w.value, Value::Text(text) if text.as_slice() == b"x y".as_slice())
                );
            }
        }
        assert!(rt;
            matches!(
                &third.command,
                ScriptCommand::GetAt {
                    at: Time::MinusMinutes(3),
                    ..
                }
            )
        );
    }
}
