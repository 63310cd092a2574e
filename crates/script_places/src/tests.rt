use super::*;
use commands::NamedOp;
use row_values::{Bytes, Records, Value};
use script_words::{Cause, LineError, words_of_line};
use std::alloc::Global;
use std::test::*;
use yb_ident::Kind;

// A line each, and before it what is told of it. Its first word says which places the others have.
const CASES: &str = "ok: schedule 00000004-0000-4000-8000-000000000001
ok: schedule 00000004-0000-4000-8000-FFFFffffffff
ok: schedule 00000004000040008000000000000001
ok: schedule {00000004-0000-4000-8000-000000000001}
ok: schedule urn:uuid:00000004-0000-4000-8000-000000000001
wrong words: schedule
wrong words: schedule 00000004-0000-4000-8000-000000000001 x
bad identifier: schedule 00000003-0000-4000-8000-000000000001
bad identifier: schedule 00000005-0000-4000-8000-000000000001
bad identifier: schedule 00000004-0000-4000-8000-000000000000
bad identifier: schedule 00000004-0000-4000-8001-000000000001
bad identifier: schedule 00000004-0000-1000-8000-000000000001
bad identifier: schedule 01000004-0000-4000-8000-000000000001
bad identifier: schedule 00000004-0000-4000-8000-00000000001
bad identifier: schedule 00000004-0000-4000-8000-00000000000g
bad identifier: schedule {00000004000040008000000000000001}
bad identifier: schedule '00000004-0000-4000-8000-000000000001'
bad identifier: schedule S1
bad identifier: schedule ''
ok: slot 1
ok: slot 3
wrong words: slot
wrong words: slot 1 1
no such slot: slot 0
no such slot: slot 4
no such slot: slot 01
no such slot: slot -1
no such slot: slot '1'
no such slot: slot one
no such slot: slot 4294967297
no such slot: slot 18446744073709551617
ok: items k v=1
ok: items k delete
ok: items k v=1 / l delete / k v=null w='x / y'
ok: items delete delete / delete delete=1
ok: items k a=1 b=1 c=1 d=1 e=1 f=1 g=1 h=1 i=1 j=1 k=1 l=1 m=1 n=1 o=1 p=1
wrong words: items k a=1 b=1 c=1 d=1 e=1 f=1 g=1 h=1 i=1 j=1 k=1 l=1 m=1 n=1 o=1 p=1 q=1
wrong words: items
wrong words: items k
wrong words: items /
wrong words: items / k v=1
wrong words: items k v=1 /
wrong words: items k v=1 / / l delete
wrong words: items k / l delete
wrong words: items k! v=x / l
bad value: items k delete v=1
bad value: items k delete delete
bad value: items k v=1 delete
bad value: items k v=1/ l delete
bad value: items k v=1/l delete
bad name: items k /v=1
bad name: items k '/'
bad name: items k =x
bad name: items k DELETE
bad key: items k! v=x
bad key: items '/' v=x
bad key: items k/ v=x
bad value: items k v=x / l! =1
bad key: items k v=1 / l! v=x
bad name: items k v=1 / l V=x / m! delete
wrong words: all A ! 9 0 S1 k
bad name: all A ! 9 0 S1 ! =1
bad key: all a ! 9 0 S1 ! =1
bad number: all a k 9 0 S1 ! =1
no such slot: all a k 8 0 S1 ! =1
bad identifier: all a k 8 3 S1 ! =1
bad identifier: all a k 8 3 00000001-0000-4000-8000-000000000007 ! =1
bad key: all a k 8 3 00000002-0000-4000-8000-000000000007 ! =1
bad name: all a k 8 3 00000002-0000-4000-8000-000000000007 k =1
ok: all a k 8 3 00000002-0000-4000-8000-000000000007 k v=1
wrong words: table tables 9 x
bad number: table tablets 9 x
bad name: table tablets 8 x
repeated column: table tablets 8 x:int y:int x:text X
ok: table tablets 8 x:int y:text
bad name: cells x int
bad name: cells x:int =x
bad value: cells x:int a=x
bad name: cells x:int a=1 B=1
ok: cells x:int a=1 a=2
wrong words: time ht 5 5
bad time: time ht x
ok: time minus 5m
ok: database a
ok: database ysql.a
wrong words: database
wrong words: database a b
bad name: database ysql.
bad name: database ysql.ysql.a
bad name: database A
ok: maybe k
ok: maybe k minus 5m
ok: maybe k ht 5
bad time: maybe k x
bad key: maybe k! x
wrong words: maybe k ht 5 5";

fn name_of(cause: Cause) -> &'static str {
    match cause {
        Cause::WrongWords => "wrong words",
        Cause::BadName => "bad name",
        Cause::BadKey => "bad key",
        Cause::BadValue => "bad value",
        Cause::BadNumber => "bad number",
        Cause::BadIdentifier => "bad identifier",
        Cause::BadTime => "bad time",
        Cause::NoSuchSlot => "no such slot",
        Cause::RepeatedColumn => "repeated column",
        _ => "another cause",
    }
}

// Reads the words of a place, the first of these, and gives those behind them. There are three slots.
fn behind(alloc: Global, place: Place, words: &[Bytes]) -> Result<&[Bytes], LineError> {
    let none = &words[words.len()..];
    match place {
        Place::Tablets => {
            let (_word, rest) = next_of(words)?;
            Ok(rest)
        }
        Place::Name => {
            let (_name, rest) = name_at(alloc, words)?;
            Ok(rest)
        }
        Place::Database => {
            let (_name, rest) = database_at(alloc, words)?;
            Ok(rest)
        }
        Place::Key => {
            let (_key, rest) = key_at(alloc, words)?;
            Ok(rest)
        }
        Place::Number { least, most } => {
            let (_number, rest) = number_at(words, Cause::BadNumber, least, most)?;
            Ok(rest)
        }
        Place::Slot => {
            let (_slot, rest) = slot_at(words, 3)?;
            Ok(rest)
        }
        Place::Identifier { kind } => {
            let (word, rest) = next_of(words)?;
            let _id = identifier(word.as_slice(), kind)?;
            Ok(rest)
        }
        Place::Column => {
            let (_column, rest) = column_at(alloc, words)?;
            Ok(rest)
        }
        Place::Time => {
            let _time = time(words)?;
            Ok(none)
        }
        Place::MaybeTime => {
            let _time = maybe_time(words)?;
            Ok(none)
        }
        Place::Cells => {
            let _cells = cells(alloc, words)?;
            Ok(none)
        }
        Place::Columns => {
            let _columns = columns(alloc, words)?;
            Ok(none)
        }
        Place::Items => {
            let _items = items(alloc, words)?;
            Ok(none)
        }
    }
}

// Reads the words as the places say.
fn follow(alloc: Global, places: &[Place], words: &[Bytes]) -> Result<(), LineError> {
    counted(places, words)?;
    let mut rest = words;
    for place in places {
        rest = behind(alloc, *place, rest)?;
    }
    Ok(())
}

fn read(alloc: Global, form: &[u8], words: &[Bytes]) -> Result<(), LineError> {
    let eight = Place::Number { least: 1, most: 8 };
    let schedule = Place::Identifier {
        kind: Kind::Schedule,
    };
    let table = Place::Identifier { kind: Kind::Table };
    if form == b"schedule".as_slice() {
        return follow(alloc, &[schedule], words);
    }
    if form == b"slot".as_slice() {
        return follow(alloc, &[Place::Slot], words);
    }
    if form == b"items".as_slice() {
        return follow(alloc, &[Place::Items], words);
    }
    if form == b"table".as_slice() {
        return follow(alloc, &[Place::Tablets, eight, Place::Columns], words);
    }
    if form == b"cells".as_slice() {
        return follow(alloc, &[Place::Column, Place::Cells], words);
    }
    if form == b"time".as_slice() {
        return follow(alloc, &[Place::Time], words);
    }
    if form == b"database".as_slice() {
        return follow(alloc, &[Place::Database], words);
    }
    if form == b"maybe".as_slice() {
        return follow(alloc, &[Place::Key, Place::MaybeTime], words);
    }
    let all = [
        Place::Name,
        Place::Key,
        eight,
        Place::Slot,
        table,
        Place::Items,
    ];
    follow(alloc, &all, words)
}

fn told(alloc: Global, line: &[u8]) -> &'static str {
    let words = match words_of_line(alloc, line) {
        Ok(words) => words,
        Err(_) => return "no words",
    };
    match words.as_slice() {
        [form, rest @ ..] => match read(alloc, form.as_slice(), rest) {
            Ok(()) => "ok",
            Err(LineError::Refused(cause)) => name_of(cause),
            Err(LineError::NoMemory) => "no memory",
        },
        [] => "no words",
    }
}

#[test]
fn each_cause_at_each_kind_of_place(rt: HostRuntime) {
    let mut count: u32 = 0;
    for row in CASES.lines() {
        if let Some((wanted, line)) = row.split_once(": ") {
            assert_eq!(rt; told(rt.alloc(), line.as_bytes()), wanted, "{line}");
            count = count.saturating_add(1);
        }
    }
    assert_eq!(rt; count, 96);
}

// `items` and so many items.
fn items_line(alloc: Global, count: u32) -> Result<Bytes, Fail> {
    let mut line = Bytes::new(alloc);
    for b in b"items k delete" {
        line.push(*b)?;
    }
    for _ in 1..count {
        for b in b" / k delete" {
            line.push(*b)?;
        }
    }
    Ok(line)
}

#[test]
fn a_batch_has_1_to_64_items(rt: HostRuntime) -> Result<(), Fail> {
    for (count, wanted) in [(1u32, "ok"), (63, "ok"), (64, "ok"), (65, "wrong words")] {
        let line = items_line(rt.alloc(), count)?;
        assert_eq!(rt; told(rt.alloc(), line.as_slice()), wanted, "{count} items");
    }
    Ok(())
}

#[test]
fn the_meanings_are_those_of_the_words(rt: HostRuntime) -> Result<(), Fail> {
    what_spells_a_form_is_read_as_it::<u32>();
    let alloc = rt.alloc();
    match identifier(b"00000002-0000-4000-8000-00000000000a", Kind::Table) {
        Ok(id) => {
            assert!(rt; id.kind == Kind::Table);
            assert_eq!(rt; id.number, 10);
        }
        Err(_) => assert!(rt; false),
    }
    assert!(rt;
        matches!(
            identifier(&[0xe9; 36], Kind::Table),
            Err(LineError::Refused(Cause::BadIdentifier))
        )
    );
    let words = match words_of_line(alloc, b"2 x") {
        Ok(words) => words,
        Err(_) => Records::new(alloc),
    };
    match slot_at(words.as_slice(), 2) {
        Ok((slot, rest)) => {
            assert_eq!(rt; slot, 2);
            assert_eq!(rt; rest.len(), 1);
        }
        Err(_) => assert!(rt; false),
    }
    let words = match words_of_line(alloc, b"k v=-1 w='a / b' / l delete") {
        Ok(words) => words,
        Err(_) => Records::new(alloc),
    };
    let items = match items(alloc, words.as_slice()) {
        Ok(items) => items,
        Err(_) => Records::new(alloc),
    };
    match items.as_slice() {
        [first, second] => {
            assert!(rt; first.key.as_slice() == b"k".as_slice());
            match &first.op {
                NamedOp::Upsert(cells) => match cells.as_slice() {
                    [v, w] => {
                        assert!(rt; v.column.as_slice() == b"v".as_slice());
                        assert!(rt; v.value == Value::Int(-1));
                        assert!(rt;
                            matches!(&w.value, Value::Text(text) if text.as_slice() == b"a / b".as_slice())
                        );
                    }
                    _ => assert!(rt; false),
                },
                NamedOp::Delete => assert!(rt; false),
            }
            assert!(rt; second.key.as_slice() == b"l".as_slice());
            assert!(rt; second.op == NamedOp::Delete);
        }
        _ => assert!(rt; false),
    }
    Ok(())
}
