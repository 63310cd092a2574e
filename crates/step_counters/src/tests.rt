ghost use Rattle.std.specs.Prelude.{◌≡◌, length};
ghost use Rattle.step_counters.specs.declared.machine.Add.TheVariants.{One, Two};

use crate::gate::Gate;
use crate::machine::{Add, Counters, Full};
use crate::starts::{begin_line, start, three_counters};
use crate::turns::perform_many;
use std::sync::{Arc, Wait};
use std::test::Fail;
use std::thread::join;
use step_table::{Pass, StepTable, TryRefused};

/// Says whether the answer is that this slot's lock was found taken.
fn is_taken(answer: &Result<u64, TryRefused<Full>>, slot: u32) -> bool {
    match answer {
        Err(TryRefused::Taken { slot: found }) => *found == slot,
        _ => false,
    }
}

/// Tries slot 1, which is held at the gate, and slot 2, and opens the gate.
fn try_both(
    table: &StepTable<Counters>,
    mut pass: Pass<Counters>,
    gate: &Gate,
) -> (Pass<Counters>, bool)
    requires { (pass.table ≡ table.now.id) × (length table.now.given ≡ 3) }
    ensures { (result.0.table ≡ pass.table) × (result.0.shares ≡ pass.shares) }
{
    let reached = gate.is_reached();
    let held = table.try_perform(&mut pass, Add::One { slot: 1 });
    let other = table.try_perform(&mut pass, Add::One { slot: 2 });
    gate.open();
    let told = reached && is_taken(&held, 1) && other.is_ok();
    (pass, told)
}

/// Performs an event on slot 2 while slot 1 is held at the gate, and opens the gate afterwards.
fn perform_beside<R: Wait>(
    rt: &R,
    table: &StepTable<Counters>,
    mut pass: Pass<Counters>,
    gate: &Gate,
) -> (Pass<Counters>, bool)
    requires { (pass.table ≡ table.now.id) × (length table.now.given ≡ 3) }
    ensures { (result.0.table ≡ pass.table) × (result.0.shares ≡ pass.shares) }
{
    let reached = gate.is_reached();
    let other = table.perform(rt, &mut pass, Add::One { slot: 2 });
    gate.open();
    (pass, reached && other.is_ok())
}

#[test]
fn each_call_with_ample_memory_performs_its_event(rt: HostRuntime) -> Result<(), Fail> {
    let alloc = rt.alloc();
    let gate = Arc::new(alloc, Gate::new())?;
    gate.open();
    let Ok(parts) = three_counters(alloc, gate) else {
        return Err(Fail::new("no memory"));
    };
    let Ok((table, mut first)) = start(parts) else {
        return Err(Fail::new("no memory"));
    };
    let one = table.perform(&rt, &mut first, Add::One { slot: 1 });
    let two = table.perform(&rt, &mut first, Add::Two { slot: 1, other: 2 });
    let all = table.try_perform(&mut first, Add::All { count: 3 });
    assert!(rt; matches!(&one, Ok(1)));
    assert!(rt; matches!(&two, Ok(2)));
    assert!(rt; matches!(&all, Ok(1)));
    let Ok(second) = table.split_pass(&mut first) else {
        return Err(Fail::new("no memory"));
    };
    assert!(rt; first.shares() == 4095 && second.shares() == 1);
    table.join_pass(&mut first, second);
    assert!(rt; first.shares() == 4096);
    let parts = table.close(first);
    let counters = parts.as_slice();
    assert!(rt; counters.len() == 3);
    assert!(rt; counters[0].len() == 1 && counters[1].len() == 2 && counters[2].len() == 0);
    Ok(())
}

#[test]
fn a_held_slot_is_found_taken_and_another_is_not(rt: HostRuntime) -> Result<(), Fail> {
    let alloc = rt.alloc();
    let gate = Arc::new(alloc, Gate::new())?;
    let theirs = Arc::try_clone(&gate)?;
    let Ok(parts) = three_counters(alloc, theirs) else {
        return Err(Fail::new("no memory"));
    };
    let Ok((table, mut first)) = start(parts) else {
        return Err(Fail::new("no memory"));
    };
    let Ok(second) = table.split_pass(&mut first) else {
        return Err(Fail::new("no memory"));
    };
    let one = Add::One { slot: 1 };
    let ((mut first, done), (second, told)) = join(
        &rt,
        ||
            requires { (first.table ≡ table.id) × (length table.given ≡ 3) × (one ≡ One 1) }
        { perform_many(&rt, &table, first, one, 1) },
        ||
            requires { (second.table ≡ table.id) × (length table.given ≡ 3) }
        { try_both(&table, second, &gate) },
    );
    table.join_pass(&mut first, second);
    assert!(rt; done == 1 && told && !gate.is_given_up());
    assert!(rt; first.shares() == 4096);
    Ok(())
}

#[test]
fn two_slots_do_not_wait_for_each_other(rt: HostRuntime) -> Result<(), Fail> {
    let alloc = rt.alloc();
    let gate = Arc::new(alloc, Gate::new())?;
    let theirs = Arc::try_clone(&gate)?;
    let Ok(parts) = three_counters(alloc, theirs) else {
        return Err(Fail::new("no memory"));
    };
    let Ok((table, mut first)) = start(parts) else {
        return Err(Fail::new("no memory"));
    };
    let Ok(second) = table.split_pass(&mut first) else {
        return Err(Fail::new("no memory"));
    };
    let one = Add::One { slot: 1 };
    let ((mut first, done), (second, beside)) = join(
        &rt,
        ||
            requires { (first.table ≡ table.id) × (length table.given ≡ 3) × (one ≡ One 1) }
        { perform_many(&rt, &table, first, one, 1) },
        ||
            requires { (second.table ≡ table.id) × (length table.given ≡ 3) }
        { perform_beside(&rt, &table, second, &gate) },
    );
    table.join_pass(&mut first, second);
    assert!(rt; done == 1 && beside && !gate.is_given_up());
    assert!(rt; first.shares() == 4096);
    Ok(())
}

#[test]
fn threads_that_wait_for_one_slot_are_woken(rt: HostRuntime) -> Result<(), Fail> {
    let alloc = rt.alloc();
    let gate = Arc::new(alloc, Gate::new())?;
    gate.open();
    let Ok(parts) = three_counters(alloc, gate) else {
        return Err(Fail::new("no memory"));
    };
    let Ok((table, mut first)) = start(parts) else {
        return Err(Fail::new("no memory"));
    };
    let Ok(second) = table.split_pass(&mut first) else {
        return Err(Fail::new("no memory"));
    };
    let one = Add::One { slot: 0 };
    let both = Add::Two { slot: 0, other: 2 };
    let ((mut first, ones), (second, boths)) = join(
        &rt,
        ||
            requires { (first.table ≡ table.id) × (length table.given ≡ 3) × (one ≡ One 0) }
        { perform_many(&rt, &table, first, one, 1000) },
        ||
            requires { (second.table ≡ table.id) × (length table.given ≡ 3) × (both ≡ Two 0 2) }
        { perform_many(&rt, &table, second, both, 1000) },
    );
    table.join_pass(&mut first, second);
    assert!(rt; ones == 1000 && boths == 1000 && first.shares() == 4096);
    let parts = table.close(first);
    let counters = parts.as_slice();
    assert!(rt; counters.len() == 3 && counters[0].len() == 2000 && counters[2].len() == 0);
    Ok(())
}

#[test]
fn a_line_performs_the_events_of_one_thread(rt: HostRuntime) -> Result<(), Fail> {
    let alloc = rt.alloc();
    let gate = Arc::new(alloc, Gate::new())?;
    gate.open();
    let Ok(parts) = three_counters(alloc, gate) else {
        return Err(Fail::new("no memory"));
    };
    let Ok(mut line) = begin_line(parts) else {
        return Err(Fail::new("no memory"));
    };
    let one = line.perform(Add::One { slot: 1 });
    let two = line.perform(Add::Two { slot: 1, other: 2 });
    let all = line.perform(Add::All { count: 3 });
    assert!(rt; matches!(&one, Ok(1)));
    assert!(rt; matches!(&two, Ok(2)));
    assert!(rt; matches!(&all, Ok(1)));
    assert!(rt; line.part(0).len() == 1 && line.part(1).len() == 2 && line.part(2).len() == 0);
    Ok(())
}
